// What keeps a transform from being applied: words of areas that lie in old blocks.
#![tactic(auto)]

ghost use Rattle.std.specs.Prelude.{◌≡◌, nat_eq};
ghost use Rattle.std.specs.Map.{lookup};
ghost use Rattle.mps_xform.specs.Blocking.{any_lies_in_old, is_blocked, lies_in_old};
ghost use Rattle.mps_xform.specs.State.{pair_of};

use crate::replacements::Replacements;
use crate::transforms::Transforms;
use mps_base::Addr;
use mps_root::{Roots, Stored};
use mps_seg::Segs;

impl Transforms {
    /// Whether a word of an area lies in an old block of a transform.
    pub fn blocked(&mut self, transform: u32, segs: &Segs, roots: &Roots) -> bool
        ensures unchanged { self.new ≡ self.old }
        ensures value { result ≡ is_blocked (pair_of self.old transform) segs.now.blocks roots.now.areas }
    {
        self.replacements.fill(&self.pairs, transform);
        is_blocked(&self.replacements, segs, roots)
    }
}

// Whether a word of some area lies in an old block.
fn is_blocked(replacements: &Replacements, segs: &Segs, roots: &Roots) -> bool
    ensures { result ≡ is_blocked (λ old. lookup (nat_eq old) replacements.now) segs.now.blocks roots.now.areas }
{
    for key in 0..roots.area_keys() {
        if let Some(words) = roots.words(key) {
            if any_lies_in_old(replacements, segs, words) {
                return true;
            }
        }
    }
    false
}

// Whether one of the words of an area lies in an old block.
fn any_lies_in_old(replacements: &Replacements, segs: &Segs, words: &[Stored]) -> bool
    ensures { result ≡ any_lies_in_old (λ old. lookup (nat_eq old) replacements.now) segs.now.blocks words.now }
{
    words
        .iter()
        .any(|stored| lies_in_old(replacements, segs, stored.word))
}

// Whether a word lies in an old block.
fn lies_in_old(replacements: &Replacements, segs: &Segs, word: u64) -> bool
    ensures { result ≡ lies_in_old (λ old. lookup (nat_eq old) replacements.now) segs.now.blocks word }
{
    if let Some(at) = segs.block_at(word) {
        if let Some(pair) = replacements.get(at) {
            if pair.inside {
                return true;
            }
        }
    }
    match replacements.get(Addr(word)) {
        Some(pair) => !pair.inside,
        None => false,
    }
}
