// The scan of a weak block: its references to white blocks become null.
#![tactic(auto)]

ghost use Rattle.std.specs.Prelude.{◌≡◌, ℕ, ◌+◌, ◌*◌, ◌%◌, ◌<◌, ◌≤◌, true, false, IsTrue, Some, length, slice_index, slice_get};
ghost use Rattle.mps_base.specs.Address.{word_of, bytes_of_word, words_of_grain};
ghost use Rattle.mps_base.specs.declared.address.Addr.{Addr};
ghost use Rattle.mps_trace.specs.Splat.{SplatsCell, CanSplatCell, AreSplatsReady, SplatsAll, CanSplat, Splatted, CanSplatGrey, SplatsOne, HasNoWeakMark};
ghost use Rattle.mps_trace.specs.Trace.{traced};

use crate::Trace;
use mps_base::{Addr, BYTES_OF_WORD, Move, Rank, Trail};
use mps_format::Format;
use mps_seg::Segs;

impl<F: Format> Trace<F> {
    /// Splats the reference in a cell of the weak block at `at`. If its block is white it is null then, with its tag, else it is mended.
    fn splat_cell(&self, segs: &mut Segs, trail: &mut Trail, format: &F, at: Addr, cell: u32)
        requires aligned { at.0 % bytes_of_word ≡ 0 }
        requires inside { word_of at.0 + cell < length segs.old.words }
        requires can { CanSplatCell F.layout (F.layout format.now) self.now.formats (traced self.now segs.old trail.old) at cell }
        ensures splatted { SplatsCell F.layout (F.layout format.now) self.now.formats at cell (traced self.now segs.old trail.old)
            (traced self.now segs.new trail.new) }
        ensures size { length segs.new.words ≡ length segs.old.words }
    {
        let _ = segs.grains(); // so few that the address of a word fits
        let place = Addr(at.0 + BYTES_OF_WORD * u64::from(cell));
        let word = segs.word(place);
        let target = format.target(word);
        if target.0 == 0 {
            return;
        }
        match self.find(segs, target) {
            Some(to) => {
                segs.set_word(place, format.retarget(word, to));
                segs.note_write(at, to);
            }
            None => {
                segs.set_word(place, format.retarget(word, Addr(0)));
                trail.push(Move::Splat { holder: at, cell });
            }
        }
    }

    /// Splats the references of the block at `at` with this head that lead to white blocks, in ascending order.
    fn splat_cells(&self, segs: &mut Segs, trail: &mut Trail, format: &F, head: u64, at: Addr)
        requires aligned { at.0 % bytes_of_word ≡ 0 }
        requires valid { IsTrue ((F.layout format.now).is_valid head) }
        requires inside { word_of at.0 + (F.layout format.now).size head ≤ length segs.old.words }
        requires ready { AreSplatsReady F.layout (F.layout format.now) self.now.formats head at (traced self.now segs.old trail.old) }
        ensures all { SplatsAll F.layout (F.layout format.now) self.now.formats head at (traced self.now segs.old trail.old)
            (traced self.now segs.new trail.new) }
        ensures size { length segs.new.words ≡ length segs.old.words }
    {
        let mut from = 0;
        while let Some(cell) = format.ref_from(head, from) {
            self.splat_cell(segs, trail, format, at, cell);
            from = cell + 1;
        }
    }

    /// Scans the weak block at `at`: each of its references is splatted, and it is grey no longer.
    pub(crate) fn splat(&self, segs: &mut Segs, trail: &mut Trail, at: Addr)
        requires { CanSplat F.layout self.now segs.old trail.old at }
        ensures { Splatted F.layout self.now.formats (traced self.now segs.old trail.old) at (traced self.now segs.new trail.new) }
    {
        let format = self.format_over(segs, at);
        let head = segs.word(at);
        self.splat_cells(segs, trail, &format, head, at);
        let _ = segs.grains(); // its words are those of the marks
        segs.blacken(at);
    }

    /// Scans one of the weak grey blocks, and returns whether there was one. Which one it is is open.
    pub(crate) fn splat_next(&self, segs: &mut Segs, trail: &mut Trail) -> bool
        requires { CanSplatGrey F.layout self.now segs.old trail.old }
        ensures splatted { result ≡ true → SplatsOne F.layout self.now.formats (traced self.now segs.old trail.old)
            (traced self.now segs.new trail.new) }
        ensures scanned { result ≡ false → HasNoWeakMark segs.old }
        ensures idle { result ≡ false → (segs.new ≡ segs.old) × (trail.new ≡ trail.old) }
    {
        let Some(grey) = segs.next_grey(Rank::Weak) else {
            return false;
        };
        let at = Addr(BYTES_OF_WORD * grey.word() as u64);
        self.splat(segs, trail, at);
        true
    }
}
