// A name as the key of a map.
ghost use Rattle.std.specs.Prelude.{[], ◌∷◌};
ghost use Rattle.std.proofs.Common.{rules};
ghost use Rattle.std.specs.Cmp.Rules.{comparing, hashing};
ghost use Rattle.mps_base.specs.Name.{same_name};

use mps_base::Name;
use mps_keys::are_same;
use std::hash::{Hash, Hasher};
use std::marker::Model;

/// A name, whose bytes are hashed as one piece. Contracts see it as the name.
#[derive(Drop)]
pub struct Key {
    pub name: Name,
}

impl Model for Key {
    ghost use Rattle.mps_base.specs.declared.names.Name.{Name};

    ghost Value = { Name };

    ghost view = { λ k. k.name };
}

impl PartialEq for Key {
    ghost eq = { same_name };

    ghost laws = { Prim.search (comparing, rules) };

    fn eq(&self, other: &Key) -> bool {
        are_same(&self.name.bytes, &other.name.bytes)
    }
}

impl Eq for Key {
    ghost laws = { Prim.search (comparing, rules) };
}

impl Hash for Key {
    ghost hash_input = { λ name. name.bytes ∷ [] };

    ghost respects_eq = { Prim.search (hashing, rules) };

    fn hash<H: Hasher>(&self, state: &mut H) {
        state.write(&self.name.bytes);
    }
}
