// Hashes that nobody can foresee.

use std::hash::{BuildHasher, FoldHasher, Hasher};

/// What the hash of each address begins with. Whoever chooses addresses and doesn't know it can't foresee which of them fall
/// into one place of a table. It never decides what a map answers.
#[derive(Clone, Copy)]
pub(crate) struct SecretHashes {
    begun: FoldHasher,
}

impl SecretHashes {
    /// From a random number.
    pub(crate) fn new(number: u64) -> SecretHashes {
        let mut begun = FoldHasher::default();
        begun.write_u64(number);
        SecretHashes { begun }
    }
}

impl BuildHasher for SecretHashes {
    type Hasher = FoldHasher;

    ghost build_hasher = { λ s. s.begun };

    #[inline(always)]
    fn build_hasher(&self) -> FoldHasher {
        self.begun
    }
}
