// Addresses of bytes, and sets of zones.

ghost use Rattle.std.specs.Prelude.{◌≡◌, ◌<◌, ◌^◌};
ghost use Rattle.mps_base.specs.Address.{grain_of, word_of, address_of_grain};

/// The bytes of a word.
pub const BYTES_OF_WORD: u64 = 8;

/// The words of a grain.
pub const WORDS_OF_GRAIN: usize = 512;

/// The bytes of a grain.
pub const BYTES_OF_GRAIN: u64 = 4096;

/// The address of a byte of the arena. Blocks begin at multiples of 8; address 0 is null.
#[derive(Clone, Copy, Debug, PartialEq, Eq, PartialOrd, Ord)]
pub struct Addr(pub u64);

impl Addr {
    /// The address at which a grain begins.
    pub fn of_grain(grain: u32) -> Addr
        ensures { result.0 ≡ address_of_grain grain }
    {
        Addr(BYTES_OF_GRAIN * u64::from(grain))
    }

    /// The number of the grain in which it lies.
    pub fn grain(self) -> usize
        ensures { result ≡ grain_of self.0 }
    {
        (self.0 / BYTES_OF_GRAIN) as usize
    }

    /// The number of the word in which it lies.
    pub fn word(self) -> usize
        ensures { result ≡ word_of self.0 }
    {
        (self.0 / BYTES_OF_WORD) as usize
    }
}

/// A set of the 64 zones: bit z is 1 if zone z is in it. The zone of an address is its grain modulo 64.
#[derive(Clone, Copy, Debug, PartialEq, Eq)]
pub struct ZoneSet(pub u64);
