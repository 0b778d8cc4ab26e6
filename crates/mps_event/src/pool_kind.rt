// The kinds of pools, by their numbers in a log.

ghost use Rattle.std.specs.Prelude.{◌≡◌};
ghost use Rattle.mps_base.specs.PoolKind.{kind_number as number_of_kind};

use mps_base::Kind;

const AMC_NUMBER: u64 = 1;

const AMCZ_NUMBER: u64 = 2;

const AMS_NUMBER: u64 = 3;

const AWL_NUMBER: u64 = 4;

const LO_NUMBER: u64 = 5;

/// The number of a manual pool whose blocks have one size.
pub const MFS_NUMBER: u64 = 6;

/// The number of a manual pool whose blocks have any size.
pub const MVFF_NUMBER: u64 = 7;

/// The number of a manual pool that frees its blocks by frames.
pub const SNC_NUMBER: u64 = 8;

/// The number of an automatic pool's kind.
pub fn kind_number(kind: Kind) -> u64
    ensures { result ≡ number_of_kind kind }
{
    match kind {
        Kind::Amc => AMC_NUMBER,
        Kind::Amcz => AMCZ_NUMBER,
        Kind::Ams => AMS_NUMBER,
        Kind::Awl => AWL_NUMBER,
        Kind::Lo => LO_NUMBER,
    }
}
