// The header of a log.

ghost use Rattle.std.specs.Prelude.{◌≡◌, ◌++◌, ℕ, List, Ok, drop, IfOk};
ghost use Rattle.mps_base.specs.Record.{header_bytes};
ghost use Rattle.mps_event.specs.declared.version.Version.{Version as TheVersion};
ghost use Rattle.mps_event.specs.Event.{number_of_version};

use crate::fault::BadMagic;
use crate::version::Version;

/// The version of the log that begins with these bytes. `BadMagic` exactly if the first 8 bytes are no header, or
/// if there are fewer.
pub fn header(bytes: &[u8]) -> Result<Version, BadMagic>
    ensures sound { IfOk result (λ version. bytes.now ≡ header_bytes (number_of_version version) ++ drop 8 bytes.now) }
    ensures complete { (version : TheVersion) (rest : List ℕ) →
        bytes.now ≡ header_bytes (number_of_version version) ++ rest → result ≡ Ok version }
{
    match bytes {
        [b'M', b'P', b'S', b'L', b'O', b'G', 1, 0, ..] => Ok(Version::One),
        [b'M', b'P', b'S', b'L', b'O', b'G', 2, 0, ..] => Ok(Version::Two),
        _ => Err(BadMagic),
    }
}

/// The header of a log of a version.
pub fn header_of(version: Version) -> [u8; 8]
    ensures { result ≡ header_bytes (number_of_version version) }
{
    match version {
        Version::One => *b"MPSLOG\x01\x00",
        Version::Two => *b"MPSLOG\x02\x00",
    }
}
