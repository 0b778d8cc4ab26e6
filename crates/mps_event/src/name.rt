// The names that a log interns.

ghost use Rattle.std.specs.Prelude.{◌≡◌, ◌==◌};
ghost use Rattle.std.specs.List.{list_all};
ghost use Rattle.mps_event.specs.Name.{is_padded_name};

use mps_base::{find_byte, is_name};

/// Whether each byte is zero.
fn are_zeros(bytes: &[u8]) -> bool
    ensures { result ≡ list_all (λ byte. byte == 0) bytes.now }
{
    bytes.iter().all(|byte| *byte == 0)
}

/// Whether the bytes are a name and then zeros.
pub fn is_padded_name(bytes: &[u8]) -> bool
    ensures { result ≡ is_padded_name bytes.now }
{
    let length = find_byte(0, bytes).unwrap_or(bytes.len());
    let (name, zeros) = bytes.split_at(length);
    is_name(name) && are_zeros(zeros)
}
