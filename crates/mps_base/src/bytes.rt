// Searches and tests of bytes.

ghost use Rattle.std.specs.Prelude.{◌≡◌, ◌==◌, ◌<◌, ◌≤◌, length, position, IfSome};
ghost use Rattle.std.specs.List.{list_all, position_or_len};
ghost use Rattle.mps_base.specs.Name.{is_letter, is_name_byte, is_name};

/// The most bytes of a name.
pub const MAX_NAME_BYTES: usize = 16;

/// The index of the first such byte, if there is one.
pub fn find_byte(byte: u8, bytes: &[u8]) -> Option<usize>
    ensures index { result ≡ position (λ other. other == byte) bytes.now }
    ensures in_bounds { IfSome result (λ index. index < length bytes.now) }
{
    bytes.iter().position(|other| *other == byte)
}

/// How many bytes stand before the first such byte: all if there is none.
pub fn length_before(byte: u8, bytes: &[u8]) -> usize
    ensures length { result ≡ position_or_len (λ other. other == byte) bytes.now }
    ensures at_most { result ≤ length bytes.now }
{
    find_byte(byte, bytes).unwrap_or(bytes.len())
}

/// Whether a byte is a letter a to z.
fn is_letter(byte: u8) -> bool
    ensures { result ≡ is_letter byte }
{
    byte.is_ascii_lowercase()
}

/// Whether a byte is a letter a to z, a digit or an underscore.
fn is_name_byte(byte: u8) -> bool
    ensures { result ≡ is_name_byte byte }
{
    byte.is_ascii_lowercase() || byte.is_ascii_digit() || byte == b'_'
}

/// Whether each byte is a letter a to z, a digit or an underscore.
fn are_name_bytes(bytes: &[u8]) -> bool
    ensures { result ≡ list_all is_name_byte bytes.now }
{
    bytes.iter().all(|byte| is_name_byte(*byte))
}

/// Whether the bytes are a name: a letter a to z and then at most 15 letters a to z, digits or underscores.
pub fn is_name(bytes: &[u8]) -> bool
    ensures { result ≡ is_name bytes.now }
{
    match bytes {
        [] => false,
        [first, rest @ ..] => {
            is_letter(*first) && rest.len() < MAX_NAME_BYTES && are_name_bytes(rest)
        }
    }
}
