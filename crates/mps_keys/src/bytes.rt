// The bytes of names, compared.
ghost use Rattle.std.specs.Prelude.{◌≡◌, length};
ghost use Rattle.std.specs.Int.{w64, from_le_bytes, to_le_bytes};
ghost use Rattle.std.specs.Str.{bytes_eq};

/// Whether the bytes of two names are the same. They are compared as two numbers.
#[inline(always)]
pub fn are_same(these: &[u8; 16], those: &[u8; 16]) -> bool
    ensures { result ≡ bytes_eq these.now those.now }
{
    number_of(&these[..8]) == number_of(&those[..8])
        && number_of(&these[8..]) == number_of(&those[8..])
}

/// Eight bytes as a number, the lowest first.
#[inline(always)]
fn number_of(bytes: &[u8]) -> u64
    requires { length bytes.now ≡ 8 }
    ensures value { result ≡ from_le_bytes w64 bytes.now }
    ensures bytes { to_le_bytes w64 result ≡ bytes.now }
{
    u64::from_le_bytes([
        bytes[0], bytes[1], bytes[2], bytes[3], bytes[4], bytes[5], bytes[6], bytes[7],
    ])
}
