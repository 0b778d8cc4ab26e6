// Texts written one after another into borrowed bytes.

ghost use Rattle.std.specs.Prelude.{◌≡◌, ◌≤◌, ◌+◌, ◌++◌, length, take, drop};

/// Writes the text at the index `at`, and returns the index after it. The bytes before and after it are unchanged.
pub fn put_text(text: &[u8], out: &mut [u8], at: usize) -> usize
    requires { at + length text.now ≤ length out.old }
    ensures end { result ≡ at + length text.now }
    ensures text { take result out.new ≡ take at out.old ++ text.now }
    ensures unchanged { drop result out.new ≡ drop result out.old }
{
    let end = at + text.len();
    out[at..end].copy_from_slice(text);
    end
}
