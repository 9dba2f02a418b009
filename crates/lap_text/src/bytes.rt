// Bytes put to the front of others.
ghost use Rattle.std.specs.Prelude.{◌≡◌, ◌≤◌, ◌++◌, length, drop};

// Writes a text to the front of out, and answers how many bytes it has.
pub fn copy(text: &[u8], out: &mut [u8]) -> usize
    requires { length text.now ≤ length out.old }
    ensures count { result ≡ length text.now }
    ensures bytes { out.new ≡ text.now ++ drop (length text.now) out.old }
{
    let n = text.len();
    out[..n].copy_from_slice(text);
    n
}
