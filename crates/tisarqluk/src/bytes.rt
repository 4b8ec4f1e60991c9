// Bytes and numbers taken out of a buffer from a place on.
ghost use Rattle.std.specs.Prelude.{◌≡◌, ◌+◌, ◌*◌, ◌≤◌, length, take, drop, get_or};

// The N bytes from byte `at` on.
pub(crate) fn array<const N: usize>(buf: &[u8], at: usize) -> [u8; N]
    requires { at + N ≤ length buf.now }
    ensures { result ≡ take N (drop at buf.now) }
{
    let mut a = [0; N];
    a.copy_from_slice(&buf[at..at + N]);
    a
}

// The number of the two bytes from byte `at` on, the higher first.
pub(crate) fn number(buf: &[u8], at: usize) -> u16
    requires { at + 2 ≤ length buf.now }
    ensures { result ≡ get_or buf.now at 0 * 256 + get_or buf.now (at + 1) 0 }
{
    u16::from_be_bytes([buf[at], buf[at + 1]])
}
