// All two-byte numbers have the low byte first.
ghost use Rattle.std.specs.Prelude.{◌≡◌, ◌+◌, ◌<◌, ◌≤◌, ◌/◌, ◌%◌, length};
ghost use Rattle.scope.specs.Book.{two_byte};
ghost use Rattle.book.specs.Written.{with_bytes};

// The number that stands at i.
pub fn two_byte(b: &[u8], i: usize) -> u16
    requires { i + 1 < length b.now }
    ensures { result ≡ two_byte b.now i }
{
    u16::from_le_bytes([b[i], b[i + 1]])
}

// The low byte of a number. (It keeps its name, under which it is promised; how it is found is std's.)
pub fn low(n: u16) -> u8
    ensures { result ≡ n % 256 }
{
    n.to_le_bytes()[0]
}

// The high byte of a number. (As the low one.)
pub fn high(n: u16) -> u8
    ensures { result ≡ n / 256 % 256 }
{
    n.to_le_bytes()[1]
}

// Puts bytes over the output from a place on. Every byte of a flat book and of the registers is written here.
pub fn put_bytes<const N: usize>(out: &mut [u8], at: usize, bytes: [u8; N])
    requires { at + N ≤ length out.old }
    ensures { out.new ≡ with_bytes out.old at bytes.entry }
{
    out[at..at + N].copy_from_slice(&bytes);
}
