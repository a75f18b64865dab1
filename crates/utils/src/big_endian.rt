ghost use Rattle.std.specs.Prelude.{◌≡◌, ◌+◌, ◌≤◌, length};
ghost use Rattle.definitions.specs.Header.{big_endian16};

// A 16-bit number, its high byte first.
pub fn u16_at(font: &[u8], i: usize) -> u16
    requires { i + 2 ≤ length font.now }
    ensures { result ≡ big_endian16 font.now i }
{
    u16::from_be_bytes([font[i], font[i + 1]])
}
