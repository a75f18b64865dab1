// Bytes of a font as a number, the first being the lowest.
#![tactic(auto)]

ghost use Rattle.std.specs.Prelude.{◌≡◌, ◌+◌, ◌%◌, ◌≤◌, length, get_or};
ghost use Rattle.window.specs.Window.{window};

// The byte at i, or 0 past the font's end. A function, so that what std's three calls come to is said once for three bytes.
fn byte_or_zero(font: &[u8], i: usize) -> u8
    ensures { result ≡ get_or font.now i 0 }
{
    font.get(i).copied().unwrap_or(0)
}

// The four bytes from i on. The compiler makes one load of it. `first_chunk` of `get(i..)` is no plainer: each of the two has a test
// and an Option of its own, where one test of the caller stands for both.
fn word_at(font: &[u8], i: usize) -> u32
    requires { i + 4 ≤ length font.now }
    ensures { result ≡ window 32 font.now i }
{
    u32::from_le_bytes([font[i], font[i + 1], font[i + 2], font[i + 3]])
}

// The three bytes from i on. Bytes past the font's end are 0.
fn three_bytes_at(font: &[u8], i: usize) -> u32
    requires { i ≤ 16777216 }
    ensures { result ≡ window 24 font.now i }
{
    let bytes = [
        byte_or_zero(font, i),
        byte_or_zero(font, i + 1),
        byte_or_zero(font, i + 2),
        0,
    ];
    u32::from_le_bytes(bytes)
}

// The bytes from i on: four of them, or three near the font's end.
pub fn bytes_at(font: &[u8], i: usize) -> u32
    requires { i ≤ 16777216 }
    ensures { result % 16777216 ≡ window 24 font.now i }
{
    if i + 4 <= font.len() {
        return word_at(font, i);
    }
    three_bytes_at(font, i)
}

// The bytes from i on: eight of them, again by one load, or six near the font's end.
pub fn long_at(font: &[u8], i: usize) -> u64
    requires { i ≤ 1048576 }
    ensures { result % 281474976710656 ≡ window 48 font.now i }
{
    if i + 8 <= font.len() {
        return u64::from_le_bytes([
            font[i],
            font[i + 1],
            font[i + 2],
            font[i + 3],
            font[i + 4],
            font[i + 5],
            font[i + 6],
            font[i + 7],
        ]);
    }
    u64::from(three_bytes_at(font, i)) + (u64::from(three_bytes_at(font, i + 3)) << 24)
}
