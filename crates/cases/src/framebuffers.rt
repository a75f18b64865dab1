// The framebuffer of a case: what it holds before the call, and how it is printed after it.
ghost use Rattle.std.specs.Prelude.{◌≡◌, ◌<◌, ◌≤◌, ℕ, length, get_or};
ghost use Rattle.cases.specs.Patterns.{pattern_at};

use pixels::size::size_in_bytes;
use types::framebuffer::Framebuffer;

// What stands at an index before the call: 0 throughout, or a pattern in which neighbours differ.
fn pattern(fill: u8, i: usize) -> u8
    ensures { result ≡ pattern_at fill i }
{
    if fill == 0 {
        0
    } else {
        fill.wrapping_add((i % 3) as u8)
    }
}

pub fn fill(framebuffer: &mut [u8], fill: u8)
    ensures { (i : ℕ) → i < length framebuffer.old → get_or framebuffer.new i 0 ≡ pattern_at fill i }
{
    for (i, byte) in framebuffer.iter_mut().enumerate() {
        *byte = pattern(fill, i);
    }
}

// The bytes, a line for each row of them.
fn print_rows<R: Print>(rt: &R, framebuffer: &[u8], width: usize)
    requires { 0 < width }
{
    for row in framebuffer.chunks(width) {
        let _ = print!(rt; "\n ");
        for byte in row {
            let _ = print!(rt; " {byte}");
        }
    }
}

// How many bytes are no longer what they were.
fn changed(framebuffer: &[u8], fill: u8) -> usize {
    framebuffer
        .iter()
        .enumerate()
        .filter(|(i, byte)| **byte != pattern(fill, *i))
        .count()
}

fn checksum(framebuffer: &[u8]) -> u32 {
    framebuffer.iter().fold(0, |sum: u32, byte| {
        ((u64::from(sum) * 31 + u64::from(*byte)) % 65521) as u32
    })
}

fn print_summary<R: Print>(rt: &R, framebuffer: &[u8], fill: u8) {
    let changed = changed(framebuffer, fill);
    let sum = checksum(framebuffer);
    let _ = print!(rt; "\n  changed {changed} sum {sum}");
}

fn is_small(framebuffer: &[u8], size: Framebuffer) -> bool {
    framebuffer.len() <= 400
        && size.width <= 256
        && size.height <= 256
        && framebuffer.len() == size_in_bytes(size)
}

// Small framebuffers in full, larger ones and buffers of the wrong length by what changed and a checksum.
pub fn print<R: Print>(rt: &R, framebuffer: &[u8], fill: u8, size: Framebuffer) {
    if is_small(framebuffer, size) {
        print_rows(rt, framebuffer, size.width.max(1));
    } else {
        print_summary(rt, framebuffer, fill);
    }
}
