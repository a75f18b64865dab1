// The file of pictures: a line with the framebuffer's width and height, and then for each reading a character that says what is
// seen of it, and the framebuffer's pixels as grey values. Each write is tried, whatever came of those before.
ghost use Rattle.std.specs.Prelude.{◌≡◌, length};
ghost use Rattle.definitions.specs.Framebuffer.{BufferFits};

use pixels::unpack::{to_greys, unpack};
use sight::Sight;
use std::io::{Result, Write};
use types::framebuffer::{Framebuffer, PixelFormat};

// The grey of packed rubbish, the darkest that there is in bytes.
const RUBBISH: u8 = 96;

// The first line, if there is a file. What failed first is the answer.
pub fn write_head<W: Write>(cells: &mut Result<W>, framebuffer: Framebuffer) -> Result<()> {
    match cells {
        Ok(file) => {
            let width = write!(file, "{}", framebuffer.width);
            let space = file.write_all(b" ");
            let height = write!(file, "{}", framebuffer.height);
            let end = file.write_all(b"\n");
            width.and(space).and(height).and(end)
        }
        Err(error) => Err(*error),
    }
}

// A difference is what the eye is to fall on, so it comes before all else.
fn letter(sight: Option<Sight>, differing: usize) -> u8 {
    match sight {
        _ if differing != 0 => b'd',
        Some(Sight::Whole) => b'w',
        Some(Sight::Part) => b'p',
        Some(Sight::Unseen) => b'n',
        None => b'r',
    }
}

// What is black on the ground too is no reading's.
fn shade(pixel: u8, ground: u8) -> u8 {
    if pixel == 0 && ground == 0 {
        RUBBISH
    } else {
        pixel
    }
}

// The pixels of a packed screen, as grey values. Not inlined: a screen in bytes takes no stack for it.
#[inline(never)]
fn write_packed<W: Write>(
    file: &mut W,
    framebuffer: Framebuffer,
    ground: &[u8],
    screen: &[u8],
) -> Result<()>
    requires { BufferFits (length screen.now) framebuffer × (length ground.now ≡ length screen.now) }
{
    let n = framebuffer.height * framebuffer.width;
    let mut pixels = [0u8; 65536];
    let mut under = [0u8; 65536];
    unpack(framebuffer, screen, &mut pixels[..n]);
    to_greys(framebuffer.format, &mut pixels[..n]);
    unpack(framebuffer, ground, &mut under[..n]);
    for i in 0..n {
        pixels[i] = shade(pixels[i], under[i]);
    }
    file.write_all(&pixels[..n])
}

// In bytes the screen is written as it is: rubbish there is 96 to 196 and background 255, so that no black is the ground's.
fn write_pixels<W: Write>(
    file: &mut W,
    framebuffer: Framebuffer,
    ground: &[u8],
    screen: &[u8],
) -> Result<()>
    requires { BufferFits (length screen.now) framebuffer × (length ground.now ≡ length screen.now) }
{
    match framebuffer.format {
        PixelFormat::Bytes => file.write_all(screen),
        PixelFormat::Packed => write_packed(file, framebuffer, ground, screen),
    }
}

// One reading more, if there is a file.
pub fn write_cell<W: Write>(
    cells: &mut Result<W>,
    sight: Option<Sight>,
    differing: usize,
    framebuffer: Framebuffer,
    ground: &[u8],
    screen: &[u8],
) -> Result<()>
    requires { BufferFits (length screen.now) framebuffer × (length ground.now ≡ length screen.now) }
{
    match cells {
        Ok(file) => {
            let marked = file.write_all(&[letter(sight, differing)]);
            let shown = write_pixels(file, framebuffer, ground, screen);
            marked.and(shown)
        }
        Err(error) => Err(*error),
    }
}
