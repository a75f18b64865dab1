// The pixels, rows from the top.
ghost use Rattle.std.specs.Prelude.{◌≡◌, ◌/◌, ◌%◌, ◌*◌, ◌<◌, length, map};
ghost use Rattle.definitions.specs.Framebuffer.{per_byte, in_byte, pixel_at, unpacked, BufferFits};
ghost use Rattle.pixels.specs.Greys.{grey};

use crate::size::per_byte;
use types::framebuffer::{Framebuffer, PixelFormat};

// The pixel of a byte that has that number from the top.
fn in_byte(format: PixelFormat, pixel: usize, byte: u8) -> u8
    requires { pixel < per_byte format }
    ensures { result ≡ in_byte format pixel byte }
{
    match format {
        PixelFormat::Bytes => byte,
        PixelFormat::Packed => (byte >> pixel) & 1,
    }
}

// The pixel of that number.
fn pixel_at(framebuffer: Framebuffer, buffer: &[u8], i: usize) -> u8
    requires { BufferFits (length buffer.now) framebuffer × (i < framebuffer.height * framebuffer.width) }
    ensures { result ≡ pixel_at framebuffer buffer.now (i % framebuffer.width) (i / framebuffer.width) }
{
    let column = i % framebuffer.width;
    let row = i / framebuffer.width;
    let n = per_byte(framebuffer.format);
    let byte = buffer[row / n * framebuffer.width + column];
    in_byte(framebuffer.format, row % n, byte)
}

fn unpack_each(framebuffer: Framebuffer, buffer: &[u8], pixels: &mut [u8])
    requires { BufferFits (length buffer.now) framebuffer
        × (length pixels.old ≡ framebuffer.height * framebuffer.width) }
    ensures { pixels.new ≡ unpacked framebuffer buffer.now }
{
    for (i, pixel) in pixels.iter_mut().enumerate() {
        *pixel = pixel_at(framebuffer, buffer, i);
    }
}

// In bytes the buffer holds the pixels as they are.
pub fn unpack(framebuffer: Framebuffer, buffer: &[u8], pixels: &mut [u8])
    requires { BufferFits (length buffer.now) framebuffer
        × (length pixels.old ≡ framebuffer.height * framebuffer.width) }
    ensures { pixels.new ≡ unpacked framebuffer buffer.now }
{
    match framebuffer.format {
        PixelFormat::Bytes => pixels.copy_from_slice(buffer),
        PixelFormat::Packed => unpack_each(framebuffer, buffer, pixels),
    }
}

// A colour as a grey value: of a packed framebuffer's two colours 0 is black and 1 white.
fn grey(format: PixelFormat, color: u8) -> u8
    ensures { result ≡ grey format color }
{
    match format {
        PixelFormat::Packed if color != 0 => 255,
        _ => color,
    }
}

// The pixels as grey values.
pub fn to_greys(format: PixelFormat, pixels: &mut [u8])
    ensures { pixels.new ≡ map (grey format) pixels.old }
{
    for pixel in pixels.iter_mut() {
        *pixel = grey(format, *pixel);
    }
}
