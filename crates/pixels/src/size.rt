// How large a framebuffer is.
ghost use Rattle.std.specs.Prelude.{◌≡◌, ◌≤◌};
ghost use Rattle.definitions.specs.Framebuffer.{per_byte, size_in_bytes};
ghost use Rattle.pixels.specs.Rooms.{room_for};

use types::framebuffer::{Framebuffer, PixelFormat};

// How many pixels of a column a byte holds.
pub fn per_byte(format: PixelFormat) -> usize
    ensures { result ≡ per_byte format }
{
    match format {
        PixelFormat::Bytes => 1,
        PixelFormat::Packed => 8,
    }
}

// The smallest framebuffer that has so many columns and rows: its bytes are whole.
pub fn room_for(format: PixelFormat, width: usize, height: usize) -> Framebuffer
    requires { height ≤ 256 }
    ensures { result ≡ room_for format width height }
{
    let n = per_byte(format);
    let byte_rows = (height + n - 1) / n;
    Framebuffer {
        format,
        width,
        height: byte_rows * n,
    }
}

// How many bytes its buffer has.
pub fn size_in_bytes(framebuffer: Framebuffer) -> usize
    requires { (framebuffer.width ≤ 256) × (framebuffer.height ≤ 256) }
    ensures size { result ≡ size_in_bytes framebuffer }
    ensures most { result ≤ 65536 }
{
    framebuffer.height / per_byte(framebuffer.format) * framebuffer.width
}
