// A PGM image in its binary form: a head, and then the framebuffer's bytes.
#![tactic(auto)]

ghost use Rattle.std.specs.Prelude.{◌≡◌};
ghost use Rattle.pgm.specs.Images.{pgm_head};

use numbers::text::Text;
use std::io;
use std::io::Write;
use std::rt::Files;
use system::open_overwrite;
use types::geometry::Size;

// The longest head: `P5`, two numbers of ten digits, each after a space, and `255` between newlines.
const HEAD_ROOM: usize = 29;

fn head(size: Size) -> Text<HEAD_ROOM>
    ensures { result ≡ pgm_head size.width size.height }
{
    let mut head = Text::new();
    head.push_bytes(b"P5");
    head.push_unsigned(size.width);
    head.push_unsigned(size.height);
    head.push_bytes(b"\n255\n");
    head
}

// Of the two writes the second says whether the image is written.
fn write_file<R: Files>(rt: &R, path: &[u8], size: Size, pixels: &[u8]) -> io::Result<()> {
    let mut file = open_overwrite(rt, path)?;
    let _ = file.write_all(head(size).as_bytes());
    file.write_all(pixels)
}

// Writes the image to the file of that name, or says why not.
pub fn write_image<R: Files + Eprint + Alloc>(rt: &R, path: &[u8], size: Size, pixels: &[u8]) {
    if let Err(error) = write_file(rt, path, size, pixels) {
        system::fail(rt, path, error);
    }
}
