// The program: draws a text in the font font.bin and prints the answer and the picture.
ghost use Rattle.std.specs.Prelude.{IfSome, length};
ghost use Rattle.definitions.specs.Vocabulary.{Packed};
ghost use Rattle.picture_text.specs.Marks.{IsPicture};
ghost use Rattle.draw_program.specs.Shown.{Held, Showable};

use draw_options::{Options, UnknownWord};
use pgm::write_image;
use picture_text::{EMPTY, color, print_rows};
use pictures::whole::{DrawError, Drawing, draw_whole};
use pixels::size::{room_for, size_in_bytes};
use pixels::unpack::{to_greys, unpack};
use printing::{BoxOrNone, Dimensions};
use std::io::Read;
use std::rt::Files;
use types::framebuffer::PixelFormat;
use types::geometry::{RenderedDimensions, Size};
use types::style::HorizontalAlignment;

// The call's answer: an aligned one has no advance.
fn answer<R: Print>(rt: &R, dimensions: RenderedDimensions, align: Option<HorizontalAlignment>) {
    let _ = match align {
        None => println!(rt; "ok {}", Dimensions(dimensions)),
        Some(_) => println!(rt; "ok {}", BoxOrNone(dimensions.bounding_box)),
    };
}

// The picture as text, or as an image in the file draw.pgm.
fn show_pixels<R: Files + Print + Eprint + Alloc>(rt: &R, size: Size, pgm: bool, pixels: &[u8])
    requires { IsPicture size.width size.height (length pixels.now) }
{
    if pgm {
        write_image(rt, b"draw.pgm", size, pixels);
        return;
    }
    print_rows(rt, pixels, size.width as usize, size.height as usize);
}

// The pixels of a packed framebuffer, as grey values: the rows of the text's box. Not inlined: drawing in bytes takes no stack
// for it.
#[inline(never)]
fn show_packed<R: Files + Print + Eprint + Alloc>(
    rt: &R,
    size: Size,
    pgm: bool,
    buffer: &[u8; 65536],
)
    requires { Held Packed size }
{
    let width = size.width as usize;
    let height = size.height as usize;
    let framebuffer = room_for(PixelFormat::Packed, width, height);
    let mut pixels = [0u8; 65536];
    let pixels = &mut pixels[..framebuffer.height * width];
    unpack(
        framebuffer,
        &buffer[..size_in_bytes(framebuffer)],
        &mut pixels[..],
    );
    to_greys(PixelFormat::Packed, &mut pixels[..]);
    show_pixels(rt, size, pgm, &pixels[..height * width]);
}

// The picture. In bytes the pixels are grey values, and the framebuffer is the text's box.
fn show_box<R: Files + Print + Eprint + Alloc>(
    rt: &R,
    size: Size,
    options: Options,
    buffer: &[u8; 65536],
)
    requires { Held options.format size }
{
    match options.format {
        PixelFormat::Bytes => {
            let area = size.height as usize * size.width as usize;
            show_pixels(rt, size, options.pgm, &buffer[..area]);
        }
        PixelFormat::Packed => show_packed(rt, size, options.pgm, buffer),
    }
}

// The answer, and the picture, if there is one.
fn show_drawn<R: Files + Print + Eprint + Alloc>(
    rt: &R,
    drawing: Drawing,
    options: Options,
    buffer: &[u8; 65536],
)
    requires { IfSome drawing.size (Held options.format) }
{
    answer(rt, drawing.dimensions, options.align);
    if let Some(size) = drawing.size {
        show_box(rt, size, options, buffer);
    }
}

fn show<R: Files + Print + Eprint + Alloc>(
    rt: &R,
    drawing: Result<Drawing, DrawError>,
    options: Options,
    buffer: &[u8; 65536],
)
    requires { Showable options.format drawing }
{
    match drawing {
        Err(error) => {
            let _ = println!(rt; "{error}");
        }
        Ok(drawing) => show_drawn(rt, drawing, options, buffer),
    }
}

// The text comes from `input`. There is room for a byte more than is allowed, so that what is too long is refused.
fn draw_input<R: Files + Print + Eprint + Alloc, I: Read>(
    rt: &R,
    font: &[u8],
    options: Options,
    input: &mut I,
) {
    let mut text = [0u8; 4097];
    let text = system::read_full(input, &mut text);
    let mut buffer = [EMPTY; 65536];
    let align = options.align.unwrap_or_default();
    let color = color(options.format, options.background);
    let drawing = draw_whole(font, text, align, color, options.format, &mut buffer);
    show(rt, drawing, options, &buffer);
}

pub fn start<R: Files + Print + Eprint + Alloc, I: Read>(
    rt: &R,
    options: Result<Options, UnknownWord>,
    input: &mut I,
) {
    let options = match options {
        Ok(options) => options,
        Err(unknown) => {
            let _ = println!(rt; "{unknown}");
            return;
        }
    };
    let path = b"font.bin";
    let mut buffer = font_file::buffer();
    match font_file::read(rt, path, &mut buffer) {
        Ok(font) => draw_input(rt, font, options, input),
        Err(error) => font_file::report(rt, path, error),
    }
}
