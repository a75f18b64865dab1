// The drawing program's runs with arguments, each under a heading: with `background`; with `background` and `pgm`, and then the
// image that it wrote; with each alignment, of several lines, of a text without a pixel, and of two that are refused, the second a
// name padded with U+0000; with `packed`, after the same run without it; with a wrong word. What the aligned runs must print is what
// tools/draw_model.py prints.
#![tactic(auto)]

use draw_options::{Options, UnknownWord};
use draw_program::program::start;
use std::rt::Files;
use system::opened;
use types::framebuffer::PixelFormat;
use types::style::HorizontalAlignment;

fn run<R: Files + Print + Eprint + Alloc>(
    rt: &R,
    heading: &[u8],
    path: &[u8],
    options: Result<Options, UnknownWord>,
) {
    printing::text(rt, heading);
    if let Some(mut input) = opened(rt, path) {
        start(rt, options, &mut input);
    }
}

fn print_image<R: Files + Print + Eprint + Alloc>(rt: &R) {
    let mut image = [0u8; 65536];
    if let Some(mut file) = opened(rt, b"draw.pgm") {
        printing::text(rt, system::read_full(&mut file, &mut image));
        printing::text(rt, b"\n");
    }
}

fn aligned(align: HorizontalAlignment, background: bool) -> Result<Options, UnknownWord> {
    Ok(Options {
        background,
        align: Some(align),
        ..Options::default()
    })
}

fn run_aligned<R: Files + Print + Eprint + Alloc>(rt: &R) {
    let left = aligned(HorizontalAlignment::Left, false);
    run(rt, b"left\n", b"lines.txt", left);
    let center = aligned(HorizontalAlignment::Center, false);
    run(rt, b"center\n", b"lines.txt", center);
    let right = aligned(HorizontalAlignment::Right, true);
    run(rt, b"right, background\n", b"lines.txt", right);
    run(rt, b"center, no pixel\n", b"blank.txt", center);
    run(rt, b"right, refused\n", b"unknown.txt", right);
    run(rt, b"left, padded with U+0000\n", b"padded.txt", left);
}

fn packed(options: Options) -> Result<Options, UnknownWord> {
    Ok(Options {
        format: PixelFormat::Packed,
        ..options
    })
}

// As without `packed`, but that a background is white: it is the one colour beside the ink's.
fn run_packed<R: Files + Print + Eprint + Alloc>(rt: &R, image: Options, background: Options) {
    run(rt, b"pgm\n", b"text.txt", Ok(image));
    print_image(rt);
    run(rt, b"pgm, packed\n", b"text.txt", packed(image));
    print_image(rt);
    let centered = Options {
        align: Some(HorizontalAlignment::Center),
        ..Options::default()
    };
    run(rt, b"center, packed\n", b"lines.txt", packed(centered));
    run(rt, b"background, packed\n", b"text.txt", packed(background));
}

fn main(rt: HostRuntime) {
    let rt = &rt;
    let background = Options {
        background: true,
        ..Options::default()
    };
    run(rt, b"background\n", b"text.txt", Ok(background));
    let image = Options {
        pgm: true,
        ..background
    };
    run(rt, b"background, pgm\n", b"text.txt", Ok(image));
    print_image(rt);
    run_aligned(rt);
    let plain_image = Options {
        pgm: true,
        ..Options::default()
    };
    run_packed(rt, plain_image, background);
    run(rt, b"a wrong word\n", b"text.txt", Err(UnknownWord));
}
