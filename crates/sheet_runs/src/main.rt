// The sheet's stored runs. With the fault put in, one column too few filled, its output lists the angles at which an old pixel stays.
// At a place from which the readings run off the framebuffer, to the left and above, and in a font that ends within its "5", each
// reading with a 5 is refused after its first characters, its field stays empty, and the next one leaves no difference. Then places
// from which some readings are seen whole and some in part, and none at all. Then come the alignments. Aligned to the right, the
// last columns of all readings lie over each other: the fault is noticed at each step, and no longer reading's column stays beside a
// shorter one. Last come packed framebuffers: the same is printed as in bytes.
#![tactic(auto)]

use sheet_extent::values::Options;
use sheet_program::program::start;
use std::rt::Files;
use types::framebuffer::PixelFormat;
use types::geometry::Point;
use types::style::{HorizontalAlignment, VerticalPosition};

// A reading's top at the place.
fn top_at(x: i32, y: i32) -> Options {
    Options {
        vertical_pos: VerticalPosition::Top,
        at: Some(Point { x, y }),
        ..Options::default()
    }
}

fn packed(options: Options) -> Options {
    Options {
        format: PixelFormat::Packed,
        ..options
    }
}

fn run<R: Files + Print + Eprint + Alloc>(rt: &R, heading: &[u8], options: Options) {
    printing::text(rt, heading);
    start(rt, b"gauge.bin", options);
}

fn main(rt: HostRuntime) {
    let rt = &rt;
    let narrow = Options {
        narrow: true,
        ..Options::default()
    };
    run(rt, b"narrow: one column too few is filled\n", narrow);
    printing::text(rt, b"top at -9 -4, in a font that ends within its 5\n");
    start(rt, b"cut.bin", top_at(-9, -4));
    run(
        rt,
        b"top at 232 3: long readings run off the framebuffer to the right\n",
        top_at(232, 3),
    );
    run(rt, b"top at 256 3: no reading is seen\n", top_at(256, 3));
    run(
        rt,
        b"align center: the middle of each reading stands at its place\n",
        Options {
            horizontal_align: HorizontalAlignment::Center,
            ..Options::default()
        },
    );
    run(
        rt,
        b"align right, narrow: one column too few is filled\n",
        Options {
            horizontal_align: HorizontalAlignment::Right,
            narrow: true,
            ..Options::default()
        },
    );
    run(
        rt,
        b"packed, narrow: one column too few is filled\n",
        packed(narrow),
    );
    printing::text(
        rt,
        b"packed, top at -9 -4, in a font that ends within its 5\n",
    );
    start(rt, b"cut.bin", packed(top_at(-9, -4)));
    run(rt, b"packed\n", packed(Options::default()));
}
