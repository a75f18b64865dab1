// The sheet as a program: the font's readings are drawn and checked, their pictures go into the file sheet.cells.
ghost use Rattle.std.specs.Prelude.{length};
ghost use Rattle.sheet_extent.specs.Extent.{place_for};
ghost use Rattle.sheet_program.specs.Sheets.{Buffers, LargeBuffers, SheetOf};

use crate::cells::write_head;
use crate::run::run;
use crate::values::Sheet;
use faulty_step::Trial;
use pixels::size::size_in_bytes;
use sheet_extent::place::place_for;
use sheet_extent::values::Options;
use sheet_ground::ground::lay_ground;
use sheet_report::{print_totals, print_verdict};
use std::fs::File;
use std::rt::Files;
use types::place::Place;

// Makes the sheet on framebuffers of the place's size. It is made whether or not its pictures can be written.
fn fill_sheet<R: Files + Print>(
    rt: &R,
    font: &[u8],
    place: Place,
    narrow: bool,
    ground: &mut [u8],
    screen: &mut [u8],
    alone: &mut [u8],
) -> Sheet
    requires { Buffers place (length ground.old) (length screen.old) (length alone.old) }
    ensures { SheetOf narrow font.now place result }
{
    lay_ground(font, place, &mut ground[..]);
    screen.copy_from_slice(&ground[..]);
    let mut cells = File::create(rt, "sheet.cells");
    let begun = write_head(&mut cells, place.framebuffer);
    let trial = Trial { place, narrow };
    let sheet = run(rt, font, trial, &ground[..], screen, alone, &mut cells);
    Sheet {
        totals: sheet.totals,
        written: begun.and(sheet.written),
    }
}

// The same on buffers for the largest framebuffers, of 256 × 256 pixels. Whatever the font, the anchor, the alignment and the place,
// every reading is counted once and, without the fault, none differs and a refused one leaves the field empty.
pub fn make_sheet<R: Files + Print>(
    rt: &R,
    font: &[u8],
    options: Options,
    ground: &mut [u8],
    screen: &mut [u8],
    alone: &mut [u8],
) -> Sheet
    requires { LargeBuffers (length ground.old) (length screen.old) (length alone.old) }
    ensures { SheetOf options.narrow font.now (place_for font.now options) result }
{
    let place = place_for(font, options);
    let bytes = size_in_bytes(place.framebuffer);
    fill_sheet(
        rt,
        font,
        place,
        options.narrow,
        &mut ground[..bytes],
        &mut screen[..bytes],
        &mut alone[..bytes],
    )
}

// Makes the sheet of a font, and prints its totals and the verdict.
fn show_sheet<R: Files + Print>(rt: &R, font: &[u8], options: Options) {
    let mut ground = [0u8; 65536];
    let mut screen = [0u8; 65536];
    let mut alone = [0u8; 65536];
    let sheet = make_sheet(rt, font, options, &mut ground, &mut screen, &mut alone);
    print_totals(rt, sheet.totals);
    print_verdict(rt, sheet.totals, sheet.written.is_ok());
}

// The program, for the font in that file.
pub fn start<R: Files + Print + Eprint + Alloc>(rt: &R, path: &[u8], options: Options) {
    let mut buffer = font_file::buffer();
    match font_file::read(rt, path, &mut buffer) {
        Ok(font) => show_sheet(rt, font, options),
        Err(error) => font_file::report(rt, path, error),
    }
}
