// A glyph's runs (SPECIFICATION, Runs), pair by pair.
#![tactic(auto)]

pub mod run_reader;

ghost use Rattle.std.specs.Prelude.{◌≡◌, ◌+◌, ◌*◌, ◌≤◌, length};
ghost use Rattle.definitions.specs.Runs.{glyph_pixels};
ghost use Rattle.runs.specs.RunReads.{Short, is_whole};
ghost use Rattle.runs.specs.Stands.{CheckedPixel, PlaceOf};

use crate::run_reader::RunReader;
use font_reader::opened::OpenedFont;
use types::glyph_reader::GlyphReader;

// A zero run and a one run, and the bit of the font after their numbers. One bit must be left after each read, so the font has
// the pair if it has that bit: one test for a pair. What is read past the font's end is zeros.
// `Short` says that both numbers are bytes. As `u8` a pair took 4 instructions more, so that drawing took 2 to 4 % more; as a ghost field
// it would have to hold of the definitions' pairs, which are of any widths (`pair_at`).
#[derive(Clone, Copy, Debug, PartialEq, Eq)]
pub struct Runs {
    pub zeros: usize,
    pub ones: usize,
    pub bit_pos: usize,
}

impl Runs {
    // the pixels of both
    pub fn count(self) -> usize
        requires { Short self }
        ensures { result ≡ self.zeros + self.ones }
    {
        self.zeros + self.ones
    }
}

// Whether the font has all of a glyph's runs.
#[tactic(auto, using(crate::proofs::RunReadsLaws::no_pixels, crate::proofs::RunReadsLaws::some_pixels))]
pub fn check_runs(font: &OpenedFont, glyph: GlyphReader) -> bool
    requires { glyph.bit_pos ≤ 8 * length font.now.bytes.now }
    ensures { result ≡ is_whole (glyph_pixels font.now.bytes.now font.now.head glyph) }
{
    let pixels = usize::from(glyph.glyph_width) * usize::from(glyph.glyph_height);
    if pixels == 0 {
        return true;
    }
    RunReader::new(font).has_pixels(glyph.bit_pos, pixels)
}

// A place among a glyph's pixels: so many pixels into a pair.
#[derive(Clone, Copy, Debug, PartialEq, Eq)]
pub struct Place {
    pub runs: Runs,
    pub offset: usize,
}

// The place of a pixel of a glyph whose runs were checked: whole pairs are passed over. The loop goes over no range: each pair says
// where the next begins.
pub fn seek(font: &OpenedFont, glyph: GlyphReader, pixel: usize) -> Place
    requires { CheckedPixel font.now.bytes.now font.now.head glyph pixel }
    ensures { PlaceOf font.now.bytes.now font.now.head glyph pixel result }
{
    let reader = RunReader::new(font);
    let mut runs = reader.first_pair(glyph.bit_pos);
    let mut offset = pixel;
    while runs.count() <= offset {
        offset -= runs.count();
        runs = reader.next_pair(runs);
    }
    Place { runs, offset }
}
