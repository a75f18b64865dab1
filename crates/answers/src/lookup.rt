// From a code point to its glyph.
ghost use Rattle.std.specs.Prelude.{◌≡◌, ◌*◌, ◌≤◌, Err, IfOk, MatchResult, length};
ghost use Rattle.definitions.specs.Refusals.{outcome};
ghost use Rattle.definitions.specs.Glyph.{fields};
ghost use Rattle.answers.specs.Lookups.{LookedUp};

use font_reader::opened::OpenedFont;
use types::error::Error;
use types::glyph_reader::GlyphReader;
use types::results::Report;

// The glyph of ch where the search found it.
fn read_glyph(font: &OpenedFont, ch: u32, found: Result<usize, Error>) -> Result<GlyphReader, Error>
    requires { IfOk found (λ start. start ≤ length font.now.bytes.now) }
    ensures { MatchResult found
        (λ start. outcome result ≡ fields font.now.bytes.now font.now.head ch (start * 8)) (λ error. result ≡ Err error) }
{
    glyph_reader::new(font, ch, found?)
}

// What the font answers to a code point: its glyph, or number 7 or 8, and by how many steps.
pub fn retrieve_glyph_data(font: &OpenedFont, ch: u32) -> Report<GlyphReader>
    ensures { LookedUp font.now.bytes.now ch result }
{
    let found = glyph_searcher::search(font, ch);
    Report {
        result: read_glyph(font, ch, found.result),
        steps: found.steps,
    }
}
