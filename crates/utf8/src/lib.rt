// The first character of a text, its bytes taken as UTF-8. Not by std's `str::from_utf8`: which bytes are a character is a
// definition of ours, after Unicode's tables, and code that departs from it is to be refused here.
#![tactic(auto)]

ghost use Rattle.std.specs.Prelude.{◌≡◌, MatchOption, get_or};
ghost use Rattle.definitions.specs.Utf8.{malformed, first_character};
ghost use Rattle.utf8_sequences.specs.Sequences.{as_character};
ghost use Rattle.utf8.specs.Splits.{FirstAndRest};

use utf8_rows::{Row, row_of};
use utf8_sequences::{four_bytes, three_bytes, two_bytes};

// The byte at i; past the end 0, which continues no sequence. Crate window has the same of a font, in one expression as here; neither
// stands on the other.
fn byte_at(text: &[u8], i: usize) -> u8
    ensures { result ≡ get_or text.now i 0 }
{
    text.get(i).copied().unwrap_or(0)
}

// The first character: its code point and how many bytes it has.
#[tactic(auto, using(crate::proofs::FirstLaws::firsts))]
fn first_char(text: &[u8]) -> Option<(u32, usize)>
    ensures { as_character result ≡ first_character text.now }
{
    let lead = *text.first()?;
    let second = byte_at(text, 1);
    let third = byte_at(text, 2);
    let fourth = byte_at(text, 3);
    match row_of(lead)? {
        Row::One => Some((u32::from(lead), 1)),
        Row::Two(from, to) => two_bytes(from, to, lead, second),
        Row::Three(from, to) => three_bytes(from, to, lead, second, third),
        Row::Four(from, to) => four_bytes(from, to, lead, second, third, fourth),
    }
}

// The first character and the bytes after it. None where no character begins the text, as where it is empty.
#[tactic(auto, using(crate::proofs::FirstLaws::firsts))]
pub fn split_first_char(text: &[u8]) -> Option<(u32, &[u8])>
    ensures { MatchOption result (first_character text.now ≡ malformed) (λ p. FirstAndRest text.now p.0 p.1.now) }
{
    let (ch, len) = first_char(text)?;
    Some((ch, &text[len..]))
}
