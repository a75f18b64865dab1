// A text's bytes as UTF-8, as a whole: whether they are, and their newlines.
ghost use Rattle.std.specs.Prelude.{◌≡◌, true, ◌≤◌, length};
ghost use Rattle.definitions.specs.Utf8.{decode, is_utf8, code_points, newlines};

use utf8::split_first_char;

// Whether the whole text is UTF-8: any other is refused before its first letter (SPECIFICATION, Refusals).
#[tactic(auto, using(crate::proofs::TextLaws::texts))]
pub fn is_utf8(text: &[u8]) -> bool
    ensures { result ≡ is_utf8 (decode text.now) }
{
    let mut rest = text;
    while let Some((_, tail)) = split_first_char(rest) {
        rest = tail;
    }
    rest.is_empty()
}

// The number of newlines. The byte 10 is no part of a longer sequence, so the bytes are counted.
#[tactic(auto, using(crate::proofs::TextLaws::texts))]
pub fn get_newline_count(text: &[u8]) -> u32
    requires { (length text.now ≤ 4096) × (is_utf8 (decode text.now) ≡ true) }
    ensures { result ≡ newlines (code_points (decode text.now)) }
{
    text.iter().filter(|byte| **byte == b'\n').count() as u32
}
