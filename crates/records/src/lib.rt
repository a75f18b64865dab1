// What a record says of a code point. A record has a code, a jump and a glyph's data. The font's end is compared with `at` and not
// with a byte after it, so that a loop over records has the end at hand. The place stands beside the font, as a slice from it on would
// not say where in the font a glyph begins: the loop would carry the slice and the place.
#![tactic(auto)]

ghost use Rattle.std.specs.Prelude.{◌≡◌, ℕ, ◌≤◌, List, eqb, length, drop};
ghost use Rattle.integers.specs.Integers.{pick};
ghost use Rattle.definitions.specs.Lookup.{Record as LookupRecord, next, last, record8, record16};
ghost use Rattle.definitions.proofs.LookupLaws.{Looks, looks8, looks16};
ghost use Rattle.records.specs.Records.{as_record};

use utils::big_endian::u16_at;

#[derive(Clone, Copy, Debug, PartialEq, Eq)]
pub enum Record {
    // the glyph begins so many bytes on
    Here(u8),
    // the next record begins so many bytes on
    Next(u8),
    // the chain ends with it
    Last,
    // the chain ends before it: its code is not looked at
    End,
    // a byte is missing
    Cut,
}

// Behind a code of two bytes that does not match: jump 0 ends the chain.
fn jump_to_next(jump: u8) -> Record
    ensures { as_record result ≡ pick (eqb jump 0) last (next jump) }
{
    if jump == 0 {
        return Record::Last;
    }
    Record::Next(jump)
}

// How many bytes the code of a record has.
pub trait CharWidth {
    // what the bytes of a record say of a code point
    ghost says: { ℕ → List ℕ → LookupRecord };

    fn read_record(font: &[u8], at: usize, ch: u16) -> Record
        requires { 23 ≤ length font.now }
        ensures { as_record result ≡ says ch (drop at font.now) };

    ghost looks: { (c : ℕ) → Looks (says c) };
}

// Up to 255. The jump counts before the code, as in `u8g2_font.c` and not as in the Rust (amended by A3; SPECIFICATION, Lookup).
#[derive(Clone, Copy, Debug, PartialEq, Eq)]
pub struct OneByte;

impl CharWidth for OneByte {
    ghost says = { record8 };

    ghost looks = { looks8 };

    #[tactic(auto, using(crate::proofs::Record8Laws::record8_says))]
    fn read_record(font: &[u8], at: usize, ch: u16) -> Record {
        if font.len() - 1 <= at {
            return Record::Cut;
        }
        let jump = font[at + 1];
        let ends = jump == 0;
        let matches = u16::from(font[at]) == ch;
        if ends {
            return Record::End;
        }
        if matches {
            return Record::Here(2);
        }
        Record::Next(jump)
    }
}

// From 256 on. Code 0 ends the chain, also where its jump is missing.
#[derive(Clone, Copy, Debug, PartialEq, Eq)]
pub struct TwoBytes;

impl CharWidth for TwoBytes {
    ghost says = { record16 };

    ghost looks = { looks16 };

    #[tactic(auto, using(crate::proofs::Record16Laws::record16_says))]
    fn read_record(font: &[u8], at: usize, ch: u16) -> Record {
        if font.len() - 2 < at {
            return Record::Cut;
        }
        let code = u16_at(font, at);
        if code == 0 {
            return Record::Last;
        }
        if font.len() - 2 == at {
            return Record::Cut;
        }
        if code == ch {
            return Record::Here(3);
        }
        jump_to_next(font[at + 2])
    }
}
