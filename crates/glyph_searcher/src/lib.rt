// From a code point to the byte where its glyph begins, and by how many steps.
#![tactic(auto)]

ghost use Rattle.std.specs.Prelude.{◌≡◌, ◌≤◌, Ok, length};
ghost use Rattle.definitions.specs.Lookup.{missing, short, chain, chain_start, after_entries, search_table, search as lookup};
ghost use Rattle.glyph_searcher.specs.Answers.{search_report, InLimits};

use font_reader::opened::OpenedFont;
use records::{CharWidth, OneByte, Record, TwoBytes};
use types::error::Error;
use types::font_reader::FontReader;
use types::results::Report;
use types::steps::LookupSteps;
use unicode_jumptable_reader::{JumpOffset, calculate_jump_offset};

// Where the records begin: the first byte after the header.
const U8G2_FONT_DATA_STRUCT_SIZE: usize = 23;

// The glyph begins at this byte.
fn found(start: usize, steps: LookupSteps) -> Report<usize>
    ensures { result ≡ record { result = Ok start; steps = steps } }
{
    Report {
        result: Ok(start),
        steps,
    }
}

// The font has no such glyph: number 7.
fn not_found(ch: u16, steps: LookupSteps) -> Report<usize>
    ensures { result ≡ search_report ch (missing steps) }
{
    Report {
        result: Err(Error::GlyphNotFound(u32::from(ch))),
        steps,
    }
}

// A byte is missing, or a move goes past the end: number 8.
fn font_ends(ch: u16) -> Report<usize>
    ensures { result ≡ search_report ch short }
{
    Report {
        result: Err(Error::FontEnds(u32::from(ch))),
        steps: LookupSteps::default(),
    }
}

// The chain from the record at `start` on, of records whose codes are so wide, after so many entries of the jump table. A record
// counts where its code was looked at: one that ends the chain by its jump does from 256 on, and does not up to 255 (amended by
// A3). The loop goes by the jumps, and over no range.
fn search_chain<W: CharWidth>(font: &[u8], start: usize, ch: u16, entries: u32) -> Report<usize>
    requires { InLimits (length font.now) start }
    ensures { result ≡ search_report ch (chain (W.says ch) (after_entries entries) 0 start font.now) }
{
    let mut at = start;
    let mut records: u32 = 0;
    loop {
        let says = W::read_record(font, at, ch);
        let looked = LookupSteps {
            records: records + 1,
            entries,
        };
        match says {
            Record::Here(n) => return found(at + usize::from(n), looked),
            Record::Next(jump) => {
                records = looked.records;
                at += usize::from(jump);
            }
            Record::Last => return not_found(ch, looked),
            Record::End => return not_found(ch, LookupSteps { records, entries }),
            Record::Cut => return font_ends(ch),
        }
    }
}

// Where the chain of a code point up to 255 begins.
fn chain_start(head: FontReader, encoding: u16) -> usize
    ensures { (result ≡ chain_start head encoding) × (result ≤ 65558) }
{
    match encoding {
        97.. => U8G2_FONT_DATA_STRUCT_SIZE + usize::from(head.array_offset_lower_a),
        65..97 => U8G2_FONT_DATA_STRUCT_SIZE + usize::from(head.array_offset_upper_a),
        _ => U8G2_FONT_DATA_STRUCT_SIZE,
    }
}

// Code points from 256 to 65535: the jump table begins at `table`, and leads to the chain. Each may
// begin exactly at the font's end, but not past it.
#[tactic(auto, using(crate::proofs::SearchRules::table_leads))]
fn search_unicode(font: &OpenedFont, table: usize, encoding: u16) -> Report<usize>
    ensures { result ≡ search_report encoding (search_table font.now.bytes.now table encoding) }
{
    let Some(rest) = font.bytes.get(table..) else {
        return font_ends(encoding);
    };
    let JumpOffset {
        jump_offset,
        entries,
    } = calculate_jump_offset(rest, encoding);
    let Some(jump_offset) = jump_offset else {
        let records = 0;
        return not_found(encoding, LookupSteps { records, entries });
    };
    if rest.len() < jump_offset {
        return font_ends(encoding);
    }
    search_chain::<TwoBytes>(font.bytes, table + jump_offset, encoding, entries)
}

// Where the glyph of a code point begins. Above 65535 no byte is looked at.
#[tactic(auto, using(crate::proofs::SearchRules::searches))]
pub fn search(font: &OpenedFont, ch: u32) -> Report<usize>
    ensures { result ≡ search_report ch (lookup font.now.bytes.now ch) }
{
    let Ok(encoding) = u16::try_from(ch) else {
        return Report {
            result: Err(Error::GlyphNotFound(ch)),
            steps: LookupSteps::default(),
        };
    };
    if 255 < encoding {
        let table = U8G2_FONT_DATA_STRUCT_SIZE + usize::from(font.head.array_offset_0x0100);
        return search_unicode(font, table, encoding);
    }
    search_chain::<OneByte>(font.bytes, chain_start(font.head, encoding), encoding, 0)
}
