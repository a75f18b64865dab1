// Unicode's table 3-7, which says what sequences of bytes are well formed.
#![tactic(auto)]

ghost use Rattle.std.specs.Prelude.{◌≡◌};
ghost use Rattle.definitions.specs.Utf8.{row_of};
ghost use Rattle.utf8_rows.specs.Rows.{as_row};

// A row of table 3-7: how many bytes, and the range of the second, as its first and last byte: a row is Copy and always was, and a
// `RangeInclusive` is not, so callers that copy one would be asked for more.
#[derive(Clone, Copy, Debug, PartialEq, Eq)]
pub enum Row {
    One,
    Two(u8, u8),
    Three(u8, u8),
    Four(u8, u8),
}

// The row of a first byte, where a sequence begins so.
#[tactic(auto, using(crate::proofs::TableRows::table_rows))]
pub fn row_of(lead: u8) -> Option<Row>
    ensures { as_row result ≡ row_of lead }
{
    match lead {
        0x00..=0x7F => Some(Row::One),
        0xC2..=0xDF => Some(Row::Two(0x80, 0xBF)),
        0xE0 => Some(Row::Three(0xA0, 0xBF)),
        0xE1..=0xEC => Some(Row::Three(0x80, 0xBF)),
        0xED => Some(Row::Three(0x80, 0x9F)),
        0xEE..=0xEF => Some(Row::Three(0x80, 0xBF)),
        0xF0 => Some(Row::Four(0x90, 0xBF)),
        0xF1..=0xF3 => Some(Row::Four(0x80, 0xBF)),
        0xF4 => Some(Row::Four(0x80, 0x8F)),
        _ => None,
    }
}
