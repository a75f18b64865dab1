// The jump table, which leads to the records of the code points from 256 on.
#![tactic(auto)]

ghost use Rattle.std.specs.Prelude.{◌≡◌, ◌≤◌, length};
ghost use Rattle.definitions.specs.Lookup.{jump_table};
ghost use Rattle.unicode_jumptable_reader.specs.Distances.{distance};

use utils::big_endian::u16_at;

// How far from the table the records begin, or none if the table ends before; and how many entries were read.
#[derive(Clone, Copy, Debug, PartialEq, Eq)]
pub struct JumpOffset {
    pub jump_offset: Option<usize>,
    pub entries: u32,
}

// An entry is a distance and an upper limit. The sum may pass the font's end, and 32 bits, long before
// the table answers: the move happens afterwards (SPECIFICATION, Lookup).
pub fn calculate_jump_offset(table: &[u8], encoding: u16) -> JumpOffset
    requires { length table.now ≤ 1048576 }
    ensures { distance result ≡ jump_table encoding 0 0 table.now }
{
    let (entries, _) = table.as_chunks::<4>();
    let mut jump_offset: usize = 0;
    for (before, entry) in entries.iter().enumerate() {
        jump_offset += usize::from(u16_at(entry, 0));
        if encoding <= u16_at(entry, 2) {
            return JumpOffset {
                jump_offset: Some(jump_offset),
                entries: before as u32 + 1,
            };
        }
    }
    JumpOffset {
        jump_offset: None,
        entries: entries.len() as u32,
    }
}
