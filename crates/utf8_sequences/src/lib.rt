// The character that two, three or four bytes are: its code point and how many bytes it has. Unicode's
// table 3-6 says how their bits make the code point: five, four or three of the first byte, then six
// of each other. The three functions differ in more than a size: one with a const parameter would choose by a match how many bits
// the first byte gives and which bytes it reads, and is no plainer.
#![tactic(auto)]

ghost use Rattle.std.specs.Prelude.{◌≡◌, ◌%◌, if◌then◌else◌};
ghost use Rattle.definitions.specs.Utf8.{is_in, two, three, four, sequence};
ghost use Rattle.utf8_sequences.specs.Sequences.{as_character};

// The six bits of a byte after the first, where it is in its range.
fn six_bits(byte: u8, from: u8, to: u8) -> Option<u32>
    ensures { result ≡ (if is_in from to byte then Some (byte % 64) else None) }
{
    if from <= byte && byte <= to {
        Some(u32::from(byte) % 64)
    } else {
        None
    }
}

pub fn two_bytes(from: u8, to: u8, lead: u8, second: u8) -> Option<(u32, usize)>
    ensures { as_character result ≡ sequence (two from to) lead second 0 0 }
{
    let second = six_bits(second, from, to)?;
    Some((u32::from(lead) % 32 * 64 + second, 2))
}

pub fn three_bytes(from: u8, to: u8, lead: u8, second: u8, third: u8) -> Option<(u32, usize)>
    ensures { as_character result ≡ sequence (three from to) lead second third 0 }
{
    let second = six_bits(second, from, to)?;
    let third = six_bits(third, 0x80, 0xBF)?;
    Some((u32::from(lead) % 16 * 4096 + second * 64 + third, 3))
}

pub fn four_bytes(
    from: u8,
    to: u8,
    lead: u8,
    second: u8,
    third: u8,
    fourth: u8,
) -> Option<(u32, usize)>
    ensures { as_character result ≡ sequence (four from to) lead second third fourth }
{
    let second = six_bits(second, from, to)?;
    let third = six_bits(third, 0x80, 0xBF)?;
    let fourth = six_bits(fourth, 0x80, 0xBF)?;
    let high = u32::from(lead) % 8 * 262144 + second * 4096;
    Some((high + third * 64 + fourth, 4))
}
