// The writers of rows, for each format of a framebuffer: they alone know what a byte holds. Each is lent the visible part of a row,
// which begins at the column `first` of a glyph's row, and fills the columns from `from` to before `to`, nothing where `to` is not
// above `from`. Columns outside the part are dropped. Both tests stand in the loop, since most stretches are short: to fill the
// visible columns at once takes 13 to 19 % more for letters of up to 16 pixels, to find their end before the loop 3 to 10 % (and for
// 96 pixels half, and 23 % less).
ghost use Rattle.std.specs.Prelude.{◌≡◌, ◌<◌};
ghost use Rattle.definitions.specs.Vocabulary.{Bytes, Packed};
ghost use Rattle.definitions.specs.Picture.{put};
ghost use Rattle.definitions.specs.Framebuffer.{paint_byte};
ghost use Rattle.framebuffer.specs.Columns.{only, Filled, AllFilled};

pub fn fill_bytes(first: usize, from: usize, to: usize, value: u8, part: &mut [u8])
    ensures { Filled Bytes 0 first from to value part.old part.new }
{
    for column in from..to {
        if first <= column {
            let i = column - first;
            if part.len() <= i {
                break;
            }
            part[i] = value;
        }
    }
}

// A byte with one of its pixels set: the bit of that number is 0 or 1, as the value is 0 or not.
#[inline(always)]
#[tactic(auto, using(crate::proofs::BitWriteLaws::bit_cleared, crate::proofs::BitWriteLaws::bit_set))]
fn set_pixel(byte: u8, pixel: usize, value: u8) -> u8
    requires { pixel < 8 }
    ensures { result ≡ paint_byte Packed (only pixel (put value)) byte }
{
    let bit = 1u8 << pixel;
    if value == 0 { byte & !bit } else { byte | bit }
}

pub fn fill_bits(first: usize, from: usize, to: usize, value: u8, pixel: usize, part: &mut [u8])
    requires { pixel < 8 }
    ensures { Filled Packed pixel first from to value part.old part.new }
{
    for column in from..to {
        if first <= column {
            let i = column - first;
            if part.len() <= i {
                break;
            }
            part[i] = set_pixel(part[i], pixel, value);
        }
    }
}

// Fills every column of the part. (The bytes of the other format have the slice method `fill`.)
pub fn fill_all_bits(value: u8, pixel: usize, part: &mut [u8])
    requires { pixel < 8 }
    ensures { AllFilled Packed pixel value part.old part.new }
{
    for byte in part.iter_mut() {
        *byte = set_pixel(*byte, pixel, value);
    }
}
