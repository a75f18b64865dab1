// A case's numbers, where each is there and has a meaning.
ghost use Rattle.std.specs.Prelude.{◌≡◌, ok_or};
ghost use Rattle.cases.specs.declared.reader.CaseError.TheVariants.{UnknownCode};
ghost use Rattle.cases.specs.Reading.{rest};
ghost use Rattle.case_calls.specs.Numbers.{call_of, IsCase, IsColor, Reads};

use super::{Call, Case, Drawing, FORMAT, SUMS};
use c_codes::{known_alignment, known_anchor, known_flag, known_format};
use cases::reader::{CaseError, Reader};
use types::framebuffer::Framebuffer;
use types::geometry::Point;
use types::style::{FontColor, FontStyle, Placement};

impl TryFrom<u32> for Call {
    type Error = CaseError;

    ghost try_from_gives = { λ code r. r ≡ ok_or (call_of code) UnknownCode };

    #[tactic(auto, unfolding(crate::specs::Numbers::call_of))]
    fn try_from(code: u32) -> Result<Call, CaseError> {
        match code {
            0 => Ok(Call::Open),
            1 => Ok(Call::FontBox),
            2 => Ok(Call::Measure),
            3 => Ok(Call::MeasureAligned),
            4 => Ok(Call::Draw(Drawing::Plain)),
            5 => Ok(Call::Draw(Drawing::Redraw)),
            6 => Ok(Call::Draw(Drawing::Aligned)),
            _ => Err(CaseError::UnknownCode),
        }
    }
}

fn checked_color(cases: &mut Reader) -> Result<FontColor, CaseError>
    ensures { Reads IsColor 3 (rest cases.old) (rest cases.new) result }
{
    let has_background = known_flag(cases.number()?).ok_or(CaseError::UnknownCode)?;
    let fg = cases.byte()?;
    let bg = cases.byte()?;
    Ok(if has_background {
        FontColor::WithBackground { fg, bg }
    } else {
        FontColor::Transparent(fg)
    })
}

impl Case {
    // All sixteen numbers are there, and have a meaning.
    #[tactic(auto, using(crate::proofs::ShortLaws::short_behind))]
    pub fn read(cases: &mut Reader) -> Result<Case, CaseError>
        ensures { Reads IsCase 16 (rest cases.old) (rest cases.new) result }
    {
        let kind = cases.number()?;
        let call = Call::try_from(kind % SUMS)?;
        let format = known_format(kind / FORMAT).ok_or(CaseError::UnknownCode)?;
        let x = cases.signed_number()?;
        let y = cases.signed_number()?;
        let vertical_pos = known_anchor(cases.number()?).ok_or(CaseError::UnknownCode)?;
        let align = known_alignment(cases.number()?);
        let horizontal_align = align.ok_or(CaseError::UnknownCode)?;
        let line_height = cases.number()?;
        let skip = known_flag(cases.number()?);
        let ignore_unknown_chars = skip.ok_or(CaseError::UnknownCode)?;
        let color = checked_color(cases)?;
        let width = cases.number()? as usize;
        let height = cases.number()? as usize;
        let fill = cases.byte()?;
        let len = cases.number()? as usize;
        let old_len = cases.number()? as usize;
        let background = cases.byte()?;
        Ok(Case {
            call,
            sums: SUMS <= kind % FORMAT,
            placement: Placement {
                position: Point { x, y },
                line_height,
                ignore_unknown_chars,
            },
            style: FontStyle {
                color,
                vertical_pos,
            },
            horizontal_align,
            framebuffer: Framebuffer {
                format,
                width,
                height,
            },
            fill,
            len,
            old_len,
            background,
        })
    }
}

#[cfg(test)]
mod tests {
    use super::*;
    use std::test::Fail;
    use types::framebuffer::PixelFormat;
    use types::style::{HorizontalAlignment, VerticalPosition};

    // Aligned drawing on a packed framebuffer, with its sums.
    const NUMBERS: [u32; 16] = [
        54, 3, 4294967294, 1, 1, 8, 1, 1, 1, 0, 9, 7, 170, 14, 5, 255,
    ];

    fn file(numbers: [u32; 16]) -> [u8; 64] {
        let mut file = [0; 64];
        for (bytes, number) in file.chunks_mut(4).zip(numbers) {
            bytes.copy_from_slice(&number.to_le_bytes());
        }
        file
    }

    #[test]
    fn case_is_read(rt: HostRuntime) -> Result<(), Fail> {
        let file = file(NUMBERS);
        let mut cases = Reader::new(&file);
        let case = Case {
            call: Call::Draw(Drawing::Aligned),
            sums: true,
            placement: Placement {
                position: Point { x: 3, y: -2 },
                line_height: 8,
                ignore_unknown_chars: true,
            },
            style: FontStyle {
                color: FontColor::WithBackground { fg: 1, bg: 0 },
                vertical_pos: VerticalPosition::Top,
            },
            horizontal_align: HorizontalAlignment::Center,
            framebuffer: Framebuffer {
                format: PixelFormat::Packed,
                width: 9,
                height: 7,
            },
            fill: 170,
            len: 14,
            old_len: 5,
            background: 255,
        };
        assert_eq!(rt; Case::read(&mut cases)?, case);
        // the file ends here
        assert_eq!(rt; Case::read(&mut cases), Err(CaseError::EndsTooEarly));
        Ok(())
    }

    // a call, a format, an anchor, an alignment, two flags and three bytes that there are not
    #[test]
    fn number_without_a_meaning_is_refused(rt: HostRuntime) {
        let wrong = [
            (0, 7),
            (0, 64),
            (3, 4),
            (4, 3),
            (6, 2),
            (7, 2),
            (8, 256),
            (12, 256),
            (15, 256),
        ];
        for (place, code) in wrong {
            let mut numbers = NUMBERS;
            if let Some(number) = numbers.get_mut(place) {
                *number = code;
            }
            let file = file(numbers);
            let refused = Case::read(&mut Reader::new(&file));
            assert_eq!(rt; refused, Err(CaseError::UnknownCode));
        }
    }

    #[test]
    fn call_has_a_number(rt: HostRuntime) {
        assert_eq!(rt; Call::try_from(5), Ok(Call::Draw(Drawing::Redraw)));
        assert_eq!(rt; Call::try_from(7), Err(CaseError::UnknownCode));
    }
}
