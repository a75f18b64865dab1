// The loop over all readings: each is checked, reported where it fails, and its picture is written.
ghost use Rattle.sheet_program.specs.Sheets.{Begins, Runs};

use crate::cells::write_cell;
use crate::values::Sheet;
use faulty_step::Trial;
use readings::step::step;
use sheet_ground::texts::COUNT;
use sheet_report::{print_difference, print_refusals, with_answer};
use sheet_totals::Totals;
use sight::sight_of;
use std::io::{Result, Write};

// Draws all readings, one over the other, reports those that are refused or leave a difference, and writes the pictures, each
// whether or not those before could be written. On a ground that is background wherever a reading can stand, none differs.
pub fn run<R: Print, W: Write>(
    rt: &R,
    font: &[u8],
    trial: Trial,
    ground: &[u8],
    screen: &mut [u8],
    alone: &mut [u8],
    cells: &mut Result<W>,
) -> Sheet
    requires { Begins trial.place ground.now screen.old alone.old }
    ensures { Runs trial.narrow font.now trial.place ground.now screen.new result }
{
    let mut totals = Totals::default();
    let mut refusals = None;
    let mut written = Ok(());
    let mut old = None;
    for k in 0..COUNT {
        let found = step(font, old, k, trial, ground, &mut screen[..], &mut alone[..]);
        let sight = sight_of(found.answer, trial.place.framebuffer);
        totals = totals.counted(sight, found.differing);
        refusals = with_answer(rt, refusals, k, found.answer);
        print_difference(rt, k, found.differing);
        let framebuffer = trial.place.framebuffer;
        let cell = write_cell(
            &mut *cells,
            sight,
            found.differing,
            framebuffer,
            ground,
            &screen[..],
        );
        written = written.and(cell);
        old = found.old;
    }
    print_refusals(rt, refusals);
    Sheet { totals, written }
}

#[cfg(test)]
mod tests {
    use super::*;
    use crate::cells::write_head;
    use std::io::{Error, ErrorKind};
    use types::framebuffer::{Framebuffer, PixelFormat};
    use types::geometry::Point;
    use types::place::Place;
    use types::style::{FontColor, FontStyle, HorizontalAlignment, VerticalPosition};

    // It counts, and takes all writes but one.
    #[derive(Drop)]
    struct FailsOnce {
        at: usize,
        writes: usize,
    }

    impl Write for FailsOnce {
        fn write(&mut self, bytes: &[u8]) -> Result<usize> {
            self.writes = self.writes.saturating_add(1);
            if self.writes == self.at {
                return Err(Error::from(ErrorKind::StorageFull));
            }
            Ok(bytes.len())
        }

        fn flush(&mut self) -> Result<()> {
            Ok(())
        }
    }

    // Head and pictures of a framebuffer of one pixel: how many writes were tried, and whether all went well.
    fn made<R: Print>(rt: &R, at: usize) -> (usize, bool) {
        let framebuffer = Framebuffer {
            format: PixelFormat::Bytes,
            width: 1,
            height: 1,
        };
        let place = Place {
            position: Point { x: 0, y: 0 },
            style: FontStyle {
                color: FontColor::Transparent(0),
                vertical_pos: VerticalPosition::Top,
            },
            horizontal_align: HorizontalAlignment::Left,
            line_height: 1,
            background: 255,
            framebuffer,
        };
        let trial = Trial {
            place,
            narrow: false,
        };
        let mut cells = Ok(FailsOnce { at, writes: 0 });
        let begun = write_head(&mut cells, framebuffer);
        let mut screen = [255];
        let mut alone = [255];
        let sheet = run(rt, b"", trial, &[255], &mut screen, &mut alone, &mut cells);
        (
            cells.map_or(0, |file| file.writes),
            begun.and(sheet.written).is_ok(),
        )
    }

    // the head's four, and of each reading the letter and the picture, whichever fails
    #[test]
    fn each_write_is_tried(rt: HostRuntime) {
        for at in 1..8 {
            assert_eq!(rt; made(&rt, at), (4 + 2 * COUNT, false));
        }
    }
}
