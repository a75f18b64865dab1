// Replays the cases of data/cases.bin through the public calls and prints what each answers. The file
// stdout holds what tools/model.py, the rules written apart from the crates, says of them (tools/cases.py writes both).
#![tactic(auto)]

use case_calls::case::Case;
use case_calls::request;
use cases::reader::Reader;

// The file of cases ends before the last of them.
#[derive(Clone, Copy, Debug, PartialEq, Eq)]
struct EndsEarly;

// What a case is read into, and drawn on.
#[derive(Drop)]
struct Rooms {
    label: [u8; 128],
    font: [u8; 1_048_577],
    text: [u8; 4200],
    framebuffer: [u8; 65_600],
}

impl Rooms {
    fn new() -> Rooms {
        Rooms {
            label: [0; 128],
            font: font_file::buffer(),
            text: [0; 4200],
            framebuffer: [0; 65_600],
        }
    }
}

fn goes_on(cases: &Reader) -> Result<(), EndsEarly> {
    if cases.ends_early() {
        Err(EndsEarly)
    } else {
        Ok(())
    }
}

// A byte string of a case, where the file goes on behind it.
fn string<'a>(cases: &mut Reader, room: &'a mut [u8]) -> Result<&'a [u8], EndsEarly> {
    let string = cases.bytes_in(room);
    goes_on(cases)?;
    Ok(string)
}

// One case: its label and what its call answers.
fn replay<R: Print>(rt: &R, cases: &mut Reader, rooms: &mut Rooms) -> Result<(), EndsEarly> {
    let label = string(cases, &mut rooms.label)?;
    let font = string(cases, &mut rooms.font)?;
    let text = string(cases, &mut rooms.text)?;
    printing::text(rt, label);
    let _ = print!(rt; ": ");
    let case = Case::read_lossy(cases);
    request::answer(rt, case, font, text, &mut rooms.framebuffer);
    let _ = println!(rt);
    goes_on(cases)
}

fn replay_all<R: Print>(rt: &R, file: &[u8], rooms: &mut Rooms) -> Result<(), EndsEarly> {
    let mut cases = Reader::new(file);
    for _ in 0..cases.number_or_zero() {
        replay(rt, &mut cases, rooms)?;
    }
    Ok(())
}

fn main(rt: HostRuntime) {
    let mut buffer = font_file::buffer();
    let mut rooms = Rooms::new();
    let Some(mut file) = system::opened(&rt, b"cases.bin") else {
        return;
    };
    let file = system::read_full(&mut file, &mut buffer);
    if let Err(EndsEarly) = replay_all(&rt, file, &mut rooms) {
        let _ = println!(rt; "the file of cases ends too early");
    }
}
