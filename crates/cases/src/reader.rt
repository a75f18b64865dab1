// The file of cases, as tools/cases.py writes it: numbers of four bytes, the low byte first, and byte
// strings as a count of parts, each a repeat count, a length and the bytes. A file may end anywhere: `number`, `signed_number`,
// `byte` and `bytes` (checked.rt) refuse what is not there; `number_or_zero`, `signed_number_or_zero`, `low_byte` and `bytes_in`
// read what there is.
ghost use Rattle.std.specs.Prelude.{◌≡◌, ◌≤◌, Some, length, take};
ghost use Rattle.std.specs.List.{repeat};
ghost use Rattle.cases.specs.declared.reader.CaseError.TheVariants.{OutOfMemory};
ghost use Rattle.cases.specs.Errors.{error_text};
ghost use Rattle.cases.specs.Reading.{begin_of, byte, is_beyond, number_or_zero, passed, rest, signed_number};
ghost use Rattle.cases.specs.Strings.{behind_string, next_part_at, part_at, string};

mod checked;

use std::alloc::AllocError;
use std::error::Error;
use std::fmt;
use std::fmt::Write;
use std::marker::Model;

// What is read beyond this place has ended early, by `ends_early` and `bytes_in`.
const LAST_PLACE: usize = 1_048_576;

// Why a case cannot be answered.
#[derive(Clone, Copy, Debug, PartialEq, Eq)]
pub enum CaseError {
    EndsTooEarly,
    UnknownCode,
    OutOfMemory,
}

impl fmt::Display for CaseError {
    ghost output = { λ e. Some (error_text e) };

    fn fmt<W: fmt::Write>(&self, f: &mut fmt::Formatter<W>) -> fmt::Result {
        f.write_str(match self {
            CaseError::EndsTooEarly => "the file of cases ends too early",
            CaseError::UnknownCode => "a case has a number without a meaning",
            CaseError::OutOfMemory => "there is no memory for a case",
        })
    }
}

impl Error for CaseError {}

impl From<AllocError> for CaseError {
    ghost from_gives = { λ _ e. e ≡ OutOfMemory };

    fn from(_error: AllocError) -> CaseError {
        CaseError::OutOfMemory
    }
}

// Fills the front of the room with the piece, so many times, as far as there is room, and answers how much of it is filled.
fn fill_repeated(room: &mut [u8], piece: &[u8], times: u32) -> usize
    ensures most { result ≤ length room.old }
    ensures filled { take result room.new ≡ take (length room.old) (repeat times piece.now) }
{
    let mut filled = 0;
    for _ in 0..times {
        // nothing is to come, or there is no room for it
        if piece.is_empty() || filled == room.len() {
            break;
        }
        let count = piece.len().min(room.len() - filled);
        room[filled..filled + count].copy_from_slice(&piece[..count]);
        filled += count;
    }
    filled
}

// The file and how far it is read: clauses see its bytes and the place.
#[derive(Drop)]
pub struct Reader<'a> {
    file: &'a [u8],
    next: usize,
}

impl<'a> Model for Reader<'a> {
    ghost use Rattle.cases.specs.Reading.{Position};

    ghost Value = { Position };

    ghost view = { λ r. record { file = r.file.now; next = r.next } };
}

impl<'a> Reader<'a> {
    pub fn new(file: &'a [u8]) -> Reader<'a>
        ensures { result ≡ begin_of file.now }
    {
        Reader { file, next: 0 }
    }

    // Whether what is read next begins beyond the last place that a file of cases has.
    pub fn ends_early(&self) -> bool
        ensures { result ≡ is_beyond self.now }
    {
        LAST_PLACE < self.next
    }

    // The next bytes, as far as the file has them; all of them are passed.
    fn take(&mut self, len: usize) -> &'a [u8]
        ensures value { result.now ≡ take len (rest self.old) }
        ensures after { self.new ≡ passed len self.old }
    {
        let rest = self.file.get(self.next..).unwrap_or(&[]);
        self.next = self.next.saturating_add(len);
        &rest[..len.min(rest.len())]
    }

    // 0 where the file does not have all four bytes.
    pub fn number_or_zero(&mut self) -> u32
        ensures value { result ≡ number_or_zero self.old }
        ensures after { self.new ≡ passed 4 self.old }
    {
        let word = self.take(4);
        word.first_chunk::<4>()
            .map_or(0, |word| u32::from_le_bytes(*word))
    }

    pub fn signed_number_or_zero(&mut self) -> i32
        ensures value { result ≡ signed_number self.old }
        ensures after { self.new ≡ passed 4 self.old }
    {
        self.number_or_zero().cast_signed()
    }

    // The low byte of a number.
    pub fn low_byte(&mut self) -> u8
        ensures value { result ≡ byte self.old }
        ensures after { self.new ≡ passed 4 self.old }
    {
        (self.number_or_zero() % 256) as u8
    }

    // A part of a byte string: its bytes, as often as it says. Answers how much of the room is filled.
    fn part(&mut self, room: &mut [u8]) -> usize
        ensures most { result ≤ length room.old }
        ensures filled { take result room.new ≡ take (length room.old) (part_at self.old) }
        ensures after { self.new ≡ next_part_at self.old }
    {
        let times = self.number_or_zero();
        let size = self.number_or_zero();
        let piece = self.take(size as usize);
        fill_repeated(room, piece, times)
    }

    // A byte string, cut at the room. Where a part begins beyond the last place it is empty, and the file begins anew.
    pub fn bytes_in<'b>(&mut self, room: &'b mut [u8]) -> &'b [u8]
        ensures value { result.now ≡ string (length room.old) self.old }
        ensures after { self.new ≡ behind_string self.old }
    {
        let mut len = 0;
        for _ in 0..self.number_or_zero() {
            if self.ends_early() {
                self.next = 0;
                return &room[..0];
            }
            len += self.part(&mut room[len..]);
        }
        &room[..len]
    }
}

#[cfg(test)]
mod tests {
    use super::*;

    // two parts, "ab" three times and "c" once, and a number behind them
    #[test]
    fn byte_string_is_read(rt: HostRuntime) {
        let file = b"\x02\0\0\0\x03\0\0\0\x02\0\0\0ab\x01\0\0\0\x01\0\0\0c\x07\0\0\0";
        let mut reader = Reader::new(file);
        let mut room = [0; 9];
        let string = reader.bytes_in(&mut room);
        assert_eq!(rt; string, b"abababc".as_slice());
        assert_eq!(rt; reader.number_or_zero(), 7);
        // the file ends here
        assert_eq!(rt; reader.number_or_zero(), 0);
        let mut small = [0; 4];
        let cut = Reader::new(file).bytes_in(&mut small);
        assert_eq!(rt; cut, b"abab".as_slice());
    }
}
