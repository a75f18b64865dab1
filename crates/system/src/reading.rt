// An input read into a buffer.
ghost use Rattle.std.specs.Prelude.{◌≤◌, ◌<◌, length, take, MatchResult, IfOk, OnOk};
ghost use Rattle.std.specs.Io.KnownBytes.{Consumes, IsAtEnd};

use std::io::{Error, Read};

// A read failed, after these bytes.
#[derive(Clone, Copy, Debug)]
pub struct Stopped<'a> {
    pub read: &'a [u8],
    pub error: Error,
}

// Reads until the buffer is full, the input ends or a read fails, and answers how many bytes were read, which begin the buffer, and
// what failed. The loop goes by what each read answers: `read_exact` of std does not say how far it came, and `read_to_end` takes
// a Vec.
pub fn read_start<I: Read>(input: &mut I, buffer: &mut [u8]) -> (usize, Result<(), Error>)
    ensures bound { result.0 ≤ length buffer.new }
    ensures first_bytes { Consumes (I.remaining input.old) (I.remaining input.new) (take result.0 buffer.new) }
    ensures end { OnOk result.1 (result.0 < length buffer.old → IsAtEnd (I.remaining input.new)) }
{
    let mut n: usize = 0;
    while n < buffer.len() {
        match input.read(&mut buffer[n..]) {
            Ok(0) => return (n, Ok(())),
            Ok(k) => n += k,
            Err(error) => return (n, Err(error)),
        }
    }
    (n, Ok(()))
}

// Reads until the buffer is full or the input ends, and answers the bytes that were read.
pub fn fill<'a, I: Read>(input: &mut I, buffer: &'a mut [u8]) -> Result<&'a [u8], Stopped<'a>>
    ensures bound { MatchResult result (λ bytes. length bytes.now ≤ length buffer.old)
        (λ stopped. length stopped.read.now ≤ length buffer.old) }
    ensures bytes { MatchResult result (λ bytes. Consumes (I.remaining input.old) (I.remaining input.new) bytes.now)
        (λ stopped. Consumes (I.remaining input.old) (I.remaining input.new) stopped.read.now) }
    ensures end { IfOk result (λ bytes. length bytes.now < length buffer.old → IsAtEnd (I.remaining input.new)) }
{
    let (n, ended) = read_start(input, buffer);
    match ended {
        Ok(()) => Ok(&buffer[..n]),
        Err(error) => Err(Stopped {
            read: &buffer[..n],
            error,
        }),
    }
}

// The same, where what was read counts also if a read fails.
pub fn read_full<'a, I: Read>(input: &mut I, buffer: &'a mut [u8]) -> &'a [u8]
    ensures bound { length result.now ≤ length buffer.old }
    ensures bytes { Consumes (I.remaining input.old) (I.remaining input.new) result.now }
{
    fill(input, buffer).unwrap_or_else(|stopped| stopped.read)
}
