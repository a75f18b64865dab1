// A font file is read whole or not at all.
#![tactic(auto)]

ghost use Rattle.std.specs.Prelude.{◌≡◌, ◌<◌, length, IfOk};
ghost use Rattle.font_file.specs.declared.FontFileError.TheVariants.{Unreadable};

use printing::RefusalLine;
use std::fmt::{Display, Formatter};
use std::rt::Files;
use std::{fmt, io};
use system::{Stopped, open_read};
use types::error::Error;

// Why there is no font.
#[derive(Clone, Copy, Debug)]
pub enum FontFileError {
    // the file cannot be opened, or reading it fails
    Unreadable(io::Error),
    // it fills the buffer, and may go on
    TooLong,
}

// The system's words, or the line of a call that refuses the font.
impl Display for FontFileError {
    fn fmt<W: fmt::Write>(&self, f: &mut Formatter<W>) -> fmt::Result {
        match self {
            FontFileError::Unreadable(cause) => write!(f, "{cause}"),
            FontFileError::TooLong => write!(f, "{}", RefusalLine(Error::FontLength)),
        }
    }
}

impl std::error::Error for FontFileError {}

impl From<io::Error> for FontFileError {
    ghost from_gives = { λ error result. result ≡ Unreadable error };

    fn from(error: io::Error) -> FontFileError {
        FontFileError::Unreadable(error)
    }
}

impl From<Stopped<'_>> for FontFileError {
    ghost from_gives = { λ stopped result. result ≡ Unreadable stopped.error };

    fn from(stopped: Stopped<'_>) -> FontFileError {
        FontFileError::Unreadable(stopped.error)
    }
}

// Says why there is no font: of a file that cannot be read on standard error, and of a longer one where the calls' answers stand.
pub fn report<R: Print + Eprint + Alloc>(rt: &R, path: &[u8], error: FontFileError) {
    match error {
        FontFileError::Unreadable(cause) => system::fail(rt, path, cause),
        FontFileError::TooLong => {
            let _ = println!(rt; "{error}");
        }
    }
}

// Room for the longest font that the calls take, 1,048,576 bytes, and one byte more, which only a longer file fills.
pub fn buffer() -> [u8; 1_048_577]
    ensures { 1048577 ≡ length result }
{
    [0; 1_048_577]
}

// Reads the file of that name into the buffer, and answers the font's bytes.
pub fn read<'a, R: Files>(
    rt: &R,
    path: &[u8],
    buffer: &'a mut [u8],
) -> Result<&'a [u8], FontFileError>
    ensures { IfOk result (λ font. length font.now < length buffer.old) }
{
    let room = buffer.len();
    let mut file = open_read(rt, path)?;
    let font = system::fill(&mut file, buffer)?;
    if font.len() == room {
        return Err(FontFileError::TooLong);
    }
    Ok(font)
}
