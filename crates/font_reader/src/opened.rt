// A font that is open.
ghost use Rattle.definitions.specs.Header.{Opened};

use crate::new_from_raw_data;
use types::error::Error;
use types::font_reader::FontReader;

// A font's bytes, to which neither cause 1 nor cause 2 applies, and the header that was read from them.
#[derive(Clone, Copy, Debug, PartialEq, Eq)]
pub struct OpenedFont<'a> {
    pub bytes: &'a [u8],
    pub head: FontReader,
    ghost opened: { Opened bytes.now head },
}

impl<'a> OpenedFont<'a> {
    ghost use Rattle.font_reader.specs.Opens.{Opens};

    // Opens a font, or cause 1 or 2.
    pub fn open(bytes: &'a [u8]) -> Result<OpenedFont<'a>, Error>
        ensures { Opens bytes.now result }
    {
        let head = new_from_raw_data(bytes)?;
        Ok(OpenedFont { bytes, head })
    }
}
