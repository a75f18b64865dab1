// Files by their names, which are bytes: std opens a file by a name that is UTF-8.
ghost use Rattle.std.specs.Prelude.{◌≡◌, IsUtf8, IsErr, IsNone, IsOkAnd};

use crate::fail;
use std::fs::File;
use std::io::{Error, ErrorKind, Result};
use std::rt::Files;
use std::str;

fn name_of(path: &[u8]) -> Result<&str>
    ensures utf8 { IsUtf8 path.now → IsOkAnd result (λ name. name.now ≡ path.now) }
    ensures not_utf8 { ¬ (IsUtf8 path.now) → IsErr result }
{
    str::from_utf8(path).map_err(|_| Error::from(ErrorKind::InvalidInput))
}

// Of a file that was opened no contract can say which it is: std's own has none.
pub fn open_read<R: Files>(rt: &R, path: &[u8]) -> Result<R::File>
    ensures { ¬ (IsUtf8 path.now) → IsErr result }
{
    File::open(rt, name_of(path)?)
}

// The file, opened; where that fails, `fail` has said why, and there is none.
pub fn opened<R: Files + Eprint + Alloc>(rt: &R, path: &[u8]) -> Option<R::File>
    ensures { ¬ (IsUtf8 path.now) → IsNone result }
{
    open_read(rt, path)
        .map_err(|error| fail(rt, path, error))
        .ok()
}

// Creates the file, or empties it if it is there. Both are one call of std; a closure that says which would be no plainer.
pub fn open_overwrite<R: Files>(rt: &R, path: &[u8]) -> Result<R::File>
    ensures { ¬ (IsUtf8 path.now) → IsErr result }
{
    File::create(rt, name_of(path)?)
}
