// The words of the command line. They need no memory: a word has a buffer of its own.
ghost use Rattle.std.specs.Prelude.{◌≡◌, ◌+◌, ◌-◌, ◌^◌, MatchOption};
ghost use Rattle.std.specs.Iterator.{at_most};

use numbers::text::Text;
use std::env::{Env, FillError};

// A word; one that is longer has no bytes.
pub type Word = Text<4096>;

// The arguments behind the program's own name.
#[derive(Drop)]
pub struct Args<'a, R: Env> {
    rt: &'a R,
    next: usize,
}

pub fn arguments<R: Env>(rt: &R) -> Args<'_, R>
    ensures { result.next ≡ 1 }
{
    Args { rt, next: 1 }
}

impl<R: Env> Iterator for Args<'_, R> {
    type Item = Word;

    // each word once
    ghost next_gives = { λ s word t. MatchOption word (t.next ≡ s.next) (λ _. t.next ≡ s.next + 1) };

    ghost remaining = { λ s. at_most (2 ^ 64 - s.next) };

    fn next(&mut self) -> Option<Word> {
        if self.next == usize::MAX {
            return None;
        }
        let mut bytes = [0u8; 4096];
        let length = match self.rt.arg(self.next, &mut bytes) {
            Ok(length) => length,
            Err(FillError::TooLong) => 0,
            Err(FillError::NotPresent) => return None,
        };
        self.next += 1;
        Some(Word::of_buffer(bytes, length))
    }
}
