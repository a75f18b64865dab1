// What the sheet's program prints: the readings that are refused or differ, the totals, and the verdict.
#![tactic(auto)]

use printing::Cause;
use sheet_ground::texts::{COUNT, reading_text};
use sheet_totals::Totals;
use std::fmt;
use types::error::Error;
use types::geometry::RenderedDimensions;

// Readings one after the other that are refused for one cause, the first and the last of them.
#[derive(Clone, Copy, Debug, PartialEq, Eq)]
pub struct Refusals {
    pub first: usize,
    pub last: usize,
    pub error: Error,
}

impl fmt::Display for Refusals {
    fn fmt<W: fmt::Write>(&self, f: &mut fmt::Formatter<W>) -> fmt::Result {
        write!(f, "{}", reading_text(self.first))?;
        if self.first != self.last {
            write!(f, " to {}", reading_text(self.last))?;
        }
        write!(f, ": refused: {}", Cause(self.error))
    }
}

// One line for all of them.
pub fn print_refusals<R: Print>(rt: &R, refusals: Option<Refusals>) {
    if let Some(refusals) = refusals {
        let _ = println!(rt; "{refusals}");
    }
}

// The next reading: it may end the refusals so far, or be one more of them.
pub fn with_answer<R: Print>(
    rt: &R,
    refusals: Option<Refusals>,
    k: usize,
    answer: Result<RenderedDimensions, Error>,
) -> Option<Refusals> {
    match (refusals, answer) {
        (Some(before), Err(error)) if before.error == error => {
            Some(Refusals { last: k, ..before })
        }
        _ => {
            print_refusals(rt, refusals);
            answer.err().map(|error| Refusals {
                first: k,
                last: k,
                error,
            })
        }
    }
}

pub fn print_difference<R: Print>(rt: &R, k: usize, differing: usize) {
    let reading = reading_text(k);
    let _ = match differing {
        0 => Ok(()),
        1 => println!(rt; "{reading}: 1 pixel differs"),
        _ => println!(rt; "{reading}: {differing} pixels differ"),
    };
}

pub fn print_totals<R: Print>(rt: &R, totals: Totals) {
    let Totals {
        whole,
        part,
        unseen,
        refused,
        differing,
    } = totals;
    let _ = print!(rt;
        "{COUNT} readings: {whole} seen whole, {part} in part, {unseen} not at all, "
    );
    let _ = println!(rt; "{refused} refused; {differing} with a difference");
}

// Every reading is to be seen whole, and none is to differ.
fn is_well(totals: Totals) -> bool {
    totals.whole == COUNT && totals.differing == 0
}

// The last line, by which a script tells how the sheet ended.
pub fn print_verdict<R: Print>(rt: &R, totals: Totals, written: bool) {
    let verdict = if !written {
        "the pictures cannot be written"
    } else if is_well(totals) {
        "all is well"
    } else {
        "not all is well"
    };
    let _ = println!(rt; "{verdict}");
}
