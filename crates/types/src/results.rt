// What the calls answer on a text: a value, or the refusal, and the steps of the text's lookups beside either.
use crate::error::Error;
use crate::steps::LookupSteps;

#[derive(Clone, Copy, Debug, PartialEq, Eq)]
pub struct Report<T> {
    pub result: Result<T, Error>,
    pub steps: LookupSteps,
}
