// What is found of a step. There is no code here.
use types::error::Error;
use types::geometry::RenderedDimensions;

// What is found of one step: its answer, the number of the reading that the next step is to clear, if there is one, and how many
// pixels of the screen are not what it is to show.
#[derive(Clone, Copy, Debug, PartialEq, Eq)]
pub struct Found {
    pub answer: Result<RenderedDimensions, Error>,
    pub old: Option<usize>,
    pub differing: usize,
}
