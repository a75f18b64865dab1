// The steps of a text's lookups, added up (SPECIFICATION, Lookup).
#![tactic(auto)]

ghost use Rattle.std.specs.Prelude.{◌≡◌, eqb};
ghost use Rattle.integers.specs.Integers.{pick};
ghost use Rattle.definitions.specs.Refusals.{error_number};
ghost use Rattle.definitions.specs.Lookup.{no_steps};
ghost use Rattle.definitions.specs.Sums.{plus_steps, Fits32};
ghost use Rattle.lookup_sums.specs.Reports.{stopped_report, refused_report, box_report};

use types::error::Error;
use types::geometry::{Rectangle, RenderedDimensions};
use types::results::Report;
use types::steps::LookupSteps;

pub fn add_steps(sum: LookupSteps, steps: LookupSteps) -> LookupSteps
    requires { Fits32 (plus_steps sum steps) }
    ensures { result ≡ plus_steps sum steps }
{
    LookupSteps {
        records: sum.records + steps.records,
        entries: sum.entries + steps.entries,
    }
}

// What is left of the sum where a character stops the text: all of it with 7, and nothing with 8.
pub fn sum_with(error: Error, sum: LookupSteps) -> LookupSteps
    ensures { result ≡ pick (eqb (error_number error) 7) sum no_steps }
{
    match error {
        Error::GlyphNotFound(_) => sum,
        _ => LookupSteps::default(),
    }
}

// The report of a text that a character stops, whose sum so far has the steps of that character too.
pub fn stopped(error: Error, sum: LookupSteps) -> Report<RenderedDimensions>
    ensures { result ≡ stopped_report error sum }
{
    Report {
        result: Err(error),
        steps: sum_with(error, sum),
    }
}

// The report of a call that is refused before its first character.
pub fn refused(error: Error) -> Report<RenderedDimensions>
    ensures { result ≡ refused_report error }
{
    Report {
        result: Err(error),
        steps: LookupSteps::default(),
    }
}

// The report of an aligned call, which answers with the box alone.
pub fn box_alone(report: Report<RenderedDimensions>) -> Report<Option<Rectangle>>
    ensures { result ≡ box_report report }
{
    Report {
        result: report.result.map(|dimensions| dimensions.bounding_box),
        steps: report.steps,
    }
}
