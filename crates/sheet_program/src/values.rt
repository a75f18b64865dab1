// What a sheet came to. There is no code here.
use sheet_totals::Totals;
use std::io::Result;

// The totals, and whether all pictures were written.
#[derive(Clone, Copy, Debug)]
pub struct Sheet {
    pub totals: Totals,
    pub written: Result<()>,
}
