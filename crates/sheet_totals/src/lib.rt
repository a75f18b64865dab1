// The readings counted, by what is seen of them and by whether the screen differs.
#![tactic(auto)]

ghost use Rattle.std.specs.Prelude.{◌≡◌};
ghost use Rattle.sheet_totals.specs.Totals.{tallied, Few};

use sight::Sight;

// How many readings are seen whole, in part and not at all on the framebuffer, how many were refused, and after how many of all
// the screen differs.
#[derive(Clone, Copy, Debug, Default, PartialEq, Eq)]
pub struct Totals {
    pub whole: usize,
    pub part: usize,
    pub unseen: usize,
    pub refused: usize,
    pub differing: usize,
}

impl Totals {
    // One reading more, seen or refused; the screen after it differs in so many pixels.
    pub fn counted(mut self, sight: Option<Sight>, differing: usize) -> Totals
        requires { Few self }
        ensures { result ≡ tallied self sight differing }
    {
        match sight {
            Some(Sight::Whole) => self.whole += 1,
            Some(Sight::Part) => self.part += 1,
            Some(Sight::Unseen) => self.unseen += 1,
            None => self.refused += 1,
        }
        self.differing += usize::from(differing != 0);
        self
    }
}
