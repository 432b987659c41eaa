ghost use Rattle.std.specs.Prelude.{◌≡◌};
ghost use Rattle.drafts.specs.Stages.{blank};
ghost use Rattle.drafts.specs.Checks.{WholeTables};

use nets::{LinkEnds, LinkTerms};

// Where a draft's entries stand; lent to its stages at each call. A link's ends and its terms come in two stages, so each has a column of its own.
// The columns are arrays, so that tables are `Copy`; how many entries they hold stands in the stage.
#[derive(Clone, Copy, Debug, PartialEq, Eq)]
pub struct Tables {
    pub durations: [u16; 64],
    pub ends: [LinkEnds; 128],
    pub terms: [LinkTerms; 128],
}

impl Tables {
    // Tables that hold nothing yet.
    pub fn new() -> Tables
        ensures { result ≡ blank }
    {
        let ends = LinkEnds { from: 0, to: 0 };
        let terms = LinkTerms {
            produced: 0,
            consumed: 0,
            stock: 0,
            capacity: None,
        };
        Tables {
            durations: [0; 64],
            ends: [ends; 128],
            terms: [terms; 128],
        }
    }

    // The columns have their lengths. Contracts see tables as lists, and learn it here.
    pub fn whole(&self)
        ensures { WholeTables self.now }
    {}
}
