// A net as programs hold it: stations with durations and rates, links by number, and the pace. Plain values; what is known of them is said by the types above.

#![tactic(auto)]

ghost use Rattle.std.specs.Prelude.{◌≡◌, Some, None};
ghost use Rattle.nets.specs.declared.Step.TheVariants.{Forward};

use std::fmt;

pub mod checked;
pub mod circuit;
pub mod sound;
pub mod timed;

// The stations that a link leads from and to.
#[derive(Clone, Copy, Debug, PartialEq, Eq)]
pub struct LinkEnds {
    pub from: u8,
    pub to: u8,
}

// When a firing of `from` ends, `produced` parts arrive on the link; when a firing of `to` begins, `consumed` parts leave it.
// At tick 0 it holds `stock` parts. Without a capacity it has room for any number.
#[derive(Clone, Copy, Debug, PartialEq, Eq)]
pub struct LinkTerms {
    pub produced: u16,
    pub consumed: u16,
    pub stock: u16,
    pub capacity: Option<u16>,
}

#[derive(Clone, Copy, Debug, PartialEq, Eq)]
pub struct Link {
    pub ends: LinkEnds,
    pub terms: LinkTerms,
}

// A share lasts `share` ticks and a time unit `unit` ticks, so share / unit is the number of time units for one share.
#[derive(Clone, Copy, Debug, PartialEq, Eq)]
pub struct Pace {
    pub share: u32,
    pub unit: u64,
}

// The first `stations` durations and rates are the net's. A link number is open where a link stands under it.
// Tables with the number of stations beside: a net is Copy, copied whole for each pace, and has no rates until it is rated.
#[derive(Clone, Copy, Debug, PartialEq, Eq)]
pub struct Net {
    pub stations: u8,
    pub durations: [u16; 64],
    pub rates: [u16; 64],
    pub links: [Option<Link>; 128],
    pub pace: Pace,
}

// A link's step forward or back, by the link's number, or a station's own step, by the station's.
#[derive(Clone, Copy, Debug, PartialEq, Eq)]
pub enum Step {
    Forward(u8),
    Back(u8),
    Own(u8),
}

// What fills the unused places of a list of steps. By hand, since a derive takes a variant with no field alone.
impl Default for Step {
    ghost is_default = { λ s. s ≡ Forward 0 };

    fn default() -> Step {
        Step::Forward(0)
    }
}

// A step of a circuit, with its length in ticks.
#[derive(Clone, Copy, Debug, Default, PartialEq, Eq)]
pub struct CircuitStep {
    pub step: Step,
    pub length: i64,
}

// What is told of a refusal: its number, and its place, if it tells one.
#[derive(Clone, Copy, Debug, PartialEq, Eq)]
pub struct Notice {
    pub number: u8,
    pub place: Option<u64>,
}

impl Notice {
    // A notice that tells a place.
    pub fn at(number: u8, place: u64) -> Notice
        ensures { result ≡ record { number = number; place = Some place } }
    {
        Notice {
            number,
            place: Some(place),
        }
    }

    // One that tells none.
    pub fn bare(number: u8) -> Notice
        ensures { result ≡ record { number = number; place = None } }
    {
        Notice {
            number,
            place: None,
        }
    }
}

// For programs to print. A report has these words by a contract of its own.
impl fmt::Display for Notice {
    fn fmt<W: fmt::Write>(&self, f: &mut fmt::Formatter<W>) -> fmt::Result {
        match self.place {
            Some(place) => write!(f, "refused {} {place}", self.number),
            None => write!(f, "refused {}", self.number),
        }
    }
}
