ghost use Rattle.std.specs.Prelude.{◌≡◌, Some};
ghost use Rattle.checks.specs.Faults.{told_of};

use nets::Notice;

// Why a change or a question is refused, by its numbers and the board's links.
#[derive(Clone, Copy, Debug, PartialEq, Eq)]
pub enum CallFault {
    // The call's number of this place, counted from 1, is out of range.
    Range(u8),
    // The capacity of this link would be below its stock.
    Capacity(u8),
    // The rates do not balance this link.
    Unbalanced(u8),
    // This link number is open.
    InUse(u8),
    // This link number is not open.
    NotOpen(u8),
}

impl CallFault {
    // The refusal's number, and the place that it tells.
    pub fn told(&self) -> Notice
        ensures { result ≡ record { number = (told_of self.now).0; place = Some (told_of self.now).1 } }
    {
        let (number, place) = match *self {
            CallFault::Range(which) => (2, which),
            CallFault::Capacity(link) => (5, link),
            CallFault::Unbalanced(link) => (12, link),
            CallFault::InUse(link) => (13, link),
            CallFault::NotOpen(link) => (14, link),
        };
        Notice::at(number, u64::from(place))
    }
}
