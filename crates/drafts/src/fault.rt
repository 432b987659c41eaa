ghost use Rattle.std.specs.Prelude.{◌≡◌};
ghost use Rattle.drafts.specs.Faults.{told_of};

use nets::Notice;

// Why a draft refuses an entry, or refuses to move on.
#[derive(Clone, Copy, Debug, PartialEq, Eq)]
pub enum DraftFault {
    // The entry's number of this place, counted from 1, is out of range.
    Range(u8),
    // Entries are missing; so many are held.
    Missing(u8),
    // The entry is past the size, which is this.
    PastSize(u8),
    // The capacity of this link is below its stock.
    Capacity(u8),
}

impl DraftFault {
    // The refusal's number, and the place that it tells.
    pub fn told(&self) -> Notice
        ensures { result ≡ record { number = (told_of self.now).0; place = Some (told_of self.now).1 } }
    {
        let (number, place) = match *self {
            DraftFault::Range(which) => (2, which),
            DraftFault::Missing(held) => (3, held),
            DraftFault::PastSize(size) => (4, size),
            DraftFault::Capacity(link) => (5, link),
        };
        Notice::at(number, u64::from(place))
    }
}
