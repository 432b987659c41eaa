// The numbers of a draft's entries, and where each has to lie.
ghost use Rattle.std.specs.Prelude.{◌≡◌, ◌-◌, ◌^◌, ◌<◌};
ghost use Rattle.drafts.specs.Faults.{judged, placed, judged_by, range_fault, station_fault, Capped};
ghost use Rattle.drafts.specs.Numbers.{fault_of};

use crate::fault::DraftFault;

// Which number of which entry it is.
#[derive(Clone, Copy, Debug, PartialEq, Eq)]
pub enum Number {
    // How many stations a net has, and how many links.
    Stations,
    Links,
    // Ticks for one share, and for one time unit.
    Share,
    Unit,
    // A duration in time units.
    Duration,
    // A station that a link leads from or to, by its place in the entry, of so many stations.
    Station(u8, u8),
    // Parts that arrive on a link at a time, or leave it, by their place in the entry.
    Batch(u8),
    // Parts on a link at first, and parts that it has room for.
    Stock,
    Capacity,
}

impl Number {
    // The value, where it is in range; else the draft's fault, which tells the number's place in its entry. The largest `u64` may stand for all above it.
    #[inline(always)]
    pub fn judge(self, value: u64) -> Result<u64, DraftFault>
        ensures judged { result ≡ judged_by (fault_of self value) value }
        ensures capped { Capped (fault_of self) }
    {
        match self {
            Number::Stations => within(1, 1, 64, value),
            Number::Links => within(2, 0, 128, value),
            Number::Share => within(3, 1, 1_000_000, value),
            Number::Unit => within(4, 1, 10_000_000_000, value),
            Number::Duration => within(1, 1, 10_000, value),
            Number::Station(which, stations) => below(which, stations, value),
            Number::Batch(which) => within(which, 1, 1_000, value),
            Number::Stock => within(3, 0, 10_000, value),
            Number::Capacity => within(4, 0, 10_000, value),
        }
    }
}

// From low to high.
fn within(which: u8, low: u64, high: u64, value: u64) -> Result<u64, DraftFault>
    requires { high < 2 ^ 64 - 1 }
    ensures answer { result ≡ judged which low high value }
    ensures capped { Capped (range_fault which low high) }
{
    if value < low || value > high {
        return Err(DraftFault::Range(which));
    }
    Ok(value)
}

// One of so many, counted from 0.
fn below(which: u8, count: u8, value: u64) -> Result<u64, DraftFault>
    ensures answer { result ≡ placed which count value }
    ensures capped { Capped (station_fault which count) }
{
    if value >= u64::from(count) {
        return Err(DraftFault::Range(which));
    }
    Ok(value)
}
