ghost use Rattle.std.specs.Prelude.{◌≡◌};
ghost use Rattle.offers.specs.Refusals.{told_of};
ghost use Rattle.offers.specs.declared.refusal.Refusal.TheVariants.{Draft, Call};
ghost use Rattle.offers.specs.Refusals.{of_rates};

use checks::fault::CallFault;
use drafts::fault::DraftFault;
use nets::Notice;
use rates::RateFault;

// Why a net or a change is not taken, or a question not answered.
#[derive(Clone, Copy, Debug, PartialEq, Eq)]
pub enum Refusal {
    // The list for the steps of a circuit is under 64; it has this length.
    ShortList(usize),
    // An entry of the draft is at fault.
    Draft(DraftFault),
    // A change or a question is at fault.
    Call(CallFault),
    // Links do not lead to this station, the lowest such.
    CutOff(u8),
    // The net has no rates.
    NoRates,
    // The net has no timetable at its pace; a circuit of so many steps stands at the front of the list that the caller handed in.
    NoTimetable(usize),
    // No pace has a timetable.
    NoPace,
}

impl Refusal {
    // The refusal's number, and the place that it tells, if any: of a circuit the count of its steps.
    pub fn told(&self) -> Notice
        ensures { result ≡ record { number = (told_of self.now).0; place = (told_of self.now).1 } }
    {
        match *self {
            Refusal::ShortList(length) => Notice::at(6, length as u64),
            Refusal::Draft(fault) => fault.told(),
            Refusal::Call(fault) => fault.told(),
            Refusal::CutOff(station) => Notice::at(10, station as u64),
            Refusal::NoRates => Notice::bare(11),
            Refusal::NoTimetable(steps) => Notice::at(20, steps as u64),
            Refusal::NoPace => Notice::bare(21),
        }
    }
}

// By hand, here and below: contracts need to know which refusal a `?` makes, and a derived `From` has no contract.
impl From<DraftFault> for Refusal {
    ghost from_gives = { λ f r. r ≡ Draft f };

    fn from(fault: DraftFault) -> Refusal {
        Refusal::Draft(fault)
    }
}

impl From<CallFault> for Refusal {
    ghost from_gives = { λ f r. r ≡ Call f };

    fn from(fault: CallFault) -> Refusal {
        Refusal::Call(fault)
    }
}

impl From<RateFault> for Refusal {
    ghost from_gives = { λ f r. r ≡ of_rates f };

    fn from(fault: RateFault) -> Refusal {
        match fault {
            RateFault::CutOff(station) => Refusal::CutOff(station),
            RateFault::NoRates => Refusal::NoRates,
        }
    }
}
