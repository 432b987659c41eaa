// The entries of a draft, and the checks of one by itself, number after number.
ghost use Rattle.std.specs.Prelude.{◌≡◌, ℕ, List, None, Option, slice_set, refl};
ghost use Rattle.drafts.specs.declared.stage.NetSizes.{NetSizes};
ghost use Rattle.drafts.specs.declared.tables.Tables.{Tables};
ghost use Rattle.drafts.specs.declared.fault.DraftFault.{DraftFault};
ghost use Rattle.drafts.specs.Faults.{faulted};
ghost use Rattle.drafts.specs.Entries.{sizes_fault, duration_fault, ends_fault, terms_fault, room_fault, IsColumn};

use crate::fault::DraftFault;
use crate::numbers::Number;
use crate::stage::NetSizes;
use crate::tables::Tables;
use nets::{LinkEnds, LinkTerms};

pub(crate) fn check_sizes(sizes: NetSizes) -> Result<(), DraftFault>
    ensures { faulted result ≡ sizes_fault sizes }
{
    let NetSizes {
        stations,
        links,
        pace,
    } = sizes;
    Number::Stations.judge(u64::from(stations))?;
    Number::Links.judge(u64::from(links))?;
    Number::Share.judge(u64::from(pace.share))?;
    Number::Unit.judge(pace.unit)?;
    Ok(())
}

// An entry of which there is one for each station or each link. The tables have a column for each kind.
pub trait Entry: Copy {
    // How many entries the sizes ask for.
    ghost count: { NetSizes → ℕ };

    // Its fault by itself, where there are so many stations, and its fault at its place.
    ghost fault: { ℕ → Self → Option DraftFault };

    ghost place_fault: { ℕ → Self → Option DraftFault };

    // Where the entries stand, and the tables with others there.
    ghost column: { Tables → List Self };

    ghost with_column: { Tables → List Self → Tables };

    // How many entries of the kind there are.
    fn count(sizes: NetSizes) -> u8
        ensures { result ≡ count sizes };

    // That its numbers are in range, where there are so many stations.
    fn check(self, stations: u8) -> Result<(), DraftFault>
        ensures { faulted result ≡ fault stations self };

    // That it can stand at its place: a capacity below its stock is told with its link.
    fn check_place(self, place: u8) -> Result<(), DraftFault>
        ensures { faulted result ≡ place_fault place self };

    // Puts the entry in its place, if the column has that one; a stage never asks for another. Written at each kind, since a column that is lent
    // would say less plainly what becomes of the tables.
    fn store(self, tables: &mut Tables, place: u8)
        ensures { tables.new ≡ with_column tables.old (slice_set (column tables.old) place self) };

    ghost apart: { IsColumn column with_column };
}

// A station's duration.
impl Entry for u16 {
    ghost count = { λ s. s.stations };

    ghost fault = { λ n d. duration_fault d };

    ghost place_fault = { λ i d. None };

    ghost column = { λ t. t.durations };

    ghost with_column = { λ t xs. record { durations = xs; ends = t.ends; terms = t.terms } };

    ghost apart = { record { got = λ t xs. refl; last = λ t xs ys. refl; own = λ t. refl } };

    fn count(sizes: NetSizes) -> u8 {
        sizes.stations
    }

    fn check(self, _stations: u8) -> Result<(), DraftFault> {
        Number::Duration.judge(u64::from(self))?;
        Ok(())
    }

    fn check_place(self, _place: u8) -> Result<(), DraftFault> {
        Ok(())
    }

    fn store(self, tables: &mut Tables, place: u8) {
        let place = place as usize;
        if place < tables.durations.len() {
            tables.durations[place] = self;
        }
    }
}

impl Entry for LinkEnds {
    ghost count = { λ s. s.links };

    ghost fault = { ends_fault };

    ghost place_fault = { λ i e. None };

    ghost column = { λ t. t.ends };

    ghost with_column = { λ t xs. record { durations = t.durations; ends = xs; terms = t.terms } };

    ghost apart = { record { got = λ t xs. refl; last = λ t xs ys. refl; own = λ t. refl } };

    fn count(sizes: NetSizes) -> u8 {
        sizes.links
    }

    fn check(self, stations: u8) -> Result<(), DraftFault> {
        Number::Station(1, stations).judge(u64::from(self.from))?;
        Number::Station(2, stations).judge(u64::from(self.to))?;
        Ok(())
    }

    fn check_place(self, _place: u8) -> Result<(), DraftFault> {
        Ok(())
    }

    fn store(self, tables: &mut Tables, place: u8) {
        let place = place as usize;
        if place < tables.ends.len() {
            tables.ends[place] = self;
        }
    }
}

impl Entry for LinkTerms {
    ghost count = { λ s. s.links };

    ghost fault = { λ n t. terms_fault t };

    ghost place_fault = { room_fault };

    ghost column = { λ t. t.terms };

    ghost with_column = { λ t xs. record { durations = t.durations; ends = t.ends; terms = xs } };

    ghost apart = { record { got = λ t xs. refl; last = λ t xs ys. refl; own = λ t. refl } };

    fn count(sizes: NetSizes) -> u8 {
        sizes.links
    }

    fn check(self, _stations: u8) -> Result<(), DraftFault> {
        Number::Batch(1).judge(u64::from(self.produced))?;
        Number::Batch(2).judge(u64::from(self.consumed))?;
        Number::Stock.judge(u64::from(self.stock))?;
        if let Some(c) = self.capacity {
            Number::Capacity.judge(u64::from(c))?;
        }
        Ok(())
    }

    // The capacity of the link is not below its stock.
    fn check_place(self, place: u8) -> Result<(), DraftFault> {
        match self.capacity {
            Some(c) if c < self.stock => Err(DraftFault::Capacity(place)),
            _ => Ok(()),
        }
    }

    fn store(self, tables: &mut Tables, place: u8) {
        let place = place as usize;
        if place < tables.terms.len() {
            tables.terms[place] = self;
        }
    }
}
