// The stages of a draft. Each takes only its own entries, and is used up by moving on; one that is left too early comes back. The tables are passed at each call.
ghost use Rattle.std.specs.Option.{ForSome};
ghost use Rattle.std.specs.Prelude.{◌≡◌, ℕ, ◌+◌, ◌<◌, ◌≤◌, Some, None, OnOk, OnErr, IfOk, IfErr, slice_set};
ghost use Rattle.drafts.specs.declared.fault.DraftFault.TheVariants.{Missing};
ghost use Rattle.drafts.specs.Faults.{faulted, or_else};
ghost use Rattle.drafts.specs.Entries.{sizes_fault};
ghost use Rattle.drafts.specs.Stages.{past, sizes_held};

use crate::entries::{Entry, check_sizes};
use crate::fault::DraftFault;
use crate::tables::Tables;
use nets::{LinkEnds, LinkTerms, Pace};
use std::marker::PhantomData;

// The entry of the first stage: how many stations and links there are, and the pace.
#[derive(Clone, Copy, Debug, PartialEq, Eq)]
pub struct NetSizes {
    pub stations: u8,
    pub links: u8,
    pub pace: Pace,
}

// A stage that is left too early comes back with the fault.
#[derive(Drop)]
pub struct Left<S> {
    pub stage: S,
    pub fault: DraftFault,
}

// The stage may be let go.
impl<S: Drop> From<Left<S>> for DraftFault {
    ghost from_gives = { λ left r. r ≡ left.fault };

    fn from(left: Left<S>) -> DraftFault {
        left.fault
    }
}

// The sizes are awaited, of which there is one entry.
#[derive(Drop)]
pub struct Sizes {
    entry: Option<NetSizes>,
    ghost few_stations: { ForSome entry (λ s. s.stations ≤ 64) },
    ghost few_links: { ForSome entry (λ s. s.links ≤ 128) },
}

// So many entries of this kind are held, and the others are awaited.
#[derive(Drop)]
pub struct Stage<E: Entry> {
    sizes: NetSizes,
    held: u8,
    entries: PhantomData<E>,
    ghost few_stations: { sizes.stations ≤ 64 },
    ghost few_links: { sizes.links ≤ 128 },
    ghost within: { held ≤ E.count sizes },
}

// A duration is awaited for each station.
pub type Durations = Stage<u16>;

// The ends are awaited of each link.
pub type Ends = Stage<LinkEnds>;

// The terms are awaited of each link.
pub type Terms = Stage<LinkTerms>;

// Nothing is awaited any more. It takes no entry, and can be loaded often. It does not hold the tables: they are large, and their owner lends them at each call.
#[derive(Clone, Copy, Debug, PartialEq, Eq)]
pub struct Filled {
    sizes: NetSizes,
}

impl Sizes {
    // A new draft.
    pub fn new() -> Sizes
        ensures { result.entry ≡ None }
    {
        Sizes { entry: None }
    }

    // Takes the sizes.
    pub fn take(&mut self, sizes: NetSizes) -> Result<(), DraftFault>
        ensures told { faulted result ≡ or_else (past 1 (sizes_held self.old.entry)) (sizes_fault sizes) }
        ensures taken { OnOk result (self.new.entry ≡ Some sizes) }
        ensures refused { OnErr result (self.new ≡ self.old) }
    {
        if self.entry.is_some() {
            return Err(DraftFault::PastSize(1));
        }
        check_sizes(sizes)?;
        self.entry = Some(sizes);
        Ok(())
    }

    // The next stage, or this one back where the sizes are missing.
    pub fn next(self) -> Result<Durations, Left<Sizes>>
        ensures complete { IfOk result (λ next. (self.entry ≡ Some next.sizes) × (next.held ≡ 0)) }
        ensures missing { IfErr result (λ left. (self.entry ≡ None) × (left.stage ≡ self) × (left.fault ≡ Missing 0)) }
    {
        let Some(sizes) = self.entry else {
            let fault = DraftFault::Missing(0);
            return Err(Left { stage: self, fault });
        };
        Ok(Stage::new(sizes))
    }
}

impl<E: Entry> Stage<E> {
    // A stage that holds nothing.
    fn new(sizes: NetSizes) -> Stage<E>
        requires stations { sizes.stations ≤ 64 }
        requires links { sizes.links ≤ 128 }
        ensures { (result.sizes ≡ sizes) × (result.held ≡ 0) }
    {
        Stage {
            sizes,
            held: 0,
            entries: PhantomData,
        }
    }

    // Takes the next entry.
    pub fn take(&mut self, tables: &mut Tables, entry: E) -> Result<(), DraftFault>
        ensures told { faulted result ≡ or_else (past (E.count self.old.sizes) self.old.held) (or_else (E.fault self.old.sizes.stations entry) (E.place_fault self.old.held entry)) }
        ensures taken { OnOk result ((self.new.sizes ≡ self.old.sizes) × (self.new.held ≡ self.old.held + 1) × (tables.new ≡ E.with_column tables.old (slice_set (E.column tables.old) self.old.held entry))) }
        ensures refused { OnErr result ((self.new ≡ self.old) × (tables.new ≡ tables.old)) }
    {
        let count = E::count(self.sizes);
        if self.held >= count {
            return Err(DraftFault::PastSize(count));
        }
        entry.check(self.sizes.stations)?;
        entry.check_place(self.held)?;
        entry.store(tables, self.held);
        self.held += 1;
        Ok(())
    }

    // The sizes where every entry is held, or this stage back where some are missing.
    fn complete(self) -> Result<NetSizes, Left<Stage<E>>>
        ensures complete { IfOk result (λ sizes. (self.held ≡ E.count self.sizes) × (sizes ≡ self.sizes)) }
        ensures missing { IfErr result (λ left. (self.held < E.count self.sizes) × (left.stage ≡ self) × (left.fault ≡ Missing self.held)) }
    {
        if self.held < E::count(self.sizes) {
            let fault = DraftFault::Missing(self.held);
            return Err(Left { stage: self, fault });
        }
        Ok(self.sizes)
    }
}

// A `next` at each kind: what they share is `complete`, and their clauses name the fields of different stages.
impl Durations {
    // The next stage, or this one back where durations are missing.
    pub fn next(self) -> Result<Ends, Left<Durations>>
        ensures complete { IfOk result (λ next. (self.held ≡ self.sizes.stations) × (next.sizes ≡ self.sizes) × (next.held ≡ 0)) }
        ensures missing { IfErr result (λ left. (self.held < self.sizes.stations) × (left.stage ≡ self) × (left.fault ≡ Missing self.held)) }
    {
        Ok(Stage::new(self.complete()?))
    }
}

impl Ends {
    // The next stage, or this one back where ends are missing.
    pub fn next(self) -> Result<Terms, Left<Ends>>
        ensures complete { IfOk result (λ next. (self.held ≡ self.sizes.links) × (next.sizes ≡ self.sizes) × (next.held ≡ 0)) }
        ensures missing { IfErr result (λ left. (self.held < self.sizes.links) × (left.stage ≡ self) × (left.fault ≡ Missing self.held)) }
    {
        Ok(Stage::new(self.complete()?))
    }
}

impl Terms {
    // The filled draft, or this stage back where terms are missing.
    pub fn next(self) -> Result<Filled, Left<Terms>>
        ensures complete { IfOk result (λ next. (self.held ≡ self.sizes.links) × (next.sizes ≡ self.sizes)) }
        ensures missing { IfErr result (λ left. (self.held < self.sizes.links) × (left.stage ≡ self) × (left.fault ≡ Missing self.held)) }
    {
        Ok(Filled {
            sizes: self.complete()?,
        })
    }
}

impl Filled {
    // Its sizes and its pace.
    pub fn sizes(&self) -> NetSizes
        ensures { result ≡ self.now.sizes }
    {
        self.sizes
    }
}
