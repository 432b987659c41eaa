// A filled draft checked once more, entry after entry, and its net.
ghost use Rattle.std.specs.Prelude.{◌≡◌, ℕ, ◌≤◌, length, None, slice_index_or};
ghost use Rattle.drafts.specs.Faults.{faulted};
ghost use Rattle.drafts.specs.Checks.{first_fault, rooms_fault, entry_slot, WholeTables, Checks};

use crate::entries::{Entry, check_sizes};
use crate::fault::DraftFault;
use crate::stage::{Filled, NetSizes};
use crate::tables::Tables;
use nets::checked::CheckedNet;
use nets::{Link, LinkTerms, Net};

// That no entry has a fault by itself.
fn check_each<E: Entry>(stations: u8, entries: &[E]) -> Result<(), DraftFault>
    ensures { faulted result ≡ first_fault (λ k e. E.fault stations e) 0 entries.now }
{
    for e in entries {
        e.check(stations)?;
    }
    Ok(())
}

// That no capacity is below its stock.
fn check_rooms(terms: &[LinkTerms]) -> Result<(), DraftFault>
    requires { length terms.now ≤ 128 }
    ensures { faulted result ≡ rooms_fault terms.now }
{
    for (k, t) in terms.iter().enumerate() {
        t.check_place(k as u8)?;
    }
    Ok(())
}

// The links of a draft, by number. A loop over those that there are: `array::from_fn` would ask for all 128 each time.
fn draft_links(links: u8, tables: &Tables) -> [Option<Link>; 128]
    requires { links ≤ 128 }
    ensures many { length result ≡ 128 }
    ensures each { (k : ℕ) → slice_index_or result k None ≡ entry_slot links tables.now.ends tables.now.terms k }
{
    let mut slots = [None; 128];
    for k in 0..links as usize {
        slots[k] = Some(Link {
            ends: tables.ends[k],
            terms: tables.terms[k],
        });
    }
    slots
}

fn check_entries(sizes: NetSizes, tables: &Tables) -> Result<CheckedNet, DraftFault>
    ensures checks { Checks sizes tables.now result }
    ensures whole { WholeTables tables.now }
{
    let stations = sizes.stations as usize;
    let links = sizes.links as usize;
    check_sizes(sizes)?;
    check_each(sizes.stations, &tables.durations[..stations])?;
    check_each(sizes.stations, &tables.ends[..links])?;
    check_each(sizes.stations, &tables.terms[..links])?;
    check_rooms(&tables.terms[..links])?;
    let net = Net {
        stations: sizes.stations,
        durations: tables.durations,
        rates: [0; 64],
        links: draft_links(sizes.links, tables),
        pace: sizes.pace,
    };
    Ok(CheckedNet { net })
}

// The net of a filled draft, or the first fault of its entries: a number out of range, in the order of the stages, and then a capacity below its stock.
pub fn check(filled: &Filled, tables: &Tables) -> Result<CheckedNet, DraftFault>
    ensures checks { Checks filled.now.sizes tables.now result }
    ensures whole { WholeTables tables.now }
{
    check_entries(filled.sizes(), tables)
}
