// The text of a net: four lines for its sizes and pace, its durations, its links' ends, and their terms. `read` fills a draft from it.
#![tactic(auto)]

ghost use Rattle.std.specs.Prelude.{◌≡◌, ℕ, IfOk, IfErr, OnErr};
ghost use Rattle.drafts.specs.declared.fault.DraftFault.{DraftFault};
ghost use Rattle.drafts.specs.Stages.{blank};
ghost use Rattle.forms.specs.Form as found;
ghost use Rattle.texts.specs.Faults.{Worded};
ghost use Rattle.texts.specs.NetText.{Entries, Text, Refused, Broken, Right};
ghost use Rattle.texts.specs.Examples.{Worked};
ghost use Rattle.texts.specs.Outcomes.{outcome, BlankBehind, Fills};

pub mod fault;
mod lexer;
mod reader;

use crate::fault::TextFault;
use crate::reader::Reader;
use drafts::stage::{Filled, Sizes};
use drafts::tables::Tables;

// Reads a net text into the tables. They change only where the whole text is read, and hold then its entries and nothing else.
pub fn read<'a>(text: &'a [u8], tables: &mut Tables) -> Result<Filled, TextFault<'a>>
    ensures right { Right text.now (outcome result tables.new) }
    ensures reads { (e : Entries) → Text text.now e → outcome result tables.new ≡ found.got e }
    ensures refuses { (f : DraftFault) (p : ℕ) → Refused text.now f p → outcome result tables.new ≡ found.refused f p }
    ensures breaks { (p : ℕ) → Broken text.now p → outcome result tables.new ≡ found.broken p }
    ensures word { IfErr result (λ e. Worded text.now e) }
    ensures unchanged { OnErr result (tables.new ≡ tables.old) }
    ensures behind { IfOk result (λ f. BlankBehind f.sizes tables.new) }
{
    let mut scratch = Tables::new();
    let filled = fill(text, &mut scratch)?;
    *tables = scratch;
    Ok(filled)
}

// Reads a net text into blank tables, through the stages of a draft.
fn fill<'a>(text: &'a [u8], tables: &mut Tables) -> Result<Filled, TextFault<'a>>
    requires { tables.old ≡ blank }
    ensures { Fills text.now result tables.new }
{
    let mut reader = Reader::new(text);
    let mut sizes = Sizes::new();
    let counts = reader.sizes(&mut sizes)?;
    let mut durations = reader.moved(sizes.next())?;
    reader.line(b"dur", counts, &mut durations, tables)?;
    let mut ends = reader.moved(durations.next())?;
    reader.line(b"ends", counts, &mut ends, tables)?;
    let mut terms = reader.moved(ends.next())?;
    reader.line(b"terms", counts, &mut terms, tables)?;
    let filled = reader.moved(terms.next())?;
    reader.end()?;
    Ok(filled)
}

// What the definitions say of some texts.
pub fn worked()
    ensures { Worked }
{}
