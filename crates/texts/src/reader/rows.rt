// The entries that stand in a line of the text, one after the other. A cast of a number that the draft has judged loses nothing.
ghost use Rattle.std.specs.Prelude.{ℕ};
ghost use Rattle.texts.specs.NetForm.{NetForm, duration_entry, ends_entry, terms_entry};
ghost use Rattle.texts.specs.Rows.{ReadsEntry};

use crate::fault::TextFault;
use crate::lexer::Mark;
use crate::reader::Reader;
use drafts::entries::Entry;
use drafts::numbers::Number;
use nets::{LinkEnds, LinkTerms};

// An entry of a draft, as it stands in a text.
pub(crate) trait Row: Entry {
    // Its form, by how many stations there are and how many entries stand before it.
    ghost form: { ℕ → ℕ → (Self → NetForm) → NetForm };

    // Reads an entry whose numbers are in range, and tells where the last of them begins.
    fn read<'a>(reader: &mut Reader<'a>, stations: u8) -> Result<(Self, usize), TextFault<'a>>
        ensures { ReadsEntry (form stations) (Self.Entry.fault stations) Self.Entry.place_fault reader.old result reader.new };
}

impl Row for u16 {
    ghost form = { λ n i. duration_entry };

    fn read<'a>(reader: &mut Reader<'a>, _stations: u8) -> Result<(u16, usize), TextFault<'a>> {
        let at = reader.at;
        let duration = reader.judged(Number::Duration)?;
        Ok((duration as u16, at))
    }
}

impl Row for LinkEnds {
    ghost form = { λ n i. ends_entry n };

    fn read<'a>(reader: &mut Reader<'a>, stations: u8) -> Result<(LinkEnds, usize), TextFault<'a>> {
        let from = reader.judged(Number::Station(1, stations))?;
        reader.mark(Mark::Arrow)?;
        let at = reader.at;
        let to = reader.judged(Number::Station(2, stations))?;
        let ends = LinkEnds {
            from: from as u8,
            to: to as u8,
        };
        Ok((ends, at))
    }
}

impl Row for LinkTerms {
    ghost form = { λ n i. terms_entry i };

    fn read<'a>(
        reader: &mut Reader<'a>,
        _stations: u8,
    ) -> Result<(LinkTerms, usize), TextFault<'a>> {
        let produced = reader.judged(Number::Batch(1))?;
        reader.mark(Mark::Colon)?;
        let consumed = reader.judged(Number::Batch(2))?;
        reader.mark(Mark::Colon)?;
        let stock = reader.judged(Number::Stock)?;
        reader.mark(Mark::Colon)?;
        let at = reader.at;
        let capacity = reader.capacity()?;
        let terms = LinkTerms {
            produced: produced as u16,
            consumed: consumed as u16,
            stock: stock as u16,
            capacity,
        };
        Ok((terms, at))
    }
}
