// The lines of a net text, read into the stages of the draft.
ghost use Rattle.std.specs.Prelude.{◌≡◌, ◌+◌, ◌<◌, ◌≤◌, Some, None, length, take, drop, IfOk, OnOk};
ghost use Rattle.forms.specs.Lines.{line};
ghost use Rattle.texts.specs.NetForm.{sizes_line};
ghost use Rattle.texts.specs.Reading.{Reads, filled};
ghost use Rattle.texts.specs.Rows.{ReadsRow};

use crate::fault::TextFault;
use crate::lexer::Mark;
use crate::reader::Reader;
use crate::reader::rows::Row;
use drafts::numbers::Number;
use drafts::stage::{NetSizes, Sizes, Stage};
use drafts::tables::Tables;
use nets::Pace;

impl<'a> Reader<'a> {
    // The line of the sizes and the pace.
    pub(crate) fn sizes(&mut self, stage: &mut Sizes) -> Result<NetSizes, TextFault<'a>>
        requires { stage.old.entry ≡ None }
        ensures reads { Reads self.old sizes_line result self.new }
        ensures kept { IfOk result (λ s. stage.new.entry ≡ Some s) }
    {
        self.name(b"net")?;
        self.mark(Mark::Space)?;
        let stations = self.judged(Number::Stations)?;
        self.mark(Mark::Space)?;
        let links = self.judged(Number::Links)?;
        self.mark(Mark::Space)?;
        let share = self.judged(Number::Share)?;
        self.mark(Mark::Space)?;
        let at = self.at;
        let unit = self.judged(Number::Unit)?;
        let sizes = NetSizes {
            stations: stations as u8,
            links: links as u8,
            pace: Pace {
                share: share as u32,
                unit,
            },
        };
        self.placed(at, stage.take(sizes))?;
        self.mark(Mark::Newline)?;
        Ok(sizes)
    }

    // A space and the next entry, which the stage takes.
    fn row<E: Row>(
        &mut self,
        stations: u8,
        stage: &mut Stage<E>,
        tables: &mut Tables,
    ) -> Result<(), TextFault<'a>>
        requires stations { stage.old.sizes.stations ≡ stations }
        requires space { stage.old.held < E.Entry.count stage.old.sizes }
        requires wide { stage.old.held < length (E.Entry.column tables.old) }
        ensures reads { ReadsRow (E.form stations) self.old (take stage.old.held (E.Entry.column tables.old)) result self.new (take stage.new.held (E.Entry.column tables.new)) }
        ensures kept { OnOk result ((stage.new.held ≡ stage.old.held + 1) × (stage.new.sizes ≡ stage.old.sizes) × (tables.new ≡ E.Entry.with_column tables.old (E.Entry.column tables.new)) × (drop stage.new.held (E.Entry.column tables.new) ≡ drop stage.new.held (E.Entry.column tables.old)) × (length (E.Entry.column tables.new) ≡ length (E.Entry.column tables.old))) }
    {
        self.mark(Mark::Space)?;
        let (entry, at) = E::read(self, stations)?;
        self.placed(at, stage.take(tables, entry))
    }

    // A line of a name and as many entries as the stage awaits.
    pub(crate) fn line<E: Row>(
        &mut self,
        name: &[u8],
        sizes: NetSizes,
        stage: &mut Stage<E>,
        tables: &mut Tables,
    ) -> Result<(), TextFault<'a>>
        requires sizes { stage.old.sizes ≡ sizes }
        requires none { stage.old.held ≡ 0 }
        requires wide { E.Entry.count sizes ≤ length (E.Entry.column tables.old) }
        ensures reads { Reads self.old (line name.now (E.form sizes.stations) (E.Entry.count sizes)) (filled result (take (E.Entry.count sizes) (E.Entry.column tables.new))) self.new }
        ensures kept { OnOk result ((stage.new.held ≡ E.Entry.count sizes) × (stage.new.sizes ≡ sizes) × (tables.new ≡ E.Entry.with_column tables.old (E.Entry.column tables.new)) × (drop (E.Entry.count sizes) (E.Entry.column tables.new) ≡ drop (E.Entry.count sizes) (E.Entry.column tables.old))) }
    {
        self.name(name)?;
        for _ in 0..E::count(sizes) {
            self.row(sizes.stations, stage, tables)?;
        }
        self.mark(Mark::Newline)
    }
}
