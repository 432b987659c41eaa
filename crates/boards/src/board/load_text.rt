ghost use Rattle.std.specs.Prelude.{length};
ghost use Rattle.ledger.specs.Calls.{load, text as of_text};
ghost use Rattle.boards.specs.TextLoading.{LoadedText};
ghost use Rattle.boards.specs.Answering.{text_answer, Changed};

use crate::board::Board;
use crate::text::LoadFault;
use drafts::tables::Tables;
use nets::CircuitStep;
use offers::refusal::Refusal;
use texts::read;

impl Board {
    // Reads a net text into a draft of its own, and loads that.
    pub fn load_text<'a>(
        &mut self,
        text: &'a [u8],
        list: &mut [CircuitStep],
    ) -> Result<(), LoadFault<'a>>
        ensures loaded { LoadedText text.now self.old list.old result self.new list.new }
        ensures changed { Changed self.old (load (of_text text.now) (length list.old)) list.old (text_answer result list.new) self.new list.new }
    {
        self.read_and_load(text, list)
    }

    // The load; `load_text` shows of it that the ledger has it so.
    fn read_and_load<'a>(
        &mut self,
        text: &'a [u8],
        list: &mut [CircuitStep],
    ) -> Result<(), LoadFault<'a>>
        ensures { LoadedText text.now self.old list.old result self.new list.new }
    {
        let mut tables = Tables::new();
        let filled = read(text, &mut tables)?;
        self.load(&filled, &tables, list)?;
        Ok(())
    }
}
