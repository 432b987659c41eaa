ghost use Rattle.std.specs.Prelude.{length};
ghost use Rattle.drafts.specs.Checks.{WholeTables};
ghost use Rattle.texts.specs.Outcomes.{entries_of};
ghost use Rattle.ledger.specs.Calls.{load, entries};
ghost use Rattle.boards.specs.Loading.{Loaded};
ghost use Rattle.boards.specs.Answering.{change_answer, Changed};

use crate::board::Board;
use drafts::stage::Filled;
use drafts::tables::Tables;
use nets::CircuitStep;
use offers::refusal::Refusal;
use offers::survey::offered_net;

impl Board {
    // Takes the net of a filled draft in place of the one that it holds. Where that has no timetable, a circuit stands at the front of the list then.
    pub fn load(
        &mut self,
        filled: &Filled,
        tables: &Tables,
        list: &mut [CircuitStep],
    ) -> Result<(), Refusal>
        ensures loaded { Loaded filled.now.sizes tables.now self.old list.old result self.new list.new }
        ensures whole { WholeTables tables.now }
        ensures changed { Changed self.old (load (entries (entries_of filled.now.sizes tables.now)) (length list.old)) list.old (change_answer result list.new) self.new list.new }
    {
        self.load_draft(filled, tables, list)
    }

    // The load; `load` shows of it that the ledger has it so.
    fn load_draft(
        &mut self,
        filled: &Filled,
        tables: &Tables,
        list: &mut [CircuitStep],
    ) -> Result<(), Refusal>
        ensures loaded { Loaded filled.now.sizes tables.now self.old list.old result self.new list.new }
        ensures whole { WholeTables tables.now }
    {
        tables.whole();
        if list.len() < 64 {
            return Err(Refusal::ShortList(list.len()));
        }
        let net = offered_net(filled, tables)?;
        self.settle(net, list)
    }
}
