// The numbers of a net text, each judged by the draft as soon as it is complete.
ghost use Rattle.drafts.specs.Numbers.{fault_of};
ghost use Rattle.texts.specs.Reading.{Asks, ReadsCapacity};

use crate::fault::TextFault;
use crate::lexer::{Lexeme, Mark};
use crate::reader::Reader;
use drafts::numbers::Number;

impl<'a> Reader<'a> {
    // A number that the draft judges. Each number of the form is read in one place, where its range is then a constant.
    #[inline(always)]
    pub(crate) fn judged(&mut self, number: Number) -> Result<u64, TextFault<'a>>
        ensures { Asks self.old (fault_of number) result self.new }
    {
        let at = self.at;
        let value = self.number()?;
        self.placed(at, number.judge(value))
    }

    // A capacity, or a dash for none. The number is read as in `judged`, which promises less than is needed here: the stock judges a capacity too.
    pub(crate) fn capacity(&mut self) -> Result<Option<u16>, TextFault<'a>>
        ensures { ReadsCapacity self.old result self.new }
    {
        if self.peek() == Some(Lexeme::Sign(Mark::Dash)) {
            self.at += 1;
            return Ok(None);
        }
        let at = self.at;
        let value = self.number()?;
        let capacity = self.placed(at, Number::Capacity.judge(value))?;
        Ok(Some(capacity as u16))
    }
}
