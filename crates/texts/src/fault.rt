ghost use Rattle.std.specs.Prelude.{◌≡◌};
ghost use Rattle.texts.specs.Faults.{told_of};

use drafts::fault::DraftFault;
use nets::Notice;

// A part of a text, and the place where it begins.
#[derive(Clone, Copy, Debug, PartialEq, Eq)]
pub struct Word<'a> {
    pub bytes: &'a [u8],
    pub at: usize,
}

// Why a text is refused: it leaves the form, or the draft refuses a number.
#[derive(Clone, Copy, Debug, PartialEq, Eq)]
pub enum TextFault<'a> {
    Form(Word<'a>),
    Draft(DraftFault, Word<'a>),
}

impl<'a> TextFault<'a> {
    // The refusal's number, and the offset of the byte that is told.
    pub fn told(&self) -> Notice
        ensures { result ≡ record { number = (told_of self.now).0; place = Some (told_of self.now).1 } }
    {
        let (number, offset) = match self {
            TextFault::Form(word) => (1, word.at),
            TextFault::Draft(fault, word) => (fault.told().number, word.at),
        };
        Notice::at(number, offset as u64)
    }
}
