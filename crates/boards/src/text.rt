ghost use Rattle.std.specs.Prelude.{◌≡◌};
ghost use Rattle.boards.specs.declared.text.LoadFault.TheVariants.{Text, Board};

use offers::refusal::Refusal;
use texts::fault::TextFault;

// Why a text is not loaded: it is at fault itself, or the board refuses its net.
#[derive(Clone, Copy, Debug, PartialEq, Eq)]
pub enum LoadFault<'a> {
    Text(TextFault<'a>),
    Board(Refusal),
}

// By hand, here and below: contracts need to know which fault a `?` makes, and a derived `From` has no contract.
impl<'a> From<TextFault<'a>> for LoadFault<'a> {
    ghost from_gives = { λ f r. r ≡ Text f };

    fn from(fault: TextFault<'a>) -> LoadFault<'a> {
        LoadFault::Text(fault)
    }
}

impl<'a> From<Refusal> for LoadFault<'a> {
    ghost from_gives = { λ f r. r ≡ Board f };

    fn from(refusal: Refusal) -> LoadFault<'a> {
        LoadFault::Board(refusal)
    }
}
