// Texts of a form: pieces, numbers and lines, and what a reader of such a text may say. Each function's contract is a theorem.
#![tactic(auto)]

ghost use Rattle.forms.specs.Laws.{NumeralsRead, NumeralsOnly, NumeralsPrinted};

// A number's spelling is read as the number.
pub fn numerals_read()
    ensures { NumeralsRead }
{}

// Nothing else is read as the number.
pub fn numerals_only()
    ensures { NumeralsOnly }
{}

// A number is printed by its spelling.
pub fn numerals_printed()
    ensures { NumeralsPrinted }
{}
