// The smallest parts of a text: a mark, a word, a number, the end.
ghost use Rattle.std.specs.Prelude.{◌≡◌, ℕ, ◌+◌, ◌≤◌, false, length, drop, MatchOption};
ghost use Rattle.forms.specs.Marks.{digit_first, number_at};
ghost use Rattle.forms.specs.Form.{mark, broken as broken_lem};
ghost use Rattle.forms.specs.Lines.{word};
ghost use Rattle.texts.specs.declared.lexer.Lexeme.TheVariants.{Digit};
ghost use Rattle.texts.specs.Lexemes.{lexeme_at, byte_of, word_of};
ghost use Rattle.texts.specs.Faults.{Worded, said};
ghost use Rattle.texts.specs.Reading.{rest, Reads, Numbered, Started, Ended, Placed, Moved};

use crate::fault::{TextFault, Word};
use crate::lexer::{Lexeme, Mark, first_mark, lex};
use crate::reader::Reader;
use drafts::fault::DraftFault;
use drafts::stage::Left;

impl<'a> Reader<'a> {
    pub(crate) fn new(text: &'a [u8]) -> Reader<'a>
        ensures { Started result text.now }
    {
        Reader { text, at: 0 }
    }

    // What stands here, if the text goes on.
    pub(crate) fn peek(&self) -> Option<Lexeme>
        ensures { result ≡ lexeme_at (rest self.now) }
    {
        self.text.get(self.at).map(|b| lex(*b))
    }

    // The word that begins at `at`: it runs to the next mark, or to the end.
    pub(crate) fn word(&self, at: usize) -> Word<'a>
        requires { at ≤ length self.now.text.now }
        ensures { (result.bytes.now ≡ word_of (drop at self.now.text.now)) × (result.at ≡ at) }
    {
        let rest = &self.text[at..];
        let end = first_mark(rest).unwrap_or(rest.len());
        Word {
            bytes: &rest[..end],
            at,
        }
    }

    // The form is left here.
    fn broken(&self) -> TextFault<'a>
        ensures said { said result ≡ broken_lem self.now.at }
        ensures worded { Worded self.now.text.now result }
    {
        TextFault::Form(self.word(self.at))
    }

    // The draft's answer about the number that begins at `at`: its fault is told with the number's word.
    pub(crate) fn placed<T>(
        &self,
        at: usize,
        answer: Result<T, DraftFault>,
    ) -> Result<T, TextFault<'a>>
        requires { at ≤ length self.now.text.now }
        ensures { Placed self.now.text.now at answer result }
    {
        // Not by `map_err`: of what its closure calls, the proof learns too little.
        match answer {
            Ok(value) => Ok(value),
            Err(fault) => Err(TextFault::Draft(fault, self.word(at))),
        }
    }

    // The draft's next stage, or the fault of one that is left too early, which is found here.
    pub(crate) fn moved<S: Drop, T>(&self, next: Result<T, Left<S>>) -> Result<T, TextFault<'a>>
        ensures { Moved self.now.text.now self.now.at next result }
    {
        self.placed(self.at, next.map_err(|left| left.fault))
    }

    // One of the marks.
    pub(crate) fn mark(&mut self, m: Mark) -> Result<(), TextFault<'a>>
        ensures { Reads self.old (λ k. mark (byte_of m) (k tt)) result self.new }
    {
        if self.peek() == Some(Lexeme::Sign(m)) {
            self.at += 1;
            Ok(())
        } else {
            Err(self.broken())
        }
    }

    // A line's name.
    pub(crate) fn name(&mut self, letters: &[u8]) -> Result<(), TextFault<'a>>
        ensures { Reads self.old (λ k. word letters.now (k tt)) result self.new }
    {
        for b in letters {
            if self.text.get(self.at) != Some(b) {
                return Err(self.broken());
            }
            self.at += 1;
        }
        Ok(())
    }

    // The digit that stands here, if one does.
    fn digit(&self) -> Option<u8>
        ensures { MatchOption result (digit_first (rest self.now) ≡ false) (λ d. lexeme_at (rest self.now) ≡ Some (Digit d)) }
    {
        let Lexeme::Digit(d) = self.peek()? else {
            return None;
        };
        Some(d)
    }

    // A number, or the largest `u64` where it is larger.
    pub(crate) fn number(&mut self) -> Result<u64, TextFault<'a>>
        ensures reads { Numbered (number_at (rest self.old)) self.old result self.new }
        ensures same { self.new.text.now ≡ self.old.text.now }
    {
        let Some(first) = self.digit() else {
            return Err(self.broken());
        };
        self.at += 1;
        let mut n = first as u64;
        while let Some(d) = self.digit() {
            if first == 0 {
                return Err(self.broken());
            }
            n = n.saturating_mul(10).saturating_add(d as u64);
            self.at += 1;
        }
        Ok(n)
    }

    // Nothing more.
    pub(crate) fn end(&self) -> Result<(), TextFault<'a>>
        ensures { Ended self.now result }
    {
        match self.peek() {
            None => Ok(()),
            Some(_) => Err(self.broken()),
        }
    }
}
