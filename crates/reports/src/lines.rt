// Lines of numbers and steps.
ghost use Rattle.std.specs.Prelude.{◌≡◌, ℕ, ◌+◌, ◌*◌, ◌≤◌, List, ◌++◌, length, decimal};
ghost use Rattle.std.specs.Fmt.{signed_decimal};
ghost use Rattle.reports.specs.Bytes.{spaced, step_bytes, line};

use crate::buffer::{CAPACITY, Report};
use nets::{CircuitStep, Step};

// A kind of row: what it shows of each of its items, in at most `most` bytes.
pub(crate) trait Row {
    type Item;

    ghost shown: { Self.Item → List ℕ };

    ghost most: { ℕ };

    fn show(item: &Self::Item, report: &mut Report)
        requires { length report.old + most ≤ CAPACITY }
        ensures bytes { report.new ≡ report.old ++ shown item.now }
        ensures bound { length report.new ≤ length report.old + most };
}

// The rows of reports: numbers, the steps of a circuit, and their lengths.
pub(crate) struct Numbers;

pub(crate) struct Steps;

pub(crate) struct Lengths;

impl Row for Numbers {
    type Item = u64;

    ghost shown = { decimal };

    ghost most = { 20 };

    fn show(item: &u64, report: &mut Report) {
        report.push_number(*item);
    }
}

impl Row for Steps {
    type Item = CircuitStep;

    ghost shown = { λ s. step_bytes s.step };

    ghost most = { 21 };

    fn show(item: &CircuitStep, report: &mut Report) {
        let (letter, number) = match item.step {
            Step::Forward(link) => (b'f', link),
            Step::Back(link) => (b'b', link),
            Step::Own(station) => (b'o', station),
        };
        report.push(letter);
        report.push_number(u64::from(number));
    }
}

impl Row for Lengths {
    type Item = CircuitStep;

    ghost shown = { λ s. signed_decimal s.length };

    ghost most = { 21 };

    fn show(item: &CircuitStep, report: &mut Report) {
        report.push_signed(item.length);
    }
}

impl Report {
    // Appends a line of a name and a number.
    pub(crate) fn push_count(&mut self, name: &[u8], count: u64)
        requires { length self.old + length name.now + 21 ≤ CAPACITY }
        ensures bytes { self.new ≡ self.old ++ line name.now (decimal count) }
        ensures bound { length self.new ≤ length self.old + length name.now + 21 }
    {
        self.push_all(name);
        self.push_number(count);
        self.push(b'\n');
    }

    // Appends a line of a name and the items, each after a space.
    pub(crate) fn push_row<R: Row>(&mut self, name: &[u8], items: &[R::Item])
        requires { length self.old + length name.now + (R.most + 1) * length items.now + 1 ≤ CAPACITY }
        ensures bytes { self.new ≡ self.old ++ line name.now (spaced R.shown items.now) }
        ensures bound { length self.new ≤ length self.old + length name.now + (R.most + 1) * length items.now + 1 }
    {
        self.push_all(name);
        self.push_spaced::<R>(items);
        self.push(b'\n');
    }

    fn push_spaced<R: Row>(&mut self, items: &[R::Item])
        requires { length self.old + (R.most + 1) * length items.now ≤ CAPACITY }
        ensures bytes { self.new ≡ self.old ++ spaced R.shown items.now }
        ensures bound { length self.new ≤ length self.old + (R.most + 1) * length items.now }
    {
        for item in items {
            self.push(b' ');
            R::show(item, self);
        }
    }
}
