ghost use Rattle.std.specs.Prelude.{◌≡◌, ℕ, ◌^◌, ◌<◌, ◌≤◌, length, slice_index_or, unsigned_abs};
ghost use Rattle.nets.specs.Views.{step_number, no_step};

use crate::CircuitStep;
use arrayvec::ArrayVec;
use std::fmt;
use std::marker::Model;
use std::ops::DerefSlice;

// The steps of a circuit in their order, at most 64.
// An array with a count, since an `ArrayVec` is never `Copy`. Blanks stand behind the steps, so that the steps alone make the value.
#[derive(Clone, Copy, PartialEq, Eq)]
pub struct CircuitSteps {
    steps: [CircuitStep; 64],
    count: usize,
}

impl Model for CircuitSteps {
    ghost use Rattle.std.specs.Prelude.{◌≡◌, ◌-◌, ◌≤◌, List, ◌++◌, length, take, drop, replicate};
    ghost use Rattle.std.proofs.Common.{sym, ap, ◌∙◌, arith, take-append-drop, length-take-le};
    ghost use Rattle.nets.specs.declared.CircuitStep.{CircuitStep};
    ghost use Rattle.nets.specs.Views.{no_step};

    ghost Value = { List CircuitStep };

    ghost view = { λ c. take c.count c.steps };

    ghost invariant = { λ c. (c.count ≤ 64) × (length c.steps ≡ 64) × (drop c.count c.steps ≡ replicate (64 - c.count) no_step) };

    ghost inverse = { λ steps. record { steps = steps ++ replicate (64 - length steps) no_step; count = length steps } };

    ghost inverse_ok = { λ c h i. record {
      steps = (ap (λ n. take c.count c.steps ++ replicate (64 - n) no_step) (length-take-le c.count c.steps (omega (arith, h.0, h.1)))
          ∙ ap (λ rest. take c.count c.steps ++ rest) (sym h.2) ∙ take-append-drop c.count c.steps) i;
      count = length-take-le c.count c.steps (omega (arith, h.0, h.1)) i;
    } };
}

impl CircuitSteps {
    // The steps of the list.
    pub fn new(list: &ArrayVec<CircuitStep, 64>) -> CircuitSteps
        ensures { result ≡ list.now.items }
    {
        let mut steps = [CircuitStep::default(); 64];
        let count = list.len();
        steps[..count].copy_from_slice(list);
        CircuitSteps { steps, count }
    }

    // The steps.
    pub fn as_slice(&self) -> &[CircuitStep]
        ensures steps { result.now ≡ self.now }
        ensures few { length result.now ≤ 64 }
    {
        &self.steps[..self.count]
    }
}

impl DerefSlice for CircuitSteps {
    type Elem = CircuitStep;

    ghost deref_gives = { λ c steps. (steps ≡ c) × (length steps ≤ 64) };

    fn deref(&self) -> &[CircuitStep] {
        self.as_slice()
    }
}

// By hand: a list of the steps, with nothing of the blanks behind them.
impl fmt::Debug for CircuitSteps {
    fn fmt<W: fmt::Write>(&self, f: &mut fmt::Formatter<W>) -> fmt::Result {
        f.debug_list().entries(self.as_slice()).finish()
    }
}

// What is told of a net without a timetable: the steps of a circuit, with their lengths in ticks.
#[derive(Clone, Copy, Debug, PartialEq, Eq)]
pub struct Circuit {
    pub steps: CircuitSteps,
    ghost numbered: { (i : ℕ) → i < length steps → step_number (slice_index_or steps i no_step).step < 128 },
    ghost sized: { (i : ℕ) → i < length steps → unsigned_abs (slice_index_or steps i no_step).length < 10 ^ 17 },
}
