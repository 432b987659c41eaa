ghost use Rattle.std.specs.Prelude.{◌≡◌, ◌^◌, ◌<◌, ◌≤◌, length, All, unsigned_abs};
ghost use Rattle.nets.specs.Views.{step_number};

use nets::CircuitStep;

// What a report tells of a timetable: the starts and the periods of the stations, in ticks. Two lists, as the report has a line for each.
#[derive(Clone, Copy, Debug, PartialEq, Eq)]
pub struct Timetable<'a> {
    pub starts: &'a [u64],
    pub periods: &'a [u64],
    ghost few: { length starts.now ≤ 64 },
    ghost same: { length periods.now ≡ length starts.now },
}

// What it tells of a net without a timetable: the steps of a circuit, with their lengths in ticks. They are lent, from the list of a load.
#[derive(Clone, Copy, Debug, PartialEq, Eq)]
pub struct Circuit<'a> {
    pub steps: &'a [CircuitStep],
    ghost few: { length steps.now ≤ 64 },
    ghost numbered: { All (λ s. step_number s.step < 128) steps.now },
    ghost sized: { All (λ s. unsigned_abs s.length < 10 ^ 17) steps.now },
}
