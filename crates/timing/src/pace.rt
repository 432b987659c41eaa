// Rounds of raising the pace of a net up to its fastest.
ghost use Rattle.std.specs.Prelude.{◌≡◌, ◌*◌, ◌/◌, ◌<◌, ◌≤◌, true, false, map, MatchOption, unsigned_abs};
ghost use Rattle.handover.specs.Gcd.{gcd};
ghost use Rattle.rules.specs.Rules.{SomePace, NoPace};
ghost use Rattle.rules.specs.Steps.{PairCircuit};
ghost use Rattle.nets.specs.Views.{of_net, step_of};
ghost use Rattle.timing.specs.Timing.{Refused};
ghost use Rattle.timing.specs.Pacing.{pair_of, named_by, Raises, FirstPace, lowest_terms, FastestPace};

use crate::list::Steps;
use crate::solve::solve_net;
use crate::steps::NetStep;
use crate::{Raised, repaced};
use handover::common_divisor;
use lengths::Joining;
use nets::Pace;
use nets::circuit::Circuit;
use nets::sound::SoundNet;
use search::Edge;

// Whether a circuit's pair is above (0, 0), so that no pace has a timetable; else some pace has one.
fn pairs_above(net: &SoundNet) -> bool
    ensures above { result ≡ true → PairCircuit (of_net net.now.net) }
    ensures allows { result ≡ false → SomePace (of_net net.now.net) }
{
    let none = Edge {
        from: 0,
        to: 0,
        length: (0, 0),
    };
    Steps::of(net).search(&mut [none; 320]).is_err()
}

// The pair of a circuit: its shares and its time.
fn circuit_pair(net: &SoundNet, circuit: &Circuit) -> (i64, i64)
    requires refused { Refused net.now.net circuit.now }
    ensures { result ≡ pair_of (of_net net.now.net) (map step_of circuit.now.steps) }
{
    let mut sum = (0, 0);
    for told in circuit.steps.iter() {
        let step = NetStep {
            net,
            step: told.step,
        };
        sum = sum.join(step.pair_edge().length);
    }
    sum
}

// What a circuit with the pair, which leaves no timetable at some pace, says of other paces.
fn raised_by(pair: (i64, i64)) -> Raised
    requires small { unsigned_abs pair.1 ≤ 640_000 }
    ensures { result ≡ named_by pair }
{
    if pair.0 < 0 {
        Raised::To(Pace {
            share: pair.1.unsigned_abs() as u32,
            unit: pair.0.unsigned_abs(),
        })
    } else {
        Raised::Never
    }
}

// One round: a search at the net's own pace.
pub(crate) fn raise_net(net: &SoundNet) -> Raised
    ensures { Raises (of_net net.now.net) net.now.net.pace result }
{
    match solve_net(net) {
        Ok(_) => Raised::Enough,
        Err(circuit) => raised_by(circuit_pair(net, &circuit)),
    }
}

// The slowest of the paces that the stations ask for alone: the greatest duration / rate.
fn first_pace(net: &SoundNet) -> Pace
    ensures { FirstPace (of_net net.now.net) result }
{
    let mut slowest = (net.durations()[0], net.rates()[0]);
    for (&duration, &rate) in net.durations().iter().zip(net.rates()) {
        if (slowest.0 as u32) * (rate as u32) < (duration as u32) * (slowest.1 as u32) {
            slowest = (duration, rate);
        }
    }
    Pace {
        share: slowest.0 as u32,
        unit: slowest.1 as u64,
    }
}

// The same pace in lowest terms.
fn reduced(pace: Pace) -> Pace
    requires some { 1 ≤ gcd pace.share pace.unit }
    ensures { result ≡ lowest_terms pace }
{
    let divisor = common_divisor(pace.share as u64, pace.unit);
    Pace {
        share: (pace.share as u64 / divisor) as u32,
        unit: pace.unit / divisor,
    }
}

// The fastest pace of the net, where some pace has a timetable.
pub(crate) fn fastest_of(net: &SoundNet) -> Option<Pace>
    ensures { MatchOption result (NoPace (of_net net.now.net)) (FastestPace (of_net net.now.net)) }
{
    if pairs_above(net) {
        return None;
    }
    let mut pace = first_pace(net);
    loop {
        match raise_net(&repaced(net, pace)) {
            Raised::Enough => return Some(reduced(pace)),
            Raised::To(slower) => pace = slower,
            Raised::Never => return None,
        }
    }
}
