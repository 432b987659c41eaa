// Timetables of a sound net: the least one or a circuit that leaves none, and the fastest pace.
#![tactic(auto)]

ghost use Rattle.std.specs.Prelude.{◌≡◌, ◌↔◌, MatchOption, MatchResult, IsTrue};
ghost use Rattle.rules.specs.Rules.{NoPace};
ghost use Rattle.nets.specs.Views.{of_net};
ghost use Rattle.timing.specs.Timing.{Timed, Refused};
ghost use Rattle.timing.specs.Pacing.{PaceInRange, with_pace, Raises, FastestPace};

use crate::pace::{fastest_of, raise_net};
use crate::solve::solve_net;
use nets::circuit::Circuit;
use nets::sound::SoundNet;
use nets::timed::TimedNet;
use nets::{Net, Pace};

mod edges;
mod list;
mod pace;
mod solve;
mod steps;

// What a round at a pace finds: a timetable; or a slower pace, below which there is none; or that no pace has one.
// Three answers with names: as a Result of an Option they would say no more, and say it less plainly.
#[derive(Clone, Copy, Debug, PartialEq, Eq)]
pub enum Raised {
    Enough,
    To(Pace),
    Never,
}

// The least timetable of the net, or a circuit above zero, which leaves it none.
pub fn least_timetable(net: &SoundNet) -> Result<TimedNet, Circuit>
    ensures { MatchResult result (Timed net.now) (Refused net.now.net) }
{
    solve_net(net)
}

// Whether a net can have the pace.
fn in_range(pace: Pace) -> bool
    ensures { IsTrue result ↔ PaceInRange pace }
{
    (1..=1_000_000).contains(&pace.share) && (1..=10_000_000_000).contains(&pace.unit)
}

// The same net at another pace, which a net can have.
fn repaced(net: &SoundNet, pace: Pace) -> SoundNet
    requires { PaceInRange pace }
    ensures { result.net ≡ with_pace net.now.net pace }
{
    SoundNet {
        net: Net { pace, ..net.net },
    }
}

// The same net at another pace. There is none only where a net cannot have the pace.
pub fn at_pace(net: &SoundNet, pace: Pace) -> Option<SoundNet>
    ensures { MatchOption result (PaceInRange pace → ⊥) (λ s. PaceInRange pace × (s.net ≡ with_pace net.now.net pace)) }
{
    if !in_range(pace) {
        return None;
    }
    Some(repaced(net, pace))
}

// One round of raising the pace: a search at the given pace. There is no answer only where a net cannot have the pace.
pub fn raise(net: &SoundNet, pace: Pace) -> Option<Raised>
    ensures { MatchOption result (PaceInRange pace → ⊥) (λ x. PaceInRange pace × Raises (of_net net.now.net) pace x) }
{
    at_pace(net, pace).as_ref().map(raise_net)
}

// The fastest pace of the net, in lowest terms, where some pace has a timetable.
pub fn fastest_pace(net: &SoundNet) -> Option<Pace>
    ensures { MatchOption result (NoPace (of_net net.now.net)) (FastestPace (of_net net.now.net)) }
{
    fastest_of(net)
}
