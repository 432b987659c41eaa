// The least timetable of a net, or a circuit that leaves it none.
ghost use Rattle.std.specs.Prelude.{◌≡◌, map, MatchResult};
ghost use Rattle.timing.specs.Timing.{start_of, Timed, Refused};

use crate::list::Steps;
use lengths::Ticks;
use nets::circuit::{Circuit, CircuitSteps};
use nets::sound::SoundNet;
use nets::timed::TimedNet;
use search::Edge;

// A start, of a length in ticks that is not below 0.
fn start_at(best: Ticks) -> u64
    ensures { result ≡ start_of best }
{
    best.ticks.unsigned_abs()
}

// The starts of all places.
fn starts_at(best: [Ticks; 64]) -> [u64; 64]
    ensures { result ≡ map start_of best }
{
    best.map(start_at)
}

// The least timetable of the net, or a circuit.
pub(crate) fn solve_net(net: &SoundNet) -> Result<TimedNet, Circuit>
    ensures { MatchResult result (Timed net.now) (Refused net.now.net) }
{
    let steps = Steps::of(net);
    let none = Edge {
        from: 0,
        to: 0,
        length: Ticks { ticks: 0 },
    };
    match steps.search(&mut [none; 320]) {
        Ok(best) => {
            let starts = starts_at(best);
            Ok(TimedNet { net: *net, starts })
        }
        Err(circuit) => {
            let told = steps.told(&circuit);
            let steps = CircuitSteps::new(&told);
            Err(Circuit { steps })
        }
    }
}
