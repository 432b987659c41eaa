// The kinds of length that the steps of a net have.
ghost use Rattle.std.specs.Prelude.{◌≡◌, ◌*◌, ◌≤◌};
ghost use Rattle.rules.specs.Net as rules;
ghost use Rattle.rules.specs.Ranges.{InRange};
ghost use Rattle.rules.specs.Steps as model;
ghost use Rattle.nets.specs.Views.{of_net, of_step};
ghost use Rattle.timing.specs.Edges.{edge_of, pair, in_ticks};
ghost use Rattle.std.proofs.Common.{arith};
ghost use Rattle.rules.proofs.Sizes.{steps_sized_lem};

use crate::steps::NetStep;
use lengths::{Joining, OrderedLength, Ticks};
use search::Edge;

// A kind of length that the steps of a net have. 64 of them can be joined.
pub(crate) trait StepLength: OrderedLength {
    ghost measured: { rules.Net → model.Step → Self };

    fn edge(step: &NetStep) -> Edge<Self>
        ensures { result ≡ edge_of (of_net step.now.net.now.net) (measured (of_net step.now.net.now.net)) (of_step step.now.step) };

    ghost roomy: { (N : rules.Net) → rules.Sound N → InRange N → (s : model.Step) → model.Has N s → 64 * Self.Joining.size (measured N s) ≤ Self.Joining.LARGEST };
}

impl StepLength for (i64, i64) {
    ghost measured = { pair };

    ghost roomy = { λ N S R s h. let z = steps_sized_lem N S R s h in omega (arith, z.shares, z.time, z.ticks) };

    fn edge(step: &NetStep) -> Edge<(i64, i64)> {
        step.pair_edge()
    }
}

impl StepLength for Ticks {
    ghost measured = { in_ticks };

    ghost roomy = { λ N S R s h. let z = steps_sized_lem N S R s h in omega (arith, z.shares, z.time, z.ticks) };

    fn edge(step: &NetStep) -> Edge<Ticks> {
        step.tick_edge()
    }
}
