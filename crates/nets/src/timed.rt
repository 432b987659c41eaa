ghost use Rattle.std.specs.Prelude.{take};
ghost use Rattle.rules.specs.Rules.{Least};
ghost use Rattle.nets.specs.Views.{of_net};

use crate::sound::SoundNet;

// A sound net with its least timetable: the first starts of its stations, in ticks, at the front of a table, as the net has its rates.
#[derive(Clone, Copy, Debug, PartialEq, Eq)]
pub struct TimedNet {
    pub net: SoundNet,
    pub starts: [u64; 64],
    ghost least: { ∥ Least (of_net net.net) (take net.net.stations starts) ∥₁ },
}
