ghost use Rattle.std.specs.Prelude.{◌≤◌, length};
ghost use Rattle.nets.specs.Views.{of_net};
ghost use Rattle.boards.specs.Settling.{Settled};

use crate::board::Board;
use nets::CircuitStep;
use nets::sound::SoundNet;
use offers::refusal::Refusal;
use timing::least_timetable;

impl Board {
    // Takes the net in place of the one that it holds. Where that has no timetable, a circuit stands at the front of the list then.
    pub(crate) fn settle(&mut self, net: SoundNet, list: &mut [CircuitStep]) -> Result<(), Refusal>
        requires { 64 ≤ length list.old }
        ensures { Settled (of_net net.net) self.old list.old result self.new list.new }
    {
        match least_timetable(&net) {
            Ok(timed) => {
                self.timed = timed;
                Ok(())
            }
            Err(circuit) => {
                let steps = circuit.steps.as_slice();
                let front = &mut list[..steps.len()];
                front.copy_from_slice(steps);
                Err(Refusal::NoTimetable(steps.len()))
            }
        }
    }
}
