// The whole way from a net text to the bytes of a report.
#![tactic(auto)]

ghost use Rattle.std.specs.Prelude.{◌≤◌, length, IfOk};
ghost use Rattle.reports.specs.Bytes.{refusal_bytes};
ghost use Rattle.reports.specs.Reported.{Reported};
ghost use Rattle.offers.specs.Refusals.{told_of};
ghost use Rattle.plans.specs.Planning.{Planned};

use boards::board::Board;
use boards::text::LoadFault;
use nets::CircuitStep;
use offers::refusal::Refusal;
use reports::report::{ShortBuffer, report_circuit, report_refusal};
use reports::told::Circuit;

// The report of a refusal by its number and place.
fn report_told(refusal: &Refusal, out: &mut [u8]) -> Result<usize, ShortBuffer>
    ensures { Reported (refusal_bytes (told_of refusal.now).0 (told_of refusal.now).1) out.old out.new result }
{
    report_refusal(&refusal.told(), out)
}

// Loads a new board with a net text and writes its report, or that of the refusal: its length in bytes.
pub fn plan(text: &[u8], out: &mut [u8]) -> Result<usize, ShortBuffer>
    ensures planned { Planned text.now out.old out.new result }
    ensures within { IfOk result (λ n. n ≤ length out.old) }
{
    let mut list = [CircuitStep::default(); 64];
    let mut board = Board::new();
    match board.load_text(text, &mut list) {
        Ok(()) => board.report(out),
        Err(LoadFault::Text(fault)) => report_refusal(&fault.told(), out),
        Err(LoadFault::Board(refusal)) => match refusal {
            Refusal::NoTimetable(count) => {
                let steps = &list[..count];
                report_circuit(&Circuit { steps }, out)
            }
            _ => report_told(&refusal, out),
        },
    }
}
