// The checks of a call's numbers, and why a call is refused.
#![tactic(auto)]

ghost use Rattle.std.specs.Prelude.{◌≡◌};
ghost use Rattle.checks.specs.Faults.{judged};

use crate::fault::CallFault;

pub mod fault;

// That a number of a call lies from low to high. `which` is its place among the call's numbers, counted from 1.
// A draft's numbers have a test like it: one for both would be handed the fault, and say no more.
pub fn within(which: u8, low: u64, high: u64, value: u64) -> Result<(), CallFault>
    ensures { result ≡ judged which low high value }
{
    if value < low || value > high {
        return Err(CallFault::Range(which));
    }
    Ok(())
}
