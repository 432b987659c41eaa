// The ledger: the rule book against which every call of a board is judged. Each function's contract is a theorem on it.
#![tactic(auto)]

ghost use Rattle.ledger.specs.Facts.{Deterministic, NothingChanges, StatesHeld, CloseKeeps, Offered, TimetablesDecide, LeastThere, RunsJoin, RunsDecide};
ghost use Rattle.ledger.specs.Examples.{Worked};

// A refused call and a question change nothing.
pub fn nothing_changes()
    ensures { NothingChanges }
{}

// A call has one answer and leads to one state, but for which circuit is told; so has a run.
pub fn deterministic()
    ensures { Deterministic }
{}

// From the new board every run leads to a state within the ranges, with rates that balance every link, and with a timetable.
pub fn states_held()
    ensures { StatesHeld }
{}

// A close is never refused for want of a timetable, and keeps every timetable.
pub fn close_keeps()
    ensures { CloseKeeps }
{}

// What a call that passes its earlier checks would bring about is within the ranges, and its circuits fit into a list of 64 steps.
pub fn offered()
    ensures { Offered }
{}

// A call that passes its earlier checks is refused for want of a timetable exactly when what it would bring about has none.
pub fn timetables_decide()
    ensures { TimetablesDecide }
{}

// Every state has one least timetable.
pub fn least_there()
    ensures { LeastThere }
{}

// A run goes on from where it was.
pub fn runs_join()
    ensures { RunsJoin }
{}

// Every call of a run is answered in a state that the calls before it led to, and refused for want of a timetable exactly when there is none.
pub fn runs_decide()
    ensures { RunsDecide }
{}

// The worked examples.
pub fn worked()
    ensures { Worked }
{}
