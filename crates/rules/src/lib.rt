// What the rules of a timetable come to, in steps, chains and circuits. Each function's contract is a theorem.
#![tactic(auto)]

ghost use Rattle.rules.specs.Theorems.{FiringsCounted, StocksKept, StepsDecide, ChainBounds, CircuitForbids, LeastWhenReached, LeastOne, CircuitTurned, PairForbids, PaceFloor, LeastOrCircuit, CircuitsDecide, PairsDecide, PairStartsAllow};
ghost use Rattle.rules.specs.Paces.{SlowerToo, FastestWhen, FastestOrPair, FastestNamed, FastestOne};
ghost use Rattle.rules.specs.Ranges.{StepsSized, ChainsSized, FastestInRange, RatesSound};
ghost use Rattle.rules.specs.Examples.{Worked};

// The counts of begun and ended firings count them.
pub fn firings_counted()
    ensures { FiringsCounted }
{}

// The rules say that no stock is below 0 and no taken space above the capacity.
pub fn stocks_kept()
    ensures { StocksKept }
{}

// A timetable keeps the rules for ever exactly when it keeps every step.
pub fn steps_decide()
    ensures { StepsDecide }
{}

// The end of a chain starts no sooner than the chain's length after its beginning.
pub fn chain_bounds()
    ensures { ChainBounds }
{}

// A circuit above zero leaves no timetable.
pub fn circuit_forbids()
    ensures { CircuitForbids }
{}

// Starts that chains reach are the least, in every fraction of a tick.
pub fn least_when_reached()
    ensures { LeastWhenReached }
{}

// There is only one least timetable in whole ticks.
pub fn least_one()
    ensures { LeastOne }
{}

// Every net has least starts or a circuit above zero.
pub fn least_or_circuit()
    ensures { LeastOrCircuit }
{}

// A net has no timetable exactly when it has a circuit above zero.
pub fn circuits_decide()
    ensures { CircuitsDecide }
{}

// A circuit may begin at any of its stations.
pub fn circuit_turned()
    ensures { CircuitTurned }
{}

// A circuit whose pair is above (0, 0) leaves no timetable at any pace.
pub fn pair_forbids()
    ensures { PairForbids }
{}

// No pace has a timetable exactly when some circuit's pair is above (0, 0).
pub fn pairs_decide()
    ensures { PairsDecide }
{}

// Pairs at the stations that keep every step's pair show that some pace has a timetable.
pub fn pair_starts_allow()
    ensures { PairStartsAllow }
{}

// A circuit below zero shares names a pace below which there is no timetable.
pub fn pace_floor()
    ensures { PaceFloor }
{}

// Every pace that is no faster than one with a timetable has one: only the fraction counts.
pub fn slower_too()
    ensures { SlowerToo }
{}

// A pace with a timetable is the fastest where a circuit allows no faster one.
pub fn fastest_when()
    ensures { FastestWhen }
{}

// There is a fastest pace, or a circuit that leaves no pace.
pub fn fastest_or_pair()
    ensures { FastestOrPair }
{}

// A circuit names the fastest pace.
pub fn fastest_named()
    ensures { FastestNamed }
{}

// There is only one fastest pace.
pub fn fastest_one()
    ensures { FastestOne }
{}

// How large a step's shares, time and ticks can be.
pub fn steps_sized()
    ensures { StepsSized }
{}

// How large those of a chain can be.
pub fn chains_sized()
    ensures { ChainsSized }
{}

// The fastest pace lies within the range of paces.
pub fn fastest_in_range()
    ensures { FastestInRange }
{}

// With its rates a checked net is sound and in range.
pub fn rates_sound()
    ensures { RatesSound }
{}

// The worked examples.
pub fn worked()
    ensures { Worked }
{}
