// The hand-over law: when a supply that arrives at one rhythm covers what is drawn at another. But for the last one, each function's contract is a theorem.
#![tactic(auto)]

ghost use Rattle.std.specs.Prelude.{◌≡◌};
ghost use Rattle.handover.specs.Gcd.{gcd};
ghost use Rattle.handover.specs.Law.{Counts, HandOverLaw, GcdIs, BezoutHolds, Rates, Timetable, FirstDraw, WholeTicks};

// `count` counts: the q-th instant has come exactly when q is at most the count.
pub fn counts_holds()
    ensures { Counts }
{}

// `gcd` divides both numbers, and every common divisor divides it.
pub fn gcd_is_holds()
    ensures { GcdIs }
{}

// The gcd is the difference of two multiples.
pub fn bezout_holds()
    ensures { BezoutHolds }
{}

// The supply covers the draws at every instant exactly when the first draw is late enough.
pub fn hand_over_law_holds()
    ensures { HandOverLaw }
{}

// Equal rates fix the periods up to their gcd.
pub fn rates_hold()
    ensures { Rates }
{}

// The law over rates, at every scale.
pub fn timetable_holds()
    ensures { Timetable }
{}

// The earliest first draw.
pub fn first_draw_holds()
    ensures { FirstDraw }
{}

// A finer scale alone changes nothing.
pub fn whole_ticks_hold()
    ensures { WholeTicks }
{}

// The greatest common divisor, by Euclid's division.
pub fn common_divisor(a: u64, b: u64) -> u64
    ensures { result ≡ gcd a b }
{
    let mut x = a;
    let mut y = b;
    while y != 0 {
        (x, y) = (y, x % y);
    }
    x
}
