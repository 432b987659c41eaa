// A third kind of length, which also counts steps, and the one search at all three kinds.
#![tactic(auto)]

ghost use Rattle.std.specs.Prelude.{◌≡◌, ℕ, ◌+◌, ◌≤◌, min};
ghost use Rattle.lengths.specs.Laws.{comes_before};
ghost use Rattle.finer.specs.Model.{no_steps, more_steps, back_steps, size_steps, below_steps};
ghost use Rattle.std.proofs.Common.{rules};
ghost use Rattle.finer.specs.CountedLaws.{steps_order};

use lengths::{Joining, OrderedLength, Ticks};
use search::{Edge, SearchError, least_starts};
use std::cmp::Reverse;
use std::{fmt, io};

// A length and the number of steps that it was joined from. Of two equal lengths the one with fewer steps is the greater.
#[derive(Clone, Copy, Debug, PartialEq, Eq, PartialOrd, Ord)]
pub struct Counted<L> {
    pub length: L,
    pub steps: Reverse<i64>,
}

impl<L: OrderedLength> Joining for Counted<L> {
    const LARGEST: u64 = if L::LARGEST < i64::LARGEST {
        L::LARGEST
    } else {
        i64::LARGEST
    };

    ghost LARGEST = { min L.LARGEST ⟦<i64 as Joining>⟧.LARGEST };

    ghost size = { size_steps L.size };

    ghost neutral = { no_steps L.neutral };

    ghost joined = { more_steps L.joined };

    ghost opposite = { back_steps L.opposite };

    ghost joins = { Prim.search rules };

    fn measure(self) -> u64 {
        self.length.measure().max(self.steps.0.measure())
    }

    fn none() -> Counted<L> {
        Counted {
            length: L::none(),
            steps: Reverse(0),
        }
    }

    fn join(self, other: Counted<L>) -> Counted<L> {
        Counted {
            length: self.length.join(other.length),
            steps: Reverse(self.steps.0 + other.steps.0),
        }
    }
}

impl<L: OrderedLength> OrderedLength for Counted<L> {
    ghost orders = { steps_order L.total L.orders };
}

// What the derived order is, for the gate to prove: of two equal lengths the one with more steps comes first.
pub fn counted_below<L: OrderedLength>(x: Counted<L>, y: Counted<L>) -> bool
    ensures { result ≡ below_steps (comes_before L.cmp) x y }
{
    x < y
}

// A length as it is printed.
#[derive(Clone, Copy)]
struct Shown<L>(L);

impl fmt::Display for Shown<Ticks> {
    fn fmt<W: fmt::Write>(&self, f: &mut fmt::Formatter<W>) -> fmt::Result {
        let ticks = self.0.ticks;
        write!(f, "{ticks}")
    }
}

impl fmt::Display for Shown<(i64, i64)> {
    fn fmt<W: fmt::Write>(&self, f: &mut fmt::Formatter<W>) -> fmt::Result {
        let (first, second) = self.0;
        write!(f, "{first} {second}")
    }
}

impl fmt::Display for Shown<Counted<Ticks>> {
    fn fmt<W: fmt::Write>(&self, f: &mut fmt::Formatter<W>) -> fmt::Result {
        let ticks = self.0.length.ticks;
        let steps = self.0.steps.0;
        write!(f, "{ticks}, steps {steps}")
    }
}

fn edge<L>(from: usize, to: usize, length: L) -> Edge<L> {
    Edge { from, to, length }
}

fn ticks(from: usize, to: usize, ticks: i64) -> Edge<Ticks> {
    edge(from, to, Ticks { ticks })
}

// An edge of one step.
fn step(from: usize, to: usize, ticks: i64) -> Edge<Counted<Ticks>> {
    edge(
        from,
        to,
        Counted {
            length: Ticks { ticks },
            steps: Reverse(1),
        },
    )
}

// The starts of the first four nodes, or why there are none.
fn write_starts<L: Copy>(rt: HostRuntime, found: Result<[L; 64], SearchError>) -> io::Result<()>
where
    Shown<L>: fmt::Display,
{
    match found {
        Ok(starts) => {
            for (node, start) in starts[..4].iter().enumerate() {
                let start = Shown(*start);
                println!(rt; "node {node} at {start}")?;
            }
            Ok(())
        }
        // A match of its own: a pattern through both enums gets no proof.
        Err(error) => match error {
            SearchError::Above(circuit) => {
                for edge in circuit.iter() {
                    println!(rt; "circuit by edge {edge}")?;
                }
                Ok(())
            }
            SearchError::Unsearchable => println!(rt; "cannot be asked"),
        },
    }
}

// What is written was worked out by hand:
// - Node 0 may start at 0, so node 1 at 0 + 3, node 2 at the later of 3 + 4 and 0 + 7, node 3 at 7 - 2, and 7 - 9 asks nothing of node 0.
// - With -6 for -9 the edges 1, 2 and 0 lead around from node 0 and take 3 + 4 - 6 = 1. There is no other circuit.
// - Of pairs, node 1 is at (1, -5), since 1 is above 0; node 2 at (1, -5) + (-1, 9) = (0, 4), above (0, 3); node 3 at (0, 0), since (-1, 8) is below;
//   and (0, 4) + (0, -4) asks nothing more of node 0.
// - The circuit of pairs is (1, 3) + (-1, 4) + (0, -6) = (0, 1), above (0, 0) by its second number.
// - By steps, node 2 is at 7 by the one edge from node 0, which is above 7 by two; node 3 is at 7 - 2 by one more.
// - A circuit of 0 ticks keeps its starts by steps as well: 0 ticks by two steps are below 0 ticks by none.
// - An edge to node 4 of four nodes cannot be asked.
fn main(rt: HostRuntime) -> io::Result<()> {
    write_starts(
        rt,
        least_starts(
            4,
            &[
                ticks(0, 1, 3),
                ticks(1, 2, 4),
                ticks(0, 2, 7),
                ticks(2, 0, -9),
                ticks(2, 3, -2),
            ],
        ),
    )?;
    write_starts(
        rt,
        least_starts(
            4,
            &[
                ticks(2, 0, -6),
                ticks(0, 1, 3),
                ticks(1, 2, 4),
                ticks(2, 3, -2),
            ],
        ),
    )?;
    write_starts(
        rt,
        least_starts(
            4,
            &[
                edge(0, 1, (1, -5)),
                edge(1, 2, (-1, 9)),
                edge(0, 2, (0, 3)),
                edge(2, 0, (0, -4)),
                edge(2, 3, (-1, 4)),
            ],
        ),
    )?;
    write_starts(
        rt,
        least_starts(
            4,
            &[edge(2, 0, (0, -6)), edge(0, 1, (1, 3)), edge(1, 2, (-1, 4))],
        ),
    )?;
    write_starts(
        rt,
        least_starts(
            4,
            &[
                step(0, 1, 3),
                step(1, 2, 4),
                step(0, 2, 7),
                step(2, 0, -9),
                step(2, 3, -2),
            ],
        ),
    )?;
    write_starts(
        rt,
        least_starts(
            4,
            &[step(2, 0, -6), step(0, 1, 3), step(1, 2, 4), step(2, 3, -2)],
        ),
    )?;
    write_starts(rt, least_starts(4, &[step(0, 1, 3), step(1, 0, -3)]))?;
    write_starts(rt, least_starts(4, &[ticks(0, 4, 1)]))
}
