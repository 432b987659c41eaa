// A step that a net has, as an edge with its pair and as one with its length in ticks.
ghost use Rattle.std.specs.Prelude.{◌≡◌, ◌+◌, ◌-◌, ◌*◌, ◌/◌, ◌<◌, ◌≤◌, ℤ, pos, ◌+ℤ◌, ◌-ℤ◌, ◌*ℤ◌, neg_ℤ, slice_index, unsigned_abs};
ghost use Rattle.handover.specs.Gcd.{gcd};
ghost use Rattle.rules.specs.Net.{Open};
ghost use Rattle.rules.specs.Steps.{Has};
ghost use Rattle.nets.specs.Views.{of_link, of_net, of_step};
ghost use Rattle.timing.specs.Edges.{Opens, Placed, Known, unit_of, grain_of, between, loop_at, edge_in_pairs, edge_in_ticks};
ghost use Rattle.timing.specs.Timing.{told_step};

use handover::common_divisor;
use lengths::Ticks;
use nets::sound::SoundNet;
use nets::{CircuitStep, Link, LinkEnds, LinkTerms, Net, Pace, Step};
use search::Edge;

// What so many parts are worth: a grain for each whole multiple of the unit.
fn worth_of(parts: u64, unit: u64, grain: u64) -> u64
    requires some { 1 ≤ unit }
    requires small { parts / unit * grain ≤ 100_000_000 }
    ensures { result ≡ parts / unit * grain }
{
    parts / unit * grain
}

// The shares of a link's step: a rate, less what its parts are worth, less a grain.
fn link_shares(rate: u64, worth: u64, grain: u64) -> i64
    requires small { (rate ≤ 10_000) × ((worth ≤ 100_000_000) × (grain ≤ 10_000)) }
    ensures { result ≡ pos rate -ℤ pos worth -ℤ pos grain }
{
    rate as i64 - worth as i64 - grain as i64
}

// The shares of a station's own step: its rate, taken away.
fn own_shares(rate: u16) -> i64
    ensures { result ≡ neg_ℤ (pos rate) }
{
    -(rate as i64)
}

// A length in ticks, of its pair: `unit` ticks for each time unit and `share` ticks for each share.
fn pair_ticks(shares: i64, time: u16, pace: Pace) -> i64
    requires small { (pace.unit * time ≤ 100_000_000_000_000) × (unsigned_abs (pos pace.share *ℤ shares) ≤ 100_000_000_000_000) }
    ensures { result ≡ pos (pace.unit * time) +ℤ pos pace.share *ℤ shares }
{
    (pace.unit * time as u64) as i64 + pace.share as i64 * shares
}

// The link that is open under k.
fn open_link(net: &SoundNet, k: u8) -> Link
    requires here { Opens (of_net net.now.net) k }
    ensures { Open (of_net net.now.net) k (of_link result) }
{
    let slot = net.net.links[k as usize];
    match slot {
        Some(l) => l,
        None => unreachable(),
    }
}

// The unit in which parts on a link count.
fn link_unit(terms: LinkTerms) -> u64
    ensures { result ≡ gcd terms.produced terms.consumed }
{
    common_divisor(terms.produced as u64, terms.consumed as u64)
}

// The grain in which shares on a link come.
fn link_grain(net: &Net, ends: LinkEnds) -> u64
    requires inside { (ends.from < 64) × (ends.to < 64) }
    ensures { result ≡ gcd (slice_index net.now.rates ends.from) (slice_index net.now.rates ends.to) }
{
    common_divisor(
        net.rates[ends.from as usize] as u64,
        net.rates[ends.to as usize] as u64,
    )
}

// The edge of a link's step from the station x to y, by what its parts are worth and by its grain.
fn edge_between(net: &Net, x: u8, y: u8, worth: u64, grain: u64) -> Edge<(i64, i64)>
    requires from { Placed net.now x }
    requires to { Placed net.now y }
    requires small { (worth ≤ 100_000_000) × (grain ≤ 10_000) }
    ensures { result ≡ between net.now x y worth grain }
{
    let shares = link_shares(net.rates[y as usize] as u64, worth, grain);
    let time = net.durations[x as usize] as i64;
    Edge {
        from: x as usize,
        to: y as usize,
        length: (shares, time),
    }
}

// The edge of a link's step from the station x to y, which counts so many parts.
fn link_edge(net: &Net, l: Link, x: u8, y: u8, parts: u16) -> Edge<(i64, i64)>
    requires from { Placed net.now x }
    requires to { Placed net.now y }
    requires known { Known net.now l parts }
    ensures { result ≡ between net.now x y (parts / unit_of l * grain_of net.now l) (grain_of net.now l) }
{
    let unit = link_unit(l.terms);
    let grain = link_grain(net, l.ends);
    let worth = worth_of(parts as u64, unit, grain);
    edge_between(net, x, y, worth, grain)
}

// A link's step forward counts its stock.
// It and `back_edge` are one call each, so that what is counted is said by name. What they ask is made in one place, by a step that its net has:
// a type for it would hold the same facts, and say no more.
fn forward_edge(net: &Net, l: Link) -> Edge<(i64, i64)>
    requires known { Known net.now l l.terms.stock }
    ensures { result ≡ between net.now l.ends.from l.ends.to (l.terms.stock / unit_of l * grain_of net.now l) (grain_of net.now l) }
{
    link_edge(net, l, l.ends.from, l.ends.to, l.terms.stock)
}

// A link's step back counts its free room.
fn back_edge(net: &Net, l: Link, capacity: u16) -> Edge<(i64, i64)>
    requires room { l.terms.stock ≤ capacity }
    requires known { Known net.now l (capacity - l.terms.stock) }
    ensures { result ≡ between net.now l.ends.to l.ends.from ((capacity - l.terms.stock) / unit_of l * grain_of net.now l) (grain_of net.now l) }
{
    link_edge(net, l, l.ends.to, l.ends.from, capacity - l.terms.stock)
}

// A station's own step leads from it to itself.
fn own_edge(net: &Net, i: u8) -> Edge<(i64, i64)>
    requires placed { Placed net.now i }
    ensures { result ≡ loop_at net.now i }
{
    let shares = own_shares(net.rates[i as usize]);
    let time = net.durations[i as usize] as i64;
    Edge {
        from: i as usize,
        to: i as usize,
        length: (shares, time),
    }
}

// A step that its net has.
#[derive(Clone, Copy)]
pub(crate) struct NetStep<'a> {
    pub(crate) net: &'a SoundNet,
    pub(crate) step: Step,
    ghost has: { ∥ Has (of_net net.now.net) (of_step step) ∥₁ },
}

impl NetStep<'_> {
    // The step as an edge with its pair.
    pub(crate) fn pair_edge(&self) -> Edge<(i64, i64)>
        ensures { result ≡ edge_in_pairs (of_net self.now.net.now.net) (of_step self.now.step) }
    {
        let net = &self.net.net;
        match self.step {
            Step::Forward(k) => forward_edge(net, open_link(self.net, k)),
            Step::Back(k) => {
                let l = open_link(self.net, k);
                let Some(capacity) = l.terms.capacity else {
                    unreachable()
                };
                back_edge(net, l, capacity)
            }
            Step::Own(i) => own_edge(net, i),
        }
    }

    // The step as an edge with its length in ticks.
    pub(crate) fn tick_edge(&self) -> Edge<Ticks>
        ensures { result ≡ edge_in_ticks (of_net self.now.net.now.net) (of_step self.now.step) }
    {
        let edge = self.pair_edge();
        let net = &self.net.net;
        let time = net.durations[edge.from];
        let ticks = pair_ticks(edge.length.0, time, net.pace);
        Edge {
            from: edge.from,
            to: edge.to,
            length: Ticks { ticks },
        }
    }

    // The step with its length in ticks, as it is told.
    pub(crate) fn told(&self) -> CircuitStep
        ensures { result ≡ told_step (of_net self.now.net.now.net) self.now.step }
    {
        let length = self.tick_edge().length.ticks;
        let step = self.step;
        CircuitStep { step, length }
    }
}
