// Whether the stations of a checked net are joined, and the rates of a joined one, which make it a sound net.
#![tactic(auto)]

ghost use Rattle.std.specs.Prelude.{◌≡◌, ◌*◌, ◌<◌, ◌≤◌, ◌↔◌, take, replicate, slice_set, IsTrue, MatchOption};
ghost use Rattle.rules.specs.Net.{stations};
ghost use Rattle.rules.specs.Rates.{Joined, CutOff, Rated, with_rates, NoRates};
ghost use Rattle.nets.specs.Views.{of_link, of_net};
ghost use Rattle.rates.specs.Reaching.{number, if_reached, along, Balanced, AllBalanced, OnwardBy, Onward, Lowest, Scaled, Reached};
ghost use Rattle.rates.specs.Answer.{Replaced, Told};
ghost use Rattle.rates.specs.Theorems.{RatesOne, CutOffOne, Worked};

use handover::common_divisor;
use nets::Link;
use nets::checked::CheckedNet;
use nets::sound::SoundNet;

// Why a net has no rates: links do not lead to a station, and this is the lowest such; or no numbers serve.
#[derive(Clone, Copy, Debug, PartialEq, Eq)]
pub enum RateFault {
    CutOff(u8),
    NoRates,
}

// A link as it is followed: `produced` parts belong to a firing of `from`, and `consumed` parts to one of `to`.
#[derive(Clone, Copy, Debug, PartialEq, Eq)]
struct Lead {
    from: u8,
    to: u8,
    produced: u16,
    consumed: u16,
}

// The link followed the way that its parts go.
impl From<Link> for Lead {
    ghost from_gives = { λ link lead. lead ≡ along (of_link link) };

    fn from(link: Link) -> Self {
        Lead {
            from: link.ends.from,
            to: link.ends.to,
            produced: link.terms.produced,
            consumed: link.terms.consumed,
        }
    }
}

impl Lead {
    // The same link followed the other way.
    fn turned(self) -> Self
        ensures { result ≡ record { from = self.to; to = self.from; produced = self.consumed; consumed = self.produced } }
    {
        Lead {
            from: self.to,
            to: self.from,
            produced: self.consumed,
            consumed: self.produced,
        }
    }
}

// The number as a rate, unless it passes 10,000.
fn as_rate(n: u64) -> Option<u16>
    ensures { MatchOption result (10_000 < n) (λ rate. (rate ≡ n) × (rate ≤ 10_000)) }
{
    u16::try_from(n).ok().filter(|rate| *rate <= 10_000)
}

// A number for each station that is reached. In the table a 0 stands for one that is not: so its front can be copied as the table of rates.
#[derive(Clone, Copy)]
struct Numbers {
    z: [u16; 64],
}

impl Numbers {
    // Where reaching begins: station 0 has the number 1, and no other is reached.
    fn first() -> Self
        ensures { result.z ≡ slice_set (replicate 64 0) 0 1 }
    {
        let mut z = [0; 64];
        z[0] = 1;
        Numbers { z }
    }

    // The station's number, if it is reached.
    fn of(&self, station: u8) -> Option<u16>
        ensures { result ≡ if_reached (number self.now.z station) }
    {
        self.z.get(station as usize).copied().filter(|n| *n != 0)
    }

    // The link as it leads from a station that is reached to one that is not. It is looked at in every pass, so its ends are known to lie in the table.
    fn lead_on(&self, link: Link) -> Option<Lead>
        requires from { link.ends.from < 64 }
        requires to { link.ends.to < 64 }
        ensures { OnwardBy (of_link link) self.now.z result }
    {
        let from = self.z[link.ends.from as usize] != 0;
        let to = self.z[link.ends.to as usize] != 0;
        match (from, to) {
            (true, false) => Some(Lead::from(link)),
            (false, true) => Some(Lead::from(link).turned()),
            _ => None,
        }
    }

    // Some link that leads from a station that is reached to one that is not.
    // A loop: by `find_map` over a `flatten`, with a test of each end, a net in a long order took 1.3 times as long to plan.
    fn onward(&self, checked: &CheckedNet) -> Option<Lead>
        ensures { Onward (of_net checked.now.net) self.now.z result }
    {
        for slot in &checked.net.links {
            if let Some(link) = slot {
                if let Some(lead) = self.lead_on(*link) {
                    return Some(lead);
                }
            }
        }
        None
    }

    // The lowest station that is not reached.
    fn lowest(&self, stations: u8) -> Option<u8>
        ensures { Lowest stations self.now.z result }
    {
        (0..stations).find(|station| self.of(*station).is_none())
    }

    // Multiplies every number by `m`, as far as none passes 10,000.
    fn scale(&mut self, m: u16) -> Option<()>
        ensures { Scaled self.old.z m self.new.z result }
    {
        for n in &mut self.z {
            *n = as_rate(u64::from(*n) * u64::from(m))?;
        }
        Some(())
    }

    // Reaches the station that the link leads to, in the least whole numbers, unless one of them passes 10,000.
    fn reach(&mut self, lead: Lead) -> Option<()>
        requires ends { (lead.from < 64) × (lead.to < 64) }
        requires gives { 1 ≤ lead.produced }
        ensures { Reached self.old.z lead self.new.z result }
    {
        let parts = u64::from(self.z[lead.from as usize]) * u64::from(lead.consumed);
        let produced = u64::from(lead.produced);
        let g = common_divisor(parts, produced);
        let end = as_rate(parts / g)?;
        self.scale((produced / g) as u16)?;
        self.z[lead.to as usize] = end;
        Some(())
    }

    // Whether both ends of the link are reached, and their numbers balance it.
    fn balances(&self, link: Link) -> bool
        ensures { IsTrue result ↔ (Balanced (of_link link) self.now.z) }
    {
        let (Some(from), Some(to)) = (self.of(link.ends.from), self.of(link.ends.to)) else {
            return false;
        };
        let arrive = u32::from(from) * u32::from(link.terms.consumed);
        let leave = u32::from(to) * u32::from(link.terms.produced);
        arrive == leave
    }

    // Whether this is so of every link.
    fn balanced(&self, checked: &CheckedNet) -> bool
        ensures { IsTrue result ↔ (AllBalanced (of_net checked.now.net) self.now.z) }
    {
        checked
            .net
            .links
            .iter()
            .flatten()
            .all(|link| self.balances(*link))
    }
}

// The lowest station that links, followed either way, do not lead to from station 0; none where the net is joined.
fn cut_off(checked: &CheckedNet) -> Option<u8>
    ensures { MatchOption result (Joined (of_net checked.now.net)) (CutOff (of_net checked.now.net)) }
{
    let mut numbers = Numbers::first();
    while let Some(lead) = numbers.onward(checked) {
        numbers.z[lead.to as usize] = 1;
    }
    numbers.lowest(checked.net.stations)
}

// The rates of a joined net, at the front, if it has any.
fn joined_rates(checked: &CheckedNet) -> Option<Numbers>
    requires { Joined (of_net checked.now.net) }
    ensures { MatchOption result (NoRates (of_net checked.now.net))
        (λ numbers. Rated (with_rates (of_net checked.now.net) (take (stations (of_net checked.now.net)) numbers.z))) }
{
    let mut numbers = Numbers::first();
    while let Some(lead) = numbers.onward(checked) {
        numbers.reach(lead)?;
    }
    numbers.balanced(checked).then_some(numbers)
}

// The net with the numbers as its rates.
fn with_numbers(checked: &CheckedNet, numbers: &Numbers) -> SoundNet
    requires { Rated (with_rates (of_net checked.now.net) (take (stations (of_net checked.now.net)) numbers.now.z)) }
    ensures { Replaced checked.now.net result.net }
{
    let mut net = checked.net;
    let stations = net.stations as usize;
    net.rates[0..stations].copy_from_slice(&numbers.z[0..stations]);
    SoundNet { net }
}

// The net with its rates, or why it has none.
pub fn rate(checked: &CheckedNet) -> Result<SoundNet, RateFault>
    ensures { Told checked.now.net result }
{
    if let Some(y) = cut_off(checked) {
        return Err(RateFault::CutOff(y));
    }
    let numbers = joined_rates(checked).ok_or(RateFault::NoRates)?;
    Ok(with_numbers(checked, &numbers))
}

// A joined net has at most one list of rates.
pub fn rates_one()
    ensures { RatesOne }
{}

// The net settles which station is told as cut off, and a joined net has none.
pub fn cut_off_one()
    ensures { CutOffOne }
{}

// Worked examples of the definitions.
pub fn worked()
    ensures { Worked }
{}
