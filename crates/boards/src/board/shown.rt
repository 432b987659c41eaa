ghost use Rattle.std.specs.Prelude.{◌≡◌, ◌*◌, ◌≤◌, map, length};
ghost use Rattle.reports.specs.Bytes.{timetable_bytes};
ghost use Rattle.reports.specs.Reported.{Reported};
ghost use Rattle.boards.specs.Settling.{net_of, starts_of};
ghost use Rattle.boards.specs.Showing.{new_net, periods_of};

use crate::board::Board;
use arrayvec::ArrayVec;
use nets::sound::SoundNet;
use nets::timed::TimedNet;
use nets::{Net, Pace};
use reports::report::{ShortBuffer, report_timetable};
use reports::told::Timetable;

// One station of duration 1 and rate 1, no link, pace 1/1.
fn one_station() -> Net
    ensures { result ≡ new_net }
{
    let mut durations = [0; 64];
    durations[0] = 1;
    let mut rates = [0; 64];
    rates[0] = 1;
    Net {
        stations: 1,
        durations,
        rates,
        links: [None; 128],
        pace: Pace { share: 1, unit: 1 },
    }
}

// The periods of the stations, in ticks: a share lasts `share` ticks.
fn periods(rates: &[u16], share: u32) -> ArrayVec<u64, 64>
    requires { length rates.now ≤ 64 }
    ensures { result.items ≡ map (λ z. share * z) rates.now }
{
    let mut periods = ArrayVec::new();
    for rate in rates {
        periods.push(u64::from(share) * u64::from(*rate));
    }
    periods
}

impl Board {
    // A board with one station of duration 1, no link and pace 1/1.
    pub fn new() -> Board
        ensures { result.timed.net.net ≡ new_net }
    {
        let net = SoundNet { net: one_station() };
        let timed = TimedNet {
            net,
            starts: [0; 64],
        };
        Board { timed }
    }

    // The report of the timetable that it shows: its length in bytes.
    pub fn report(&self, out: &mut [u8]) -> Result<usize, ShortBuffer>
        ensures { Reported (timetable_bytes self.now.timed.net.net.stations (starts_of self.now) (periods_of (net_of self.now))) out.old out.new result }
    {
        let net = &self.timed.net.net;
        let stations = net.stations as usize;
        let periods = periods(&net.rates[..stations], net.pace.share);
        let starts = &self.timed.starts[..stations];
        let timetable = Timetable {
            starts,
            periods: periods.as_slice(),
        };
        report_timetable(&timetable, out)
    }
}
