// Reports. A buffer under 4,096 bytes is refused and stays as it is; else the report stands at its front, and the rest is as it was.
ghost use Rattle.std.specs.Prelude.{◌≡◌, ◌<◌, ◌≤◌, length, Ok, OnOk, IfErr};
ghost use Rattle.reports.specs.Bytes.{timetable_bytes, circuit_bytes, refusal_bytes};
ghost use Rattle.reports.specs.Reported.{Reported};

use crate::buffer::{CAPACITY, Report};
use crate::lines::{Lengths, Numbers, Steps};
use crate::told::{Circuit, Timetable};
use nets::Notice;

// The buffer for a report is under 4,096 bytes; it has this length.
#[derive(Clone, Copy, Debug, PartialEq, Eq)]
pub struct ShortBuffer {
    pub length: usize,
}

// That the buffer can hold every report: this is asked before one is written.
fn enough_room(out: &[u8]) -> Result<(), ShortBuffer>
    ensures ok { OnOk result (CAPACITY ≤ length out.now) }
    ensures err { IfErr result (λ short. (length out.now < CAPACITY) × (short.length ≡ length out.now)) }
{
    if out.len() < CAPACITY {
        return Err(ShortBuffer { length: out.len() });
    }
    Ok(())
}

impl Report {
    // Copies the report to the front of the buffer: its length in bytes.
    fn copy_to(&self, out: &mut [u8]) -> usize
        requires { CAPACITY ≤ length out.old }
        ensures { Reported self.now out.old out.new (Ok result) }
    {
        let bytes = self.as_slice();
        let front = &mut out[..bytes.len()];
        front.copy_from_slice(bytes);
        bytes.len()
    }
}

// The report of a timetable: its length in bytes.
pub fn report_timetable(timetable: &Timetable, out: &mut [u8]) -> Result<usize, ShortBuffer>
    ensures { Reported (timetable_bytes (length timetable.now.starts.now) timetable.now.starts.now timetable.now.periods.now) out.old out.new result }
{
    enough_room(out)?;
    let mut report = Report::new();
    report.push_count(b"timetable ", timetable.starts.len() as u64);
    report.push_row::<Numbers>(b"starts", timetable.starts);
    report.push_row::<Numbers>(b"periods", timetable.periods);
    Ok(report.copy_to(out))
}

// The report of a refusal for want of a timetable: its length in bytes.
pub fn report_circuit(circuit: &Circuit, out: &mut [u8]) -> Result<usize, ShortBuffer>
    ensures { Reported (circuit_bytes circuit.now.steps.now) out.old out.new result }
{
    enough_room(out)?;
    let steps = circuit.steps;
    let mut report = Report::new();
    report.push_count(b"refused 20 ", steps.len() as u64);
    report.push_row::<Steps>(b"steps", steps);
    report.push_row::<Lengths>(b"lengths", steps);
    Ok(report.copy_to(out))
}

// The report of any other refusal: its length in bytes.
pub fn report_refusal(notice: &Notice, out: &mut [u8]) -> Result<usize, ShortBuffer>
    ensures { Reported (refusal_bytes notice.now.number notice.now.place) out.old out.new result }
{
    enough_room(out)?;
    let mut report = Report::new();
    report.push_all(b"refused ");
    report.push_number(u64::from(notice.number));
    match notice.place {
        None => report.push(b'\n'),
        Some(place) => report.push_count(b" ", place),
    }
    Ok(report.copy_to(out))
}
