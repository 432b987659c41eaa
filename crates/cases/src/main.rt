// Plans and surveys many texts, one to a line, and prints a line for each.
// A line of the input is a comment that begins with `#`; or `draft` and what is done to a draft; or `plan`, `survey`, `list of 63` (a load with a list
// that is too short) or `buffer of 4095` (a report into a buffer that is too short), a space, and a text in which `\n` stands for a newline, `\\` for a
// backslash and `\xHH` for the byte of these hexadecimal digits.
#![tactic(auto)]

ghost use Rattle.std.specs.Prelude.{◌<◌};

use anyhow::{Result, anyhow};
use boards::board::Board;
use boards::text::LoadFault;
use drafts::fault::DraftFault;
use drafts::stage::{Durations, NetSizes, Sizes};
use drafts::tables::Tables;
use nets::{CircuitStep, Notice, Pace, Step};
use offers::survey::survey;
use plans::plan;
use std::alloc::{AllocError, Global};
use std::io::{BufRead, BufReader};
use texts::read;

// What a line asks for.
#[derive(Clone, Copy)]
enum Case {
    Plan,
    Survey,
    ShortList,
    ShortBuffer,
    Draft,
}

const CASES: [(&str, Case); 5] = [
    ("plan ", Case::Plan),
    ("survey ", Case::Survey),
    ("list of 63 ", Case::ShortList),
    ("buffer of 4095 ", Case::ShortBuffer),
    ("draft ", Case::Draft),
];

// The case of a line, and what it is about.
fn case_of(line: &str) -> Option<(Case, &str)> {
    CASES
        .iter()
        .find_map(|(name, case)| Some((*case, line.strip_prefix(*name)?)))
}

// By hand, since cases have small letters alone, and the library's `to_digit` takes capitals too.
fn hex_digit(b: u8) -> u8
    ensures { result < 16 }
{
    match b {
        b'0'..=b'9' => b - b'0',
        b'a'..=b'f' => b - b'a' + 10,
        _ => 0,
    }
}

// The text that a line stands for.
fn unescaped(alloc: Global, line: &[u8]) -> Result<Vec<u8>, AllocError> {
    let mut text = Vec::new(alloc);
    let mut rest = line;
    loop {
        let (byte, after) = match rest {
            [b'\\', b'n', after @ ..] => (b'\n', after),
            [b'\\', b'x', high, low, after @ ..] => {
                (hex_digit(*high) * 16 + hex_digit(*low), after)
            }
            [b'\\', byte, after @ ..] => (*byte, after),
            [byte, after @ ..] => (*byte, after),
            [] => return Ok(text),
        };
        text.push(byte)?;
        rest = after;
    }
}

// The report on one line: a comma and a space stand between its lines.
fn one_line(alloc: Global, report: &str) -> Result<String, AllocError> {
    let mut text = String::new(alloc);
    for (i, line) in report.lines().enumerate() {
        if i > 0 {
            text.push_str(", ")?;
        }
        text.push_str(line)?;
    }
    Ok(text)
}

// Each of these prints the line of a case behind its number, once nothing more can fail but printing.
fn show_plan(rt: &impl Print, alloc: Global, number: u64, text: &[u8]) -> Result<()> {
    let mut report = [0u8; 4_096];
    let Ok(end) = plan(text, &mut report) else {
        return Err(anyhow!("the buffer is too short"));
    };
    let line = one_line(alloc, str::from_utf8(&report[..end])?)?;
    println!(rt; "{number}: {line}")?;
    Ok(())
}

fn show_notice(rt: &impl Print, number: u64, notice: Notice) -> Result<()> {
    println!(rt; "{number}: {notice}")?;
    Ok(())
}

fn show_survey(rt: &impl Print, number: u64, text: &[u8]) -> Result<()> {
    let mut tables = Tables::new();
    let filled = match read(text, &mut tables) {
        Ok(filled) => filled,
        Err(fault) => return show_notice(rt, number, fault.told()),
    };
    let found = match survey(&filled, &tables) {
        Ok(found) => found,
        Err(refusal) => return show_notice(rt, number, refusal.told()),
    };
    print!(rt; "{number}: rates")?;
    for rate in found.net.rates() {
        print!(rt; " {rate}")?;
    }
    let Pace { share, unit } = found.fastest;
    println!(rt; ", fastest {share}/{unit}")?;
    Ok(())
}

// A load with a list of 63 steps.
fn show_short_list(rt: &impl Print, number: u64, text: &[u8]) -> Result<()> {
    let unused = CircuitStep {
        step: Step::Own(0),
        length: 0,
    };
    let mut list = [unused; 63];
    let mut board = Board::new();
    match board.load_text(text, &mut list) {
        Ok(()) => Err(anyhow!("a short list was taken")),
        Err(LoadFault::Text(fault)) => show_notice(rt, number, fault.told()),
        Err(LoadFault::Board(refusal)) => show_notice(rt, number, refusal.told()),
    }
}

// A report into a buffer of 4,095 bytes.
fn show_short_buffer(rt: &impl Print, number: u64, text: &[u8]) -> Result<()> {
    let mut out = [0u8; 4_095];
    match plan(text, &mut out) {
        Ok(_) => Err(anyhow!("a short buffer was taken")),
        Err(short) => show_notice(rt, number, Notice::at(7, short.length as u64)),
    }
}

// A draft of so many stations that awaits durations.
fn durations_of(stations: u8) -> Option<Durations> {
    let mut sizes = Sizes::new();
    let entry = NetSizes {
        stations,
        links: 0,
        pace: Pace { share: 1, unit: 1 },
    };
    sizes.take(entry).ok()?;
    sizes.next().ok()
}

// Two stations and one duration, and then on to the next stage.
fn missing_duration() -> Option<DraftFault> {
    let mut durations = durations_of(2)?;
    durations.take(&mut Tables::new(), 1).ok()?;
    durations.next().err().map(|left| left.fault)
}

// One station and two durations.
fn duration_too_many() -> Option<DraftFault> {
    let mut tables = Tables::new();
    let mut durations = durations_of(1)?;
    durations.take(&mut tables, 1).ok()?;
    durations.take(&mut tables, 1).err()
}

// A duration of 0.
fn no_duration() -> Option<DraftFault> {
    let mut durations = durations_of(1)?;
    durations.take(&mut Tables::new(), 0).err()
}

fn show_draft(rt: &impl Print, number: u64, what: &str) -> Result<()> {
    // Three things to do, each by its name in the input.
    let fault = match what {
        "a duration missing" => missing_duration(),
        "a duration too many" => duration_too_many(),
        _ => no_duration(),
    };
    match fault {
        Some(fault) => show_notice(rt, number, fault.told()),
        None => Err(anyhow!("the draft took it")),
    }
}

fn show(rt: &impl Print, alloc: Global, number: u64, case: Case, rest: &str) -> Result<()> {
    let text = || unescaped(alloc, rest.as_bytes());
    match case {
        Case::Plan => show_plan(rt, alloc, number, &text()?),
        Case::Survey => show_survey(rt, number, &text()?),
        Case::ShortList => show_short_list(rt, number, &text()?),
        Case::ShortBuffer => show_short_buffer(rt, number, &text()?),
        Case::Draft => show_draft(rt, number, rest),
    }
}

fn main(rt: HostRuntime) -> Result<()> {
    let mut number = 0u64;
    for line in BufReader::new(rt.alloc(), rt.stdin())?.lines(rt.alloc()) {
        let line = line?;
        if line.starts_with("#") {
            println!(rt; "{line}")?;
        } else {
            number = number.saturating_add(1);
            let Some((case, rest)) = case_of(&line) else {
                return Err(anyhow!("a line that is no case"));
            };
            show(&rt, rt.alloc(), number, case, rest)?;
        }
    }
    Ok(())
}
