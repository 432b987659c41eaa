// A board holds a net and shows its least timetable.
#![tactic(auto)]

pub mod board;
pub mod text;
