use nets::timed::TimedNet;

mod load;
mod load_text;
mod settle;
mod shown;

// A net with its least timetable.
#[derive(Drop)]
pub struct Board {
    timed: TimedNet,
}
