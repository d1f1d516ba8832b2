// The cases of schedules: how each ends, and the system it leaves.
use crate::line::Line;
use crate::systems::system;

// Runs a schedule. Told are the offset of the refusal, or the schedule's length, and the system.
pub fn schedule_case(name: Line, bytes: &[u8]) -> Line {
    let done = simulator::schedule(bytes);
    let (refusal, at) = match done.ended {
        Ok(size) => (None, size),
        Err(stopped) => (Some(stopped.refusal.number()), stopped.at),
    };
    let line = name.answer(refusal).with(format_args!(" at {at}"));
    system(line, &done.system)
}
