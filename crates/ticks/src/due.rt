// Up to which tick nothing of a station is due.
ghost use Rattle.std.specs.Prelude.{◌≡◌, true, ℕ, ◌<◌, ◌≤◌};
ghost use Rattle.election.specs.Idle.{quiet_station};

use station::Station;

// A tick up to end, and short of due if due is after now.
pub(crate) fn short_of(now: u32, due: u32, end: u32) -> u32
    requires { now ≤ end }
    ensures { (now ≤ result) × (result ≤ end) × (now < due → result < due) }
{
    if due <= now { end } else { end.min(due - 1) }
}

// A tick up to end, with nothing of the station due after now and up to it.
pub(crate) fn quiet_station(now: u32, x: &Station, end: u32) -> u32
    requires { now ≤ end }
    ensures { (now ≤ result) × (result ≤ end) × ((t : ℕ) → now < t → t ≤ result → quiet_station t x.now ≡ true) }
{
    short_of(now, x.slot, short_of(now, x.timer, end))
}
