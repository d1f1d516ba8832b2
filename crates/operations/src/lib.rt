// The open operations of a head with flash: each tests what it is handed, and refuses or does what the rule says. Where candidates are compared,
// the ranks of all stations are handed over too, station 1 first; a station holds none. Refusal serves both kinds of head; the operations of one with a
// running clock are in crates/clock.
#![tactic(auto)]

ghost use Rattle.std.specs.Prelude.{◌≡◌};
ghost use Rattle.operations.specs.Operations.{number_of, done, sent, starting, crashing, hearing, expiring, slotting};

use fit::{fit_crash, fit_expire, fit_hear, fit_slot, fit_start};
use station::{Seat, Station};

// Why an operation is turned down: a start found the station up, or its count at 4095; or no sound system
// could hand over these values. The station stays as it was.
#[derive(Clone, Copy, Debug, PartialEq, Eq)]
pub enum Refusal {
    Up,
    WornOut,
    Unfit,
}

impl Refusal {
    // Document 01's number.
    pub fn number(self) -> u8
        ensures { result ≡ number_of self }
    {
        match self {
            Refusal::Up => 8,
            Refusal::WornOut => 10,
            Refusal::Unfit => 15,
        }
    }
}

// Starts a station at a tick.
#[tactic(auto, using(fit::proofs::Safe::start_safe), unfolding(crate::specs::Operations::starting))]
pub fn start(station: &mut Station, seat: Seat, tick: u32) -> Result<(), Refusal>
    ensures { done result station.new ≡ starting seat.me seat.n seat.period tick station.old }
{
    if !fit_start(seat, tick, station) {
        return Err(Refusal::Unfit);
    }
    if station.up {
        return Err(Refusal::Up);
    }
    if station.incarnation >= 4095 {
        return Err(Refusal::WornOut);
    }
    station.start(seat, tick);
    Ok(())
}

// Crashes a station at a tick.
#[tactic(auto, unfolding(crate::specs::Operations::crashing))]
pub fn crash(station: &mut Station, seat: Seat, tick: u32) -> Result<(), Refusal>
    ensures { done result station.new ≡ crashing seat.me seat.n seat.period tick station.old }
{
    if !fit_crash(seat, tick, station) {
        return Err(Refusal::Unfit);
    }
    station.crash();
    Ok(())
}

// Has a station hear LEADER from another, with its counts, in a tick.
#[tactic(auto, using(fit::proofs::Safe::hear_safe), unfolding(crate::specs::Operations::hearing))]
pub fn hear(
    station: &mut Station,
    ranks: &[u8; 8],
    seat: Seat,
    tick: u32,
    from: u8,
    counts: &[u16; 8],
) -> Result<(), Refusal>
    ensures { done result station.new ≡ hearing ranks.now seat.me seat.n seat.period tick from counts.now station.old }
{
    if !fit_hear(ranks, seat, tick, from, counts, station) {
        return Err(Refusal::Unfit);
    }
    station.hear(ranks, seat.me, from, counts, tick);
    Ok(())
}

// Ends a station's timer in a tick.
#[tactic(auto, using(fit::proofs::Safe::expire_safe), unfolding(crate::specs::Operations::expiring))]
pub fn expire(station: &mut Station, seat: Seat, tick: u32) -> Result<(), Refusal>
    ensures { done result station.new ≡ expiring seat.me seat.n seat.period tick station.old }
{
    if !fit_expire(seat, tick, station) {
        return Err(Refusal::Unfit);
    }
    station.expire(seat.me);
    Ok(())
}

// Gives a station its send chance in a tick, and answers whether LEADER is sent.
#[tactic(auto, using(fit::proofs::Safe::slot_safe), unfolding(crate::specs::Operations::slotting))]
pub fn slot(station: &mut Station, ranks: &[u8; 8], seat: Seat, tick: u32) -> Result<bool, Refusal>
    ensures { sent result station.new ≡ slotting ranks.now seat.me seat.n seat.period tick station.old }
{
    if !fit_slot(ranks, seat, tick, station) {
        return Err(Refusal::Unfit);
    }
    let sends = station.leader == seat.me;
    station.slot(seat.period, tick);
    Ok(sends)
}
