// The open operations of a head with a running clock and no flash: each tests what it is handed, and refuses or does what the rule says.
#![tactic(auto)]

ghost use Rattle.std.specs.Prelude.{◌≡◌};
ghost use Rattle.operations.specs.Operations.{done, sent};
ghost use Rattle.clock.specs.Operations.{starting, crashing, hearing, expiring, slotting};

use operations::Refusal;
use station::{Seat, Station};

pub mod fits;
pub mod rules;

// (d) These have the shape of the operations of a head with flash; one generic set would need a trait with each test and each rule of both kinds, which is longer.
// Starts a head at a tick.
#[tactic(auto, using(crate::proofs::Safe::start_safe), unfolding(crate::specs::Operations::starting))]
pub fn start(station: &mut Station, seat: Seat, tick: u32) -> Result<(), Refusal>
    ensures { done result station.new ≡ starting seat.me seat.n seat.period tick station.old }
{
    if !fits::fit_start(seat, tick, station) {
        return Err(Refusal::Unfit);
    }
    if station.up {
        return Err(Refusal::Up);
    }
    rules::start(station, seat.period, tick);
    Ok(())
}

// Crashes a head at a tick.
#[tactic(auto, unfolding(crate::specs::Operations::crashing))]
pub fn crash(station: &mut Station, seat: Seat, tick: u32) -> Result<(), Refusal>
    ensures { done result station.new ≡ crashing seat.me seat.n seat.period tick station.old }
{
    if !fits::fit_crash(seat, tick, station) {
        return Err(Refusal::Unfit);
    }
    station.crash();
    Ok(())
}

// Has a head hear LEADER from another, with its stamp, in a tick.
#[tactic(auto, using(crate::proofs::Safe::hear_safe), unfolding(crate::specs::Operations::hearing))]
pub fn hear(
    station: &mut Station,
    seat: Seat,
    tick: u32,
    from: u8,
    stamp: u32,
) -> Result<(), Refusal>
    ensures { done result station.new ≡ hearing seat.me seat.n seat.period tick from stamp station.old }
{
    if !fits::fit_hear(seat, tick, from, stamp, station) {
        return Err(Refusal::Unfit);
    }
    rules::hear(station, seat.me, from, stamp, tick);
    Ok(())
}

// Ends a head's timer in a tick.
#[tactic(auto, using(crate::proofs::Safe::expire_safe), unfolding(crate::specs::Operations::expiring))]
pub fn expire(station: &mut Station, seat: Seat, tick: u32) -> Result<(), Refusal>
    ensures { done result station.new ≡ expiring seat.me seat.n seat.period tick station.old }
{
    if !fits::fit_expire(seat, tick, station) {
        return Err(Refusal::Unfit);
    }
    rules::expire(station, seat.me);
    Ok(())
}

// Gives a head its send chance in a tick, and answers whether LEADER is sent.
#[tactic(auto, using(crate::proofs::Safe::slot_safe), unfolding(crate::specs::Operations::slotting))]
pub fn slot(station: &mut Station, seat: Seat, tick: u32) -> Result<bool, Refusal>
    ensures { sent result station.new ≡ slotting seat.me seat.n seat.period tick station.old }
{
    if !fits::fit_slot(seat, tick, station) {
        return Err(Refusal::Unfit);
    }
    let sends = rules::sends(seat.me, station);
    rules::slot(station, seat.me, seat.period, tick);
    Ok(sends)
}
