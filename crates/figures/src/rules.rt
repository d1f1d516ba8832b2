// The figures of a system, and the bound of demand 3 from them. No sum wraps, whatever the system holds.
ghost use Rattle.std.specs.Prelude.{◌≡◌, ◌-◌, ◌*◌, ◌/◌, ◌≤◌};
ghost use Rattle.settling.specs.Settling.{bound as Settling·bound};
ghost use Rattle.figures.specs.Figures.{Figured};
ghost use Rattle.figures.specs.Pieces.{bound_of};

use crate::Figures;
use crate::leader::leader;
use crate::stations::{longest_timeout, longest_wait, up_heads};
use election::System;

// The figures of a system.
pub fn figures(s: &System) -> Figures
    ensures { Figured s.now result }
{
    Figures {
        wait: longest_wait(s.n, s.tick, &s.stations),
        timeout: longest_timeout(s.n, &s.stations),
        period: s.period,
        heads: up_heads(s.n, &s.stations),
        leader: leader(s.n, &s.stations, &s.ranks),
    }
}

// The last part of the bound: for each up head but one.
fn followers(heads: u8, d: u16) -> u64
    ensures value { result ≡ (heads - 1) * (d - 1) * (d - 2) / 2 }
    ensures upper_bound { result ≤ 254 * 65534 * 65533 }
{
    let d = u64::from(d);
    u64::from(heads.saturating_sub(1)) * d.saturating_sub(1) * d.saturating_sub(2) / 2
}

// The bound of demand 3 from the figures of a system.
pub fn bound_of(d: u16, f: Figures) -> u64
    ensures { result ≡ bound_of d f }
{
    u64::from(f.wait)
        + u64::from(f.timeout)
        + 3 * u64::from(d)
        + u64::from(f.period)
        + followers(f.heads, d)
}

// The bound of demand 3 for a system.
pub fn bound_ticks(d: u16, s: &System) -> u64
    ensures { result ≡ Settling·bound d s.now }
{
    bound_of(d, figures(s))
}
