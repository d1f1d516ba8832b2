// The steps of a tick: what is asked of a station, and its sent count.
ghost use Rattle.std.specs.Prelude.{◌≡◌, ◌&&◌, not, ◌+◌, ◌-◌, ◌≤◌, eqb};
ghost use Rattle.ticks.specs.Sending.{Full, timer_ends, sends_now};

use heads::rules::announces;
use layout::Layout;
use station::Station;

// Whether the timer of an up station is due now.
pub(crate) fn timer_ends(now: u32, x: &Station) -> bool
    ensures { result ≡ timer_ends now x.now }
{
    x.up && x.timer == now
}

// Whether a station that has settled sends LEADER in this tick.
pub(crate) fn sends_now(clock: bool, me: u8, now: u32, x: &Station) -> bool
    ensures { result ≡ sends_now clock me now x.now }
{
    x.up && x.slot == now && announces(clock, me, x)
}

// Whether a sending goes over the link from place p to place q: to another station, and not over a link that is cut.
pub(crate) fn goes(p: usize, q: usize, delay: u32) -> bool
    ensures { result ≡ (not (eqb p q) && not (eqb delay 0)) }
{
    p != q && delay != 0
}

// A sent count after a sending to all others.
pub(crate) fn sent_more(n: u8, sent: u32) -> u32
    requires { (1 ≤ n) × (n ≤ 8) × (sent ≤ 7000000) }
    ensures { result ≡ sent + (n - 1) }
{
    sent + u32::from(n - 1)
}

// What the types of a layout's arrays say, for a layout that is lent: how many they hold. Nothing is done.
#[inline(always)]
pub(crate) fn full(_x: Layout)
    ensures { Full _x }
{}
