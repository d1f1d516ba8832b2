// What the first n stations show: the longest start-up wait left, the longest timeout, and how many are up. Those past the table are down.
ghost use Rattle.std.specs.Prelude.{◌≡◌, ◌+◌};
ghost use Rattle.election.specs.System.{station_of};
ghost use Rattle.figures.specs.Pieces.{wait_of, held_for, timeout_of, wait_over, timeout_over, up_over};

use station::Station;

// The start-up wait that a station has left.
fn wait_of(tick: u32, x: &Station) -> u32
    ensures { result ≡ wait_of tick x.now }
{
    if x.up && x.recovering {
        x.slot.saturating_sub(tick)
    } else {
        0
    }
}

// The longest start-up wait left.
pub fn longest_wait(n: u8, tick: u32, stations: &[Station; 8]) -> u32
    ensures { result ≡ wait_over n tick stations.now }
{
    stations
        .iter()
        .take(usize::from(n))
        .map(|x| wait_of(tick, x))
        .max()
        .unwrap_or(0)
}

// The longest timeout for another of n stations than that of place k.
fn held_for(n: u8, k: usize, timeouts: &[u32; 8]) -> u32
    ensures { result ≡ held_for n k timeouts.now }
{
    timeouts
        .iter()
        .enumerate()
        .take(usize::from(n))
        .map(|(i, &timeout)| if i == k { 0 } else { timeout })
        .max()
        .unwrap_or(0)
}

// The longest timeout that the station of place k holds, 0 if it is down.
fn timeout_of(n: u8, k: usize, x: &Station) -> u32
    ensures { result ≡ timeout_of n k x.now }
{
    if x.up { held_for(n, k, &x.timeouts) } else { 0 }
}

// The longest timeout that an up station holds.
pub fn longest_timeout(n: u8, stations: &[Station; 8]) -> u32
    ensures { result ≡ timeout_over n stations.now }
{
    stations
        .iter()
        .enumerate()
        .take(usize::from(n))
        .map(|(k, x)| timeout_of(n, k, x))
        .max()
        .unwrap_or(0)
}

// Whether the station at place k is up.
pub fn up_at(stations: &[Station; 8], k: usize) -> bool
    ensures { result ≡ (station_of stations.now (k + 1)).up }
{
    stations.get(k).is_some_and(|x| x.up)
}

// How many stations are up.
pub fn up_heads(n: u8, stations: &[Station; 8]) -> u8
    ensures { result ≡ up_over n stations.now }
{
    stations
        .iter()
        .take(usize::from(n))
        .filter(|x| x.up)
        .count() as u8
}
