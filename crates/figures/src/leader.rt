// The first of the up stations by starts, rank and number.
ghost use Rattle.std.specs.Prelude.{◌≡◌};
ghost use Rattle.figures.specs.Figures.{LeadsOf};
ghost use Rattle.figures.specs.Pieces.{counts_of, first_of};

use crate::stations::up_at;
use station::Station;
use station::rules::precedes;
use std::array;

// The start counts of the stations.
fn counts_of(stations: &[Station; 8]) -> [u16; 8]
    ensures { result ≡ counts_of stations.now }
{
    array::from_fn(|k| stations[k].incarnation)
}

// The first so far, l, and station p: p if it is up and there is none so far or it is before l, else l.
fn first_of(ranks: &[u8; 8], counts: &[u16; 8], up: bool, p: u8, l: u8) -> u8
    ensures { result ≡ first_of ranks.now counts.now up p l }
{
    if up && (l == 0 || precedes(ranks, counts, p, l)) {
        p
    } else {
        l
    }
}

// The first of the up ones of n stations, or 0.
// (d) The loop goes station by station, as `LeadsOf` is shown: the least of candidates would need each up station's count, rank and number put together, and a law of `min` over them.
pub fn leader(n: u8, stations: &[Station; 8], ranks: &[u8; 8]) -> u8
    ensures { LeadsOf n stations.now ranks.now result }
{
    let counts = counts_of(stations);
    let mut l = 0;
    for k in 0..usize::from(n) {
        l = first_of(ranks, &counts, up_at(stations, k), k as u8 + 1, l);
    }
    l
}
