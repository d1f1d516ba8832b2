// The search for agreement: one scan over the stations.
ghost use Rattle.std.specs.Prelude.{◌≡◌, ◌≤◌, ◌&&◌, length, leb};
ghost use Rattle.election.specs.System.{station_of};
ghost use Rattle.election.specs.Search.{searched};
ghost use Rattle.listing.specs.Scan.{ends_search};

use election::{Searched, Verdict};
use station::Station;

// Whether a station ends the search: it is up, and trusts nobody or another leader than the up ones before it.
fn ends_search(x: &Station, leader: Option<u8>) -> bool
    ensures { result ≡ ends_search leader x.now }
{
    x.up && (x.leader == 0 || leader.is_some_and(|l| x.leader != l))
}

// Whether the station of a number is one of these, and up.
fn is_up(seats: &[Station], number: u8) -> bool
    requires { 1 ≤ number }
    ensures { result ≡ (leb number (length seats.now) && (station_of seats.now number).up) }
{
    usize::from(number) <= seats.len() && seats[usize::from(number) - 1].up
}

// Searches the first n stations for agreement; those past the table count as down. The scan ends at the first up station that trusts nobody or
// another leader than the up ones before it, else at station n.
pub fn search(n: u8, stations: &[Station; 8]) -> Searched
    ensures { result ≡ searched n stations.now }
{
    let seats = &stations[..usize::from(n.min(8))];
    // the leader that the up ones of the stations so far trust
    let mut leader = None;
    for (k, x) in seats.iter().enumerate() {
        if ends_search(x, leader) {
            return Searched {
                finding: Verdict::Split,
                ended: k as u8 + 1,
            };
        }
        leader = x.up.then_some(x.leader).or(leader);
    }
    let finding = match leader {
        None => Verdict::Dark,
        Some(l) if is_up(seats, l) => Verdict::Agreed(l),
        Some(l) => Verdict::AgreedDark(l),
    };
    Searched { finding, ended: n }
}
