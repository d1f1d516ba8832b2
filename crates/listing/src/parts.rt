// The parts of a listing as texts: those of a station's line, the line, and the verdict.
ghost use Rattle.std.specs.Prelude.{◌≡◌, ◌+◌, ◌≤◌, false};
ghost use Rattle.election.specs.Listing.{status, leader_of, vector_of, stamp_of, known_of, kept_of, station_line, verdict_line};

use election::Verdict;
use station::Station;
use text::rules::{Counts, Decimal, Either, Joined, OrDash, Text};

// A word and what stands behind it, - for none.
type Named<T> = (&'static str, OrDash<T>);

// A station's number and status. It and `Known` choose their words where they write them, and keep none: so the compiler knows the length of each.
#[derive(Clone, Copy)]
pub struct Status {
    number: u8,
    up: bool,
}

type StatusParts = (Decimal, &'static str);

impl Status {
    // Its number and its word, which can be taken apart and compared.
    #[tactic(auto, unfolding(election::specs::Listing::status))]
    pub fn parts(&self) -> StatusParts
        ensures { ⟦<StatusParts as Text>⟧.bytes result ≡ ⟦<Status as Text>⟧.bytes self.now }
    {
        let word = if self.up { " up" } else { " down" };
        (Decimal(u64::from(self.number)), word)
    }
}

impl Text for Status {
    ghost bytes = { λ shown. status shown.number shown.up };

    #[tactic(auto, unfolding(election::specs::Listing::status))]
    fn size(&self) -> usize {
        let number = Decimal(u64::from(self.number));
        if self.up {
            (number, " up").size()
        } else {
            (number, " down").size()
        }
    }

    #[tactic(auto, unfolding(election::specs::Listing::status))]
    fn put(&self, buffer: &mut [u8]) -> usize {
        let number = Decimal(u64::from(self.number));
        if self.up {
            (number, " up").put(buffer)
        } else {
            (number, " down").put(buffer)
        }
    }
}

type Leader = Named<Decimal>;

// A station's leader.
#[tactic(auto, unfolding(election::specs::Listing::leader_of))]
fn leader(up: bool, l: u8) -> Leader
    ensures { ⟦<Leader as Text>⟧.bytes result ≡ leader_of up l }
{
    (
        " leader ",
        OrDash((up && l > 0).then_some(Decimal(u64::from(l)))),
    )
}

type Vector<'a> = Named<Joined<Counts<'a>>>;

// A station's vector.
#[tactic(auto, unfolding(election::specs::Listing::vector_of))]
fn vector<'a>(n: usize, up: bool, counts: &'a [u16; 8]) -> Vector<'a>
    requires { n ≤ 8 }
    ensures { ⟦<Vector<'a> as Text>⟧.bytes result ≡ vector_of n up counts.now }
{
    (" rec ", OrDash(up.then_some(Joined(Counts(&counts[..n])))))
}

// The stamp of a clock head.
#[tactic(auto, unfolding(election::specs::Listing::stamp_of))]
fn stamp(x: &Station) -> Named<Decimal>
    ensures { ⟦<Named<Decimal> as Text>⟧.bytes result ≡ stamp_of x.now.up x.now.stamp }
{
    (
        " stamp ",
        OrDash(x.up.then_some(Decimal(u64::from(x.stamp)))),
    )
}

type Counted<'a> = ((&'static str, Decimal), Vector<'a>);

// What a station knows: its count and its vector, or the stamp of a clock head.
#[derive(Clone, Copy)]
pub struct Known<'a> {
    clock: bool,
    n: usize,
    x: &'a Station,
    ghost few: { n ≤ 8 },
}

type KnownParts<'a> = Either<(&'static str, Named<Decimal>), Counted<'a>>;

impl<'a> Known<'a> {
    // The stamp of a clock head, or the count and the vector, which can be taken apart and compared.
    #[tactic(auto, unfolding(election::specs::Listing::known_of))]
    pub fn parts(&self) -> KnownParts<'a>
        ensures { ⟦<KnownParts<'a> as Text>⟧.bytes result ≡ ⟦<Known<'a> as Text>⟧.bytes self.now }
    {
        if self.clock {
            Either::First((" inc -", stamp(self.x)))
        } else {
            Either::Second(self.counted())
        }
    }

    // The count and the vector.
    #[tactic(auto, unfolding(election::specs::Listing::known_of))]
    fn counted(&self) -> Counted<'a>
        ensures { ⟦<Counted<'a> as Text>⟧.bytes result ≡ known_of false self.now.n self.now.x.now }
    {
        let count = (" inc ", Decimal(u64::from(self.x.incarnation)));
        (count, vector(self.n, self.x.up, &self.x.recovered))
    }
}

impl Text for Known<'_> {
    ghost bytes = { λ known. known_of known.clock known.n known.x.now };

    #[tactic(auto, unfolding(election::specs::Listing::known_of))]
    fn size(&self) -> usize {
        if self.clock {
            (" inc -", stamp(self.x)).size()
        } else {
            self.counted().size()
        }
    }

    #[tactic(auto, unfolding(election::specs::Listing::known_of))]
    fn put(&self, buffer: &mut [u8]) -> usize {
        if self.clock {
            (" inc -", stamp(self.x)).put(buffer)
        } else {
            self.counted().put(buffer)
        }
    }
}

type Kept = Named<Decimal>;

// The leader that a station keeps; a clock head keeps none.
#[tactic(auto, unfolding(election::specs::Listing::kept_of))]
fn kept(clock: bool, l: u8) -> Kept
    ensures { ⟦<Kept as Text>⟧.bytes result ≡ kept_of clock l }
{
    (" kept ", OrDash((!clock).then_some(Decimal(u64::from(l)))))
}

pub type Line<'a> = (
    ((Status, Leader, Known<'a>), (&'static str, Decimal), Kept),
    &'static str,
);

// The line of station p.
#[tactic(auto, unfolding(election::specs::Listing::station_line))]
pub fn line<'a>(clock: bool, n: usize, p: u8, x: &'a Station, sent: u32) -> Line<'a>
    requires { n ≤ 8 }
    ensures { ⟦<Line<'a> as Text>⟧.bytes result ≡ station_line clock n p x.now sent }
{
    let shown = (
        Status {
            number: p,
            up: x.up,
        },
        leader(x.up, x.leader),
        Known { clock, n, x },
    );
    (
        (
            shown,
            (" sent ", Decimal(u64::from(sent))),
            kept(clock, x.stable),
        ),
        "\n",
    )
}

pub type Ending = Either<&'static str, (&'static str, Decimal, &'static str)>;

// The line of a verdict.
#[tactic(auto, unfolding(election::specs::Listing::verdict_line))]
pub fn ending(verdict: Verdict) -> Ending
    ensures { ⟦<Ending as Text>⟧.bytes result ≡ verdict_line verdict }
{
    match verdict {
        Verdict::Dark => Either::First("dark\n"),
        Verdict::Agreed(l) => Either::Second(("agreed ", Decimal(u64::from(l)), "\n")),
        Verdict::AgreedDark(l) => Either::Second(("agreed dark ", Decimal(u64::from(l)), "\n")),
        Verdict::Split => Either::First("split\n"),
    }
}
