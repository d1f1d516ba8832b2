// The figure to quote, as a text, and written into a buffer that has room.
ghost use Rattle.std.specs.Prelude.{◌≡◌, ◌≤◌, length};
ghost use Rattle.text.specs.Wrote.{Wrote};
ghost use Rattle.desk.specs.Figure.{waits, heads, bound_line, numbers, conditions, promise, quoted, figure_of};

use figures::Figures;
use text::rules::{Decimal, Text};

// A word and a number behind it.
type Named = (&'static str, Decimal);

type Waits = (Named, Named, Named);

// W, M and B.
#[tactic(auto, unfolding(crate::specs::Figure::waits, text::specs::Quoted::text))]
fn waits(f: Figures) -> Waits
    ensures { ⟦<Waits as Text>⟧.bytes result ≡ waits f }
{
    (
        ("W ", Decimal(u64::from(f.wait))),
        (
            ", the longest start-up wait left\nM ",
            Decimal(u64::from(f.timeout)),
        ),
        (", the longest timeout\nB ", Decimal(u64::from(f.period))),
    )
}

type Heads = (Named, Named);

// How many heads are up, and L.
#[tactic(auto, unfolding(crate::specs::Figure::heads, text::specs::Quoted::text))]
fn heads(f: Figures) -> Heads
    ensures { ⟦<Heads as Text>⟧.bytes result ≡ heads f }
{
    (
        (", the period\nk ", Decimal(u64::from(f.heads))),
        (", the heads that are up\nL ", Decimal(u64::from(f.leader))),
    )
}

type BoundLine = (&'static str, Decimal, &'static str);

// The bound.
#[tactic(auto, unfolding(crate::specs::Figure::bound_line, text::specs::Quoted::text))]
fn bound_line(most: u64) -> BoundLine
    ensures { ⟦<BoundLine as Text>⟧.bytes result ≡ bound_line most }
{
    (
        ", the first of them by starts, rank and number\nbound ",
        Decimal(most),
        " ticks\n",
    )
}

type Numbers = (Waits, Heads, BoundLine);

// The numbers, a line for each.
#[tactic(auto, unfolding(crate::specs::Figure::numbers))]
fn numbers(f: Figures, most: u64) -> Numbers
    ensures { ⟦<Numbers as Text>⟧.bytes result ≡ numbers f most }
{
    (waits(f), heads(f), bound_line(most))
}

type Conditions = (Named, Named);

// Under which conditions.
#[tactic(auto, unfolding(crate::specs::Figure::conditions, text::specs::Quoted::text))]
fn conditions(d: u16, most: u64) -> Conditions
    ensures { ⟦<Conditions as Text>⟧.bytes result ≡ conditions d most }
{
    (
        (
            "As long as no head starts or crashes, no message between heads that are up is lost or cut, and each message to one of them, under way or sent later, takes at most ",
            Decimal(u64::from(d)),
        ),
        (" ticks more, at most ", Decimal(most)),
    )
}

type Promise = (Named, Named, &'static str);

// What is promised.
#[tactic(auto, unfolding(crate::specs::Figure::promise, text::specs::Quoted::text))]
fn promise(leader: u8) -> Promise
    ensures { ⟦<Promise as Text>⟧.bytes result ≡ promise leader }
{
    let leader = Decimal(u64::from(leader));
    (
        (
            " ticks from here on end with a head that is up not trusting station ",
            leader,
        ),
        (", and in all others no head but station ", leader),
        " sends.\n",
    )
}

type Quoted = (Numbers, Conditions, Promise);

// The figures, the bound and what they promise.
#[tactic(auto, unfolding(crate::specs::Figure::quoted))]
fn quoted(d: u16, f: Figures, most: u64) -> Quoted
    ensures { ⟦<Quoted as Text>⟧.bytes result ≡ quoted d f most }
{
    (numbers(f, most), conditions(d, most), promise(f.leader))
}

// Writes the figure of a system, by whether it is set up and whether its heads have a running clock, or why there is none.
#[tactic(auto, unfolding(crate::specs::Figure::figure_of, crate::specs::Figure::no_table, crate::specs::Figure::clock_table, crate::specs::Figure::none_up, text::specs::Quoted::text))]
pub fn put_figure(
    d: u16,
    ready: bool,
    clock: bool,
    f: Figures,
    most: u64,
    buffer: &mut [u8],
) -> usize
    requires { length (figure_of d ready clock f most) ≤ length buffer.old }
    ensures { Wrote (figure_of d ready clock f most) buffer.old result buffer.new }
{
    if !ready {
        "nothing is set up\n".put(buffer)
    } else if clock {
        "the heads have a running clock, and the bound is for heads with flash\n".put(buffer)
    } else if f.heads == 0 {
        "no head is up\n".put(buffer)
    } else {
        quoted(d, f, most).put(buffer)
    }
}
