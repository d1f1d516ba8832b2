// Why something is turned down, in words.
ghost use Rattle.std.specs.Prelude.{◌≡◌, ◌≤◌, length};
ghost use Rattle.text.specs.Wrote.{Wrote};
ghost use Rattle.election.specs.Commands.{number_of};
ghost use Rattle.words.specs.Reasons.{reason, refused};

use election::Refusal;
use text::rules::{Decimal, Text};

// The reason of a refusal.
#[tactic(auto, unfolding(crate::specs::Reasons::reason, text::specs::Quoted::text))]
pub fn reason(why: Refusal) -> &'static str
    ensures { result.now ≡ reason (number_of why) }
{
    match why {
        Refusal::UnknownCommand => "the byte is none of the nine commands",
        Refusal::MissingOperand => "operands are missing",
        Refusal::NotSetUp => "nothing is set up",
        Refusal::SetUpTwice => "set up a second time",
        Refusal::StationsRange => "stations not 2 to 8",
        Refusal::PeriodRange => "period not 16 to 255",
        Refusal::StationRange => "a station number not 1 to n",
        Refusal::StationUp => "the station to start is up",
        Refusal::StationDown => "the station to crash is down",
        Refusal::WornOut => "the station to start has been started 4095 times",
        Refusal::SameStation => "a link from a station to itself",
        Refusal::NoTicks => "a run of no ticks",
        Refusal::PastLastTick => "a run past tick 1,000,000",
        Refusal::Unsound => "the table is unsound",
        Refusal::BufferShort => "the buffer is shorter than the listing",
        Refusal::ScheduleLong => "more than 65,536 bytes",
        Refusal::RankRange => "a rank above 7",
        Refusal::AlreadyStarted => "a rank after the first start of any station",
        Refusal::ClockHeads => "a rank on heads with a running clock",
    }
}

// Writes the reason of a refusal.
pub fn put_reason(why: Refusal, buffer: &mut [u8]) -> usize
    requires { length (reason (number_of why)) ≤ length buffer.old }
    ensures { Wrote (reason (number_of why)) buffer.old result buffer.new }
{
    reason(why).put(buffer)
}

// Writes a refusal: its number and its reason.
#[tactic(auto, unfolding(crate::specs::Reasons::refused, text::specs::Quoted::text))]
pub fn put_refused(why: Refusal, buffer: &mut [u8]) -> usize
    requires { length (refused (number_of why)) ≤ length buffer.old }
    ensures { Wrote (refused (number_of why)) buffer.old result buffer.new }
{
    let number = Decimal(u64::from(why.number()));
    (("refused ", number), ", ", reason(why)).put(buffer)
}
