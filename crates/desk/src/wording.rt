// What desk says in words, written into a buffer that has room.
ghost use Rattle.std.specs.Prelude.{◌≡◌, ◌≤◌, length};
ghost use Rattle.text.specs.Wrote.{Wrote};
ghost use Rattle.election.specs.Commands.{number_of};
ghost use Rattle.election.specs.Schedule.{most_bytes, refusal_of, offset_of};
ghost use Rattle.desk.specs.Wording.{wrongness, wrong_line, textless, no_text, long_text, held_in, refused_in, ending, complaint};

use election::{Refusal, Stopped};
use script::rules::places::line_holding;
use script::rules::written::put_line;
use script::{NoText, NoTextAt, Why, WrongLine};
use text::rules::{Decimal, Text};
use words::rules::reasons::put_refused;

// Why a line is wrong.
#[tactic(auto, unfolding(crate::specs::Wording::wrongness, text::specs::Quoted::text))]
fn wrongness(why: Why) -> &'static str
    ensures { result.now ≡ wrongness why }
{
    match why {
        Why::UnknownWord => "unknown word",
        Why::NumberMissing => "a number is missing",
        Why::TooManyWords => "too many words",
        Why::NumberRange => "a number does not fit its place",
        Why::ScheduleLong => "the schedule has more than 65,536 bytes",
        Why::BufferShort => "the buffer is shorter than the schedule",
    }
}

// Writes that a line is wrong, and why.
#[tactic(auto, unfolding(crate::specs::Wording::wrong_line, text::specs::Quoted::text))]
pub fn put_wrong_line(wrong: WrongLine, buffer: &mut [u8]) -> usize
    requires { length (wrong_line wrong.line wrong.why) ≤ length buffer.old }
    ensures { Wrote (wrong_line wrong.line wrong.why) buffer.old result buffer.new }
{
    let line = ("desk: line ", Decimal(wrong.line as u64));
    ((line, ": ", wrongness(wrong.why)), "\n").put(buffer)
}

// Why bytes have no text.
#[tactic(auto, unfolding(crate::specs::Wording::textless, text::specs::Quoted::text))]
fn textless(why: NoText) -> &'static str
    ensures { result.now ≡ textless why }
{
    match why {
        NoText::NoCommand => "no command",
        NoText::MissingOperand => "operands are missing",
        NoText::NoTicks => "a run of no ticks, which has no text",
        NoText::ScheduleLong => "more than 65,536 bytes",
        NoText::BufferShort => "the buffer is shorter than the text",
    }
}

// Writes that the bytes from an offset on have no text, and why.
#[tactic(auto, unfolding(crate::specs::Wording::no_text, text::specs::Quoted::text))]
pub fn put_no_text(none: NoTextAt, buffer: &mut [u8]) -> usize
    requires { length (no_text none.at none.why) ≤ length buffer.old }
    ensures { Wrote (no_text none.at none.why) buffer.old result buffer.new }
{
    let byte = ("desk: byte ", Decimal(none.at as u64));
    ((byte, ": ", textless(none.why)), "\n").put(buffer)
}

// Writes that a text is too long.
#[tactic(auto, unfolding(crate::specs::Wording::long_text, text::specs::Quoted::text))]
pub fn put_long_text(buffer: &mut [u8]) -> usize
    requires { length long_text ≤ length buffer.old }
    ensures { Wrote long_text buffer.old result buffer.new }
{
    "desk: the text has more than 524,288 bytes\n".put(buffer)
}

// A command of a text's schedule: the text, the schedule and the command's offset in it.
#[derive(Clone, Copy)]
pub struct Held<'a> {
    pub given: &'a [u8],
    pub at: usize,
    pub bytes: &'a [u8],
    ghost inside: { (at ≤ most_bytes) × (at ≤ length bytes.now) },
}

// Writes the line of the text that holds a command, and the command.
#[tactic(auto, unfolding(crate::specs::Wording::held_in, text::specs::Quoted::text))]
pub fn put_held_in(held: &Held, buffer: &mut [u8]) -> usize
    requires { length (held_in held.now.given.now held.now.at held.now.bytes.now) ≤ length buffer.old }
    ensures { Wrote (held_in held.now.given.now held.now.at held.now.bytes.now) buffer.old result buffer.new }
{
    let line = Decimal(line_holding(held.given, held.at) as u64);
    let size = ("; line ", line, ": ").put(buffer);
    size + put_line(&held.bytes[held.at..], &mut buffer[size..])
}

// Writes a refusal and the command that is refused.
#[tactic(auto, unfolding(crate::specs::Wording::refused_in))]
pub fn put_refused_in(why: Refusal, held: &Held, buffer: &mut [u8]) -> usize
    requires { length (refused_in (number_of why) held.now.given.now held.now.at held.now.bytes.now) ≤ length buffer.old }
    ensures { Wrote (refused_in (number_of why) held.now.given.now held.now.at held.now.bytes.now) buffer.old result buffer.new }
{
    let size = put_refused(why, buffer);
    size + put_held_in(held, &mut buffer[size..])
}

// Writes a refusal as a complaint.
#[tactic(auto, unfolding(crate::specs::Wording::complaint, text::specs::Quoted::text))]
pub fn put_complaint(why: Refusal, held: &Held, buffer: &mut [u8]) -> usize
    requires { length (complaint (number_of why) held.now.given.now held.now.at held.now.bytes.now) ≤ length buffer.old }
    ensures { Wrote (complaint (number_of why) held.now.given.now held.now.at held.now.bytes.now) buffer.old result buffer.new }
{
    let size = "desk: ".put(buffer);
    size + put_refused_in(why, held, &mut buffer[size..])
}

// Writes how a rehearsal ended.
pub fn put_ending(
    ended: Result<usize, Stopped>,
    given: &[u8],
    bytes: &[u8],
    buffer: &mut [u8],
) -> usize
    requires { (offset_of ended ≤ most_bytes) × (offset_of ended ≤ length bytes.now) × (length (ending (refusal_of ended) given.now (offset_of ended) bytes.now) ≤ length buffer.old) }
    ensures { Wrote (ending (refusal_of ended) given.now (offset_of ended) bytes.now) buffer.old result buffer.new }
{
    match ended {
        Ok(_) => "end\n".put(buffer),
        Err(Stopped { at, refusal }) => put_refused_in(refusal, &Held { given, at, bytes }, buffer),
    }
}
