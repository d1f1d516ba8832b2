// Schedules as text: one command to a line, words and decimal numbers; # begins a comment, and blank lines are fine.
#![tactic(auto)]

ghost use Rattle.std.specs.Prelude.{◌≡◌};
ghost use Rattle.script.specs.Assembled.{assembled as Assembled·assembled};
ghost use Rattle.script.specs.Shown.{shown as Shown·shown};

pub mod rules;

// Why a line is wrong: an unknown word; a number is missing; more words than the command has; a number that doesn't fit its place; with it the schedule
// has more than 65,536 bytes, or more than there is room for.
#[derive(Clone, Copy, Debug, PartialEq, Eq)]
pub enum Why {
    UnknownWord,
    NumberMissing,
    TooManyWords,
    NumberRange,
    ScheduleLong,
    BufferShort,
}

// The first line of a text that is wrong, the first line being 1, and why.
#[derive(Clone, Copy, Debug, PartialEq, Eq)]
pub struct WrongLine {
    pub line: usize,
    pub why: Why,
}

// Why bytes have no text: no command; operands are missing; a run of no ticks; more than 65,536 bytes; the text is longer than the buffer.
#[derive(Clone, Copy, Debug, PartialEq, Eq)]
pub enum NoText {
    NoCommand,
    MissingOperand,
    NoTicks,
    ScheduleLong,
    BufferShort,
}

// The offset of what has no text, and why.
#[derive(Clone, Copy, Debug, PartialEq, Eq)]
pub struct NoTextAt {
    pub at: usize,
    pub why: NoText,
}

// Writes the bytes of a text's schedule to the front of the buffer, and answers how many they are; or the first line that is wrong. Refused, the buffer is untouched.
pub fn assemble(text: &[u8], buffer: &mut [u8]) -> Result<usize, WrongLine>
    ensures { record { answer = result; buffer = buffer.new } ≡ Assembled·assembled text.now buffer.old }
{
    rules::assembling::measure(text, buffer.len())?;
    Ok(rules::assembling::fill(text, buffer))
}

// Writes the text of a schedule, one command to a line, to the front of the buffer, and answers how many characters it has; or the offset of what has no text. Refused, the buffer is untouched.
pub fn show(bytes: &[u8], buffer: &mut [u8]) -> Result<usize, NoTextAt>
    ensures { record { answer = result; buffer = buffer.new } ≡ Shown·shown bytes.now buffer.old }
{
    if 65536 < bytes.len() {
        return Err(NoTextAt {
            at: 0,
            why: NoText::ScheduleLong,
        });
    }
    rules::showing::measure(bytes, buffer.len())?;
    Ok(rules::showing::fill(bytes, buffer))
}
