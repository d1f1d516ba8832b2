// What a line of a text means, and its bytes.
ghost use Rattle.std.specs.Prelude.{◌≡◌, ◌≤◌, length, [], ◌∷◌, Ok};
ghost use Rattle.text.specs.Wrote.{Wrote};
ghost use Rattle.election.specs.Commands.{Run, decode, last_command};
ghost use Rattle.station.specs.Limits.{last_tick};
ghost use Rattle.script.specs.Assembled.{of_line, of_words};
ghost use Rattle.script.specs.Encoded.{encode, encode_all};
ghost use Rattle.script.specs.Entries.{runs, most_runs};
ghost use Rattle.script.specs.Meanings.{made_by, Suited, ProperLine, Proper, Reads, bytes_of, line_bytes, most_line_bytes};
ghost use Rattle.script.specs.Split.{words};

use crate::Why;
use crate::rules::entries::entry_at;
use crate::rules::finding::find;
use crate::rules::numbers::read_numbers;
use crate::rules::words::{Part, end_of, word_at};
use decision::widths::width;
use text::rules::put;

// A line: no command; a command, its byte and three operands, of which it has the first ones, as `decode` takes them; or a run of so many ticks.
#[derive(Clone, Copy, Debug, PartialEq, Eq)]
pub enum Line {
    Nothing,
    Command(u8, u8, u8, u8),
    Run(u32),
}

// What the byte of an entry makes of its numbers.
fn made(code: u8, x: u32, y: u32, z: u32) -> Line
    requires { Suited code x y z }
    ensures { Reads (Ok result) (made_by code x y z) }
{
    if code == 5 {
        return Line::Run(x);
    }
    Line::Command(code, x as u8, y as u8, z as u8)
}

// What the words of a line mean, or why it is wrong.
fn read_words(text: &[u8]) -> Result<Line, Why>
    ensures { Reads result (of_words (words text.now)) }
{
    if word_at(text, 0).is_none() {
        return Ok(Line::Nothing);
    }
    let found = find(text).ok_or(Why::UnknownWord)?;
    let e = entry_at(found.entry);
    let numbers = read_numbers(e.numbers, e.least, e.most, text, found.at)?;
    Ok(made(e.code, numbers[0], numbers[1], numbers[2]))
}

// What a line means, or why it is wrong.
pub fn read_line(line: &[u8]) -> Result<Line, Why>
    ensures { Reads result (of_line line.now) }
{
    let end = end_of(Part::Uncommented, line, 0);
    read_words(&line[..end])
}

// Writes the bytes of a command.
fn put_command(b: u8, x: u8, y: u8, z: u8, buffer: &mut [u8]) -> usize
    requires { (1 ≤ b) × (b ≤ last_command) × (length (encode (decode (b ∷ x ∷ y ∷ z ∷ []))) ≤ length buffer.old) }
    ensures { Wrote (encode (decode (b ∷ x ∷ y ∷ z ∷ []))) buffer.old result buffer.new }
{
    let bytes = [b, x, y, z];
    let size = 1 + width(b);
    put(&bytes[..size], buffer)
}

// Writes the bytes of one run.
fn put_run(t: u16, buffer: &mut [u8]) -> usize
    requires { length (encode (Run t)) ≤ length buffer.old }
    ensures { Wrote (encode (Run t)) buffer.old result buffer.new }
{
    let [low, high] = t.to_le_bytes();
    let bytes = [5, low, high];
    put(&bytes, buffer)
}

// Writes the bytes of a run of many ticks.
fn put_runs(t: u32, buffer: &mut [u8]) -> usize
    requires { (t ≤ last_tick) × (length (encode_all (runs most_runs t)) ≤ length buffer.old) }
    ensures { Wrote (encode_all (runs most_runs t)) buffer.old result buffer.new }
{
    // (d) as the definition has it: the longest run off what is left, and the rest last
    let mut left = t;
    let mut at = 0;
    while 65535 < left {
        at += put_run(65535, &mut buffer[at..]);
        left -= 65535;
    }
    at + put_run(left as u16, &mut buffer[at..])
}

// Writes the bytes of a line.
pub fn put_line(line: Line, buffer: &mut [u8]) -> usize
    requires { ProperLine line × (length (bytes_of line) ≤ length buffer.old) }
    ensures { Wrote (bytes_of line) buffer.old result buffer.new }
{
    match line {
        Line::Nothing => 0,
        Line::Command(b, x, y, z) => put_command(b, x, y, z, buffer),
        Line::Run(t) => put_runs(t, buffer),
    }
}

// How many bytes a line has.
pub fn line_size(line: Line) -> usize
    requires { ProperLine line }
    ensures { (result ≡ length (bytes_of line)) × (result ≤ most_line_bytes) }
{
    let mut bytes = [0u8; 48];
    put_line(line, &mut bytes)
}

// Writes the bytes of a line as it was read; one that is wrong has none.
#[tactic(auto, using(text::proofs::Parts::wrote_none), unfolding(crate::specs::Encoded::encode_all))]
pub fn put_read(line: Result<Line, Why>, buffer: &mut [u8]) -> usize
    requires { Proper line × (length (line_bytes line) ≤ length buffer.old) }
    ensures { Wrote (line_bytes line) buffer.old result buffer.new }
{
    match line {
        Ok(line) => put_line(line, buffer),
        Err(_) => 0,
    }
}

// The number of bytes of a line as it was read, 0 where it is wrong.
pub fn read_size(line: Result<Line, Why>) -> usize
    requires { Proper line }
    ensures { (result ≡ length (line_bytes line)) × (result ≤ most_line_bytes) }
{
    line.map_or(0, line_size)
}
