// A text assembled line by line: measured first, then written.
ghost use Rattle.std.specs.Prelude.{◌≡◌, ◌+◌, ◌≤◌, ◌<◌, length};
ghost use Rattle.text.specs.Wrote.{Wrote};
ghost use Rattle.election.specs.Schedule.{most_bytes};
ghost use Rattle.script.specs.Assembled.{script};
ghost use Rattle.script.specs.Meanings.{meaning, Proper};
ghost use Rattle.script.specs.Passes.{LineAt, stepped, measured, bytes_in, Accepted};

use crate::rules::lines::{Line, line_size, put_line, read_line};
use crate::rules::words::{Part, end_of};
use crate::{Why, WrongLine};

// The line at a place, or why it is wrong, and where the next one begins.
#[derive(Clone, Copy, Debug, PartialEq, Eq)]
pub struct Turn {
    pub line: Result<Line, Why>,
    pub next: usize,
}

// Reads the line at a place.
pub fn line_at(text: &[u8], at: usize) -> Turn
    requires { at < length text.now }
    ensures { LineAt text.now at result.line result.next }
{
    let end = end_of(Part::Line, text, at);
    let line = read_line(&text[at..end]);
    if end < text.len() {
        return Turn {
            line,
            next: end + 1,
        };
    }
    Turn { line, next: end }
}

// How many bytes there are with a line behind others, or what is wrong: the line, or that they don't fit.
fn count_line(line: Result<Line, Why>, size: usize, room: usize) -> Result<usize, Why>
    requires { Proper line × (size ≤ most_bytes) }
    ensures { result ≡ stepped room size (meaning line) }
{
    let all = size + line_size(line?);
    if 65536 < all {
        return Err(Why::ScheduleLong);
    }
    if room < all {
        return Err(Why::BufferShort);
    }
    Ok(all)
}

// How many bytes a text gives, or the first line that is wrong.
pub fn measure(text: &[u8], room: usize) -> Result<usize, WrongLine>
    ensures { result ≡ measured (script room text.now) }
{
    // (d) `line_at` reads a line and tells where the next one begins; std's `split` says little of its parts
    let mut at = 0;
    let mut passed = 0;
    let mut size = 0;
    while at < text.len() {
        let turn = line_at(text, at);
        let line = passed + 1;
        size = count_line(turn.line, size, room).map_err(|why| WrongLine { line, why })?;
        passed += 1;
        at = turn.next;
    }
    Ok(size)
}

// Writes the bytes of a text that has no wrong line; so each line is there to unwrap.
// (d) It goes from line to line as `measure` does.
pub fn fill(text: &[u8], buffer: &mut [u8]) -> usize
    requires { Accepted (length buffer.old) text.now }
    ensures { Wrote (bytes_in (length buffer.old) text.now) buffer.old result buffer.new }
{
    let mut at = 0;
    let mut size = 0;
    while at < text.len() {
        let turn = line_at(text, at);
        let line = turn.line.unwrap();
        size += put_line(line, &mut buffer[size..]);
        at = turn.next;
    }
    size
}
