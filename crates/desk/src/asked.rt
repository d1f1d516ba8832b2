// What the arguments ask for.
ghost use Rattle.std.specs.Prelude.{◌≡◌, ◌≤◌, length, drop};
ghost use Rattle.script.specs.Decimals.{numbers};
ghost use Rattle.script.specs.Split.{words};
ghost use Rattle.desk.specs.Asked.{alone as Asked·alone};
ghost use Rattle.desk.specs.Asked.{delay_of, asking};

use script::rules::finding::same;
use script::rules::numbers::read_numbers;
use script::rules::words::word_at;

// Rehearse a text; write its bytes; write the text of bytes; tell the figure for delays up to so many ticks.
#[derive(Clone, Copy, Debug, PartialEq, Eq)]
pub enum Mode {
    Rehearse,
    Bytes,
    Text,
    Figure(u16),
}

// A mode that has no word behind it.
fn alone(line: &[u8], at: usize, mode: Mode) -> Option<Mode>
    requires { at ≤ length line.now }
    ensures { result ≡ Asked·alone (words (drop at line.now)) mode }
{
    word_at(line, at).is_none().then_some(mode)
}

// The delay behind figure.
fn read_delay(line: &[u8], at: usize) -> Option<Mode>
    requires { at ≤ length line.now }
    ensures { result ≡ delay_of (numbers 1 1 255 (words (drop at line.now))) }
{
    let delay = read_numbers(1, 1, 255, line, at).ok()?;
    Some(Mode::Figure(delay[0] as u16))
}

// What a line of arguments asks for; none where it asks for nothing that there is.
pub fn read_mode(line: &[u8]) -> Option<Mode>
    ensures { result ≡ asking line.now }
{
    let Some(word) = word_at(line, 0) else {
        return Some(Mode::Rehearse);
    };
    let start = word.start;
    let end = word.end;
    if same(b"bytes", &line[start..end]) {
        return alone(line, end, Mode::Bytes);
    }
    if same(b"text", &line[start..end]) {
        return alone(line, end, Mode::Text);
    }
    if same(b"figure", &line[start..end]) {
        return read_delay(line, end);
    }
    None
}
