// A schedule as text: first measured, and written only where all of it fits.
ghost use Rattle.std.specs.Prelude.{◌≡◌, ◌<◌, length};
ghost use Rattle.text.specs.Wrote.{Wrote};
ghost use Rattle.election.specs.Commands.{decode};
ghost use Rattle.script.specs.Pieces.{found_known, found, whole, answer_of, text_of, HasText};
ghost use Rattle.script.specs.Shown.{is_idle};

use crate::rules::written::{line_size, number_at, put_line};
use crate::{NoText, NoTextAt};
use decision::widths::width;

// How many bytes a command has, and how many characters its line.
#[derive(Clone, Copy, Debug, PartialEq, Eq)]
pub struct Piece {
    pub width: usize,
    pub size: usize,
}

// Whether the command at the front of the bytes is a run of no ticks.
fn is_idle(bytes: &[u8]) -> bool
    ensures { result ≡ is_idle (decode bytes.now) }
{
    if number_at(bytes, 0) != 5 {
        return false;
    }
    // (d) number_at answers u64: u16::from_le_bytes would first cast both back to bytes
    number_at(bytes, 1) + 256 * number_at(bytes, 2) == 0
}

// One of the commands, or why it has no text, with room for so many characters.
fn look_known(bytes: &[u8], left: usize) -> Result<Piece, NoText>
    requires { 0 < length bytes.now }
    ensures { result ≡ found_known left bytes.now }
{
    let w = width(bytes[0]);
    if bytes.len() <= w {
        return Err(NoText::MissingOperand);
    }
    if is_idle(bytes) {
        return Err(NoText::NoTicks);
    }
    let size = line_size(bytes);
    if left < size {
        return Err(NoText::BufferShort);
    }
    Ok(Piece { width: 1 + w, size })
}

// The command at the front of the bytes, or why there is no text.
fn look(bytes: &[u8], left: usize) -> Result<Piece, NoText>
    requires { 0 < length bytes.now }
    ensures { result ≡ found left bytes.now }
{
    match bytes[0] {
        1..=9 => look_known(bytes, left),
        _ => Err(NoText::NoCommand),
    }
}

// How long the text of a schedule is, or what has none; nothing is written.
pub fn measure(bytes: &[u8], room: usize) -> Result<usize, NoTextAt>
    ensures { result ≡ answer_of (whole room bytes.now) }
{
    // (d) each command begins behind the last one, whose width its byte tells: no iterator over the bytes is plainer
    let mut at = 0;
    let mut size = 0;
    while at < bytes.len() {
        let piece = look(&bytes[at..], room - size).map_err(|why| NoTextAt { at, why })?;
        at += piece.width;
        size += piece.size;
    }
    Ok(size)
}

// Writes the text of a schedule that has one and fits.
// (d) It goes from command to command as `measure` does.
pub fn fill(bytes: &[u8], buffer: &mut [u8]) -> usize
    requires { HasText (whole (length buffer.old) bytes.now) }
    ensures { Wrote (text_of (whole (length buffer.old) bytes.now)) buffer.old result buffer.new }
{
    let mut at = 0;
    let mut size = 0;
    while at < bytes.len() {
        let w = width(bytes[at]);
        size += put_line(&bytes[at..], &mut buffer[size..]);
        at += 1 + w;
    }
    size
}
