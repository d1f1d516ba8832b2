// What is said for what was read, mode by mode.
ghost use Rattle.std.specs.Prelude.{◌≡◌, ◌≤◌, length};
ghost use Rattle.election.specs.Schedule.{most_bytes};
ghost use Rattle.desk.specs.Said.{most_text};
ghost use Rattle.desk.specs.Spoken.{Prepares, SpokenTo};
ghost use Rattle.desk.specs.declared.asked.Mode.TheVariants as modes;

use crate::wording::{put_long_text, put_no_text, put_wrong_line};
use calls::Cut;
use calls::streams::{Stream, write_to};
use script::{assemble, show};
use std::io::Write;

// Reads a text: so many bytes at the front of one buffer; or what is wrong with it, so many characters at the front of the other.
// (d) The Err is the length of the complaint that was written.
pub fn prepare(given: &[u8], bytes: &mut [u8], line: &mut [u8]) -> Result<usize, usize>
    requires { (length bytes.old ≡ most_bytes) × (200 ≤ length line.old) }
    ensures { Prepares given.now result bytes.new line.new }
{
    if 524288 < given.len() {
        return Err(put_long_text(line));
    }
    let r = assemble(given, bytes);
    // (c) by map_err the proof knows nothing of what its closure wrote in the line
    match r {
        Ok(n) => Ok(n),
        Err(wrong) => Err(put_wrong_line(wrong, line)),
    }
}

// Says the bytes of a text.
pub fn say_bytes<O: Write, E: Write>(
    out: &mut O,
    err: &mut E,
    given: &[u8],
    bytes: &mut [u8],
) -> Result<(), Cut>
    requires { length bytes.old ≡ most_bytes }
    ensures { SpokenTo modes.Bytes given.now result
        (O.contents out.old) (O.contents out.new) (E.contents err.old) (E.contents err.new) }
{
    let mut line = io::buffer();
    let r = prepare(given, bytes, &mut line);
    match r {
        Ok(n) => write_to(out, err, Stream::Output, &bytes[..n]),
        Err(n) => write_to(out, err, Stream::Error, &line[..n]),
    }
}

// Says the text of bytes.
pub fn say_text<O: Write, E: Write>(
    out: &mut O,
    err: &mut E,
    given: &[u8],
    text: &mut [u8],
) -> Result<(), Cut>
    requires { length text.old ≡ most_text }
    ensures { SpokenTo modes.Text given.now result
        (O.contents out.old) (O.contents out.new) (E.contents err.old) (E.contents err.new) }
{
    let r = show(given, text);
    match r {
        Ok(n) => write_to(out, err, Stream::Output, &text[..n]),
        Err(none) => {
            let mut line = io::buffer();
            let n = put_no_text(none, &mut line);
            write_to(out, err, Stream::Error, &line[..n])
        }
    }
}
