// The line of a command.
ghost use Rattle.std.specs.Prelude.{◌≡◌, ◌<◌, ◌≤◌, length, get_or};
ghost use Rattle.text.specs.Wrote.{Wrote};
ghost use Rattle.election.specs.Commands.{decode};
ghost use Rattle.script.specs.Entries.{entry, entries};
ghost use Rattle.script.specs.Pieces.{Phrased, line_room};
ghost use Rattle.script.specs.Shown.{spaced, line_of};

use crate::rules::entries::entry_at;
use text::rules::{Decimal, Text};

// The entry by which a command is written, and three numbers: the first of them, as many as the entry has, are those of the command.
#[derive(Clone, Copy, Debug, PartialEq, Eq)]
pub struct Phrase {
    pub entry: usize,
    pub numbers: [u64; 3],
}

// The byte at a place; 0 past the end.
pub fn number_at(bytes: &[u8], i: usize) -> u64
    ensures { (result ≡ get_or bytes.now i 0) × (result < 256) }
{
    bytes.get(i).map_or(0, |&b| u64::from(b))
}

// The entry and the numbers of the command at the front of the bytes.
fn phrase_of(bytes: &[u8]) -> Phrase
    ensures { Phrased (decode bytes.now) result }
{
    let b = number_at(bytes, 0);
    let x = number_at(bytes, 1);
    let y = number_at(bytes, 2);
    let z = number_at(bytes, 3);
    let numbers = [x, y, z];
    match b {
        1 => Phrase { entry: 1, numbers },
        2 => Phrase { entry: 2, numbers },
        3 => Phrase { entry: 3, numbers },
        4 => {
            if z == 0 {
                return Phrase { entry: 5, numbers };
            }
            Phrase { entry: 4, numbers }
        }
        // (d) number_at answers u64: u16::from_le_bytes would first cast both back to bytes
        5 => Phrase {
            entry: 6,
            numbers: [x + 256 * y, y, z],
        },
        6 => Phrase { entry: 7, numbers },
        8 => Phrase { entry: 9, numbers },
        9 => Phrase { entry: 0, numbers },
        _ => Phrase { entry: 8, numbers },
    }
}

// Writes the words of an entry.
fn put_name(k: usize, buffer: &mut [u8]) -> usize
    requires { (k < entries) × (length (entry k).name ≤ length buffer.old) }
    ensures { Wrote (entry k).name buffer.old result buffer.new }
{
    entry_at(k).name.put(buffer)
}

// Writes numbers, a space before each.
fn put_numbers(numbers: &[u64], buffer: &mut [u8]) -> usize
    requires { length (spaced numbers.now) ≤ length buffer.old }
    ensures { Wrote (spaced numbers.now) buffer.old result buffer.new }
{
    let mut at = 0;
    for &x in numbers {
        at += (" ", Decimal(x)).put(&mut buffer[at..]);
    }
    at
}

// How many numbers an entry has.
fn count_of(k: usize) -> usize
    requires { k < entries }
    ensures { (result ≡ (entry k).numbers) × (result ≤ 3) }
{
    entry_at(k).numbers
}

// Writes the line of the command at the front of the bytes.
pub fn put_line(bytes: &[u8], buffer: &mut [u8]) -> usize
    requires { length (line_of (decode bytes.now)) ≤ length buffer.old }
    ensures { Wrote (line_of (decode bytes.now)) buffer.old result buffer.new }
{
    let phrase = phrase_of(bytes);
    let k = phrase.entry;
    let numbers = phrase.numbers;
    let n = count_of(k);
    let a = put_name(k, buffer);
    let b = a + put_numbers(&numbers[..n], &mut buffer[a..]);
    b + "\n".put(&mut buffer[b..])
}

// How long that line is.
pub fn line_size(bytes: &[u8]) -> usize
    ensures { (result ≡ length (line_of (decode bytes.now))) × (result ≤ line_room) }
{
    let mut scratch = [0u8; 80];
    put_line(bytes, &mut scratch)
}
