// Decimal numbers.
ghost use Rattle.std.specs.Prelude.{◌≡◌, ◌+◌, ◌*◌, ◌-◌, ◌<◌, ◌≤◌, length, drop};
ghost use Rattle.script.specs.Decimals.{capped, valued};
ghost use Rattle.script.specs.Decimals.{numbers as Decimals·numbers};
ghost use Rattle.script.specs.Cursor.{ReadFirst};
ghost use Rattle.script.specs.Split.{words};

use crate::Why;
use crate::rules::words::word_at;

// A number with one digit more behind it.
fn grown(v: u32, c: u8) -> u32
    requires { (v < 1000002) × (48 ≤ c) × (c ≤ 57) }
    ensures { result ≡ capped (10 * v + (c - 48)) }
{
    (10 * v + u32::from(c - b'0')).min(1000001)
}

// The number that a word spells, 1,000,001 for any that is larger; none where it is no number.
pub fn value_of(word: &[u8]) -> Option<u32>
    ensures { result ≡ valued word.now }
{
    let mut v = 0;
    for &c in word {
        if !c.is_ascii_digit() {
            return None;
        }
        v = grown(v, c);
    }
    Some(v)
}

// The first of some numbers, and the place behind it.
#[derive(Clone, Copy, Debug, PartialEq, Eq)]
pub struct First {
    pub number: u32,
    pub end: usize,
}

// Reads the number at a place, which is in a range; or what is wrong with it.
fn read_first(least: u32, most: u32, text: &[u8], at: usize) -> Result<First, Why>
    requires { (most ≤ 1000000) × (at ≤ length text.now) }
    ensures { ReadFirst least most text.now at result }
{
    let word = word_at(text, at).ok_or(Why::NumberMissing)?;
    let end = word.end;
    let number = value_of(&text[word.start..end]).ok_or(Why::UnknownWord)?;
    if !(least..=most).contains(&number) {
        return Err(Why::NumberRange);
    }
    Ok(First { number, end })
}

// No numbers: there is no word more.
fn read_none(least: u32, most: u32, text: &[u8], at: usize) -> Result<[u32; 3], Why>
    requires { at ≤ length text.now }
    ensures { result ≡ Decimals·numbers 0 least most (words (drop at text.now)) }
{
    match word_at(text, at) {
        None => Ok([0; 3]),
        Some(_) => Err(Why::TooManyWords),
    }
}

// So many numbers in a range, at most three, from a place on, and no word more; 0 stands for those that aren't asked for. Or what is wrong.
pub fn read_numbers(
    left: usize,
    least: u32,
    most: u32,
    text: &[u8],
    at: usize,
) -> Result<[u32; 3], Why>
    requires { (most ≤ 1000000) × (at ≤ length text.now) }
    ensures { result ≡ Decimals·numbers left least most (words (drop at text.now)) }
{
    if left == 0 {
        return read_none(least, most, text, at);
    }
    let first = read_first(least, most, text, at)?;
    let others = read_numbers(left - 1, least, most, text, first.end)?;
    Ok([first.number, others[0], others[1]])
}
