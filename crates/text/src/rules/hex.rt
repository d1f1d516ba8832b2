// Hex text, read into the front of a buffer and written there.
ghost use Rattle.std.specs.Prelude.{◌≡◌, ◌<◌, ◌≤◌, IfSome, Some, None, cond, length};
ghost use Rattle.text.specs.Hex.{is_blank, is_digit, digit_of, digit, read, spelled, spaced};
ghost use Rattle.text.specs.Wrote.{Wrote};

// Whether a character is a space, a tab or a carriage return.
#[tactic(auto, unfolding(crate::specs::Hex::is_blank))]
pub fn is_blank(c: u8) -> bool
    ensures { result ≡ is_blank c }
{
    matches!(c, b' ' | b'\t' | b'\r')
}

// The value of a hex digit, in either case; none for any other character.
#[tactic(auto, unfolding(crate::specs::Hex::digit_of))]
pub fn digit_of(c: u8) -> Option<u8>
    ensures { result ≡ cond (is_digit c) (Some (digit_of c)) None }
{
    match c {
        b'0'..=b'9' => Some(c - b'0'),
        b'A'..=b'F' => Some(c - b'A' + 10),
        b'a'..=b'f' => Some(c - b'a' + 10),
        _ => None,
    }
}

// Reads a line of hex text into the front of the buffer, and answers how many bytes there are; none where it is no hex.
pub fn read_hex(line: &[u8], buffer: &mut [u8]) -> Option<usize>
    requires { length line.now ≤ length buffer.old }
    ensures buffer_after { read result buffer.new ≡ spelled line.now }
    ensures size_in_bounds { IfSome result (λ size. size ≤ length buffer.new) }
{
    let mut size = 0;
    let mut rest = line;
    loop {
        match rest {
            [] => return Some(size),
            [c, after @ ..] if is_blank(*c) => rest = after,
            [high, low, after @ ..] => {
                buffer[size] = 16 * digit_of(*high)? + digit_of(*low)?;
                size += 1;
                rest = after;
            }
            _ => return None,
        }
    }
}

// The digit of a number below 16, in lower case.
#[tactic(auto, unfolding(crate::specs::Hex::digit))]
fn digit_for(d: u8) -> u8
    requires { d < 16 }
    ensures { result ≡ digit d }
{
    if d < 10 { b'0' + d } else { b'a' + (d - 10) }
}

// Writes bytes as hex text in lower case, a space before each.
pub fn put_hex(bytes: &[u8], buffer: &mut [u8]) -> usize
    requires { length (spaced bytes.now) ≤ length buffer.old }
    ensures { Wrote (spaced bytes.now) buffer.old result buffer.new }
{
    let mut at = 0;
    for &b in bytes {
        buffer[at] = b' ';
        buffer[at + 1] = digit_for(b / 16);
        buffer[at + 2] = digit_for(b % 16);
        at += 3;
    }
    at
}
