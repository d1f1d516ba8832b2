// The program's arguments, on one line.
#![tactic(auto)]

ghost use Rattle.std.specs.Prelude.{◌≤◌, length, IfSome};
ghost use Rattle.std.specs.Io.{WritesAtMost};

use std::env::{Env, FillError};

// Puts argument k at the front of a line, and a blank after it; answers how long both are.
fn put_argument<R: Env>(rt: &R, k: usize, line: &mut [u8]) -> Result<usize, FillError>
    ensures { WritesAtMost result line.new }
{
    let size = rt.arg(k, line)?;
    if size == line.len() {
        return Err(FillError::TooLong);
    }
    line[size] = b' ';
    Ok(size + 1)
}

// Puts the arguments on a line, a blank after each; answers how long the line is, or `None` where there is no room for all of them.
pub fn gather<R: Env>(rt: &R, line: &mut [u8]) -> Option<usize>
    ensures { IfSome result (λ size. size ≤ length line.new) }
{
    let mut at = 0;
    // (d) the environment hands them out by number; the first that is missing ends them; each has a byte at least, its blank, so the line has room for few
    for k in 1..usize::MAX {
        match put_argument(rt, k, &mut line[at..]) {
            Ok(size) => at += size,
            Err(FillError::NotPresent) => break,
            Err(FillError::TooLong) => return None,
        }
    }
    Some(at)
}
