// The cases of listings: what each answers, and the buffer as it is then, to a bar.
use crate::line::Line;
use election::System;
use listing::listing;

// Lists a system into a buffer.
pub fn listing_case(name: Line, s: &System, buffer: &mut [u8]) -> Line {
    let listed = listing(s, buffer);
    let size = buffer.len();
    name.told(listed.err().map(|why| why.number()), listed.unwrap_or(0))
        .with(format_args!(" of {size}\n"))
        .bytes(buffer)
        .with("|")
}
