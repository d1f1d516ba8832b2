// The cases of frames: what writing and reading answer, and what they leave.
use crate::line::{Commas, Line, Octets};
use crate::numbers::capped;
use crate::row::Row;
use frame::stamp::Stamp;
use frame::{Leader, WriteError, stamp};
use std::array;

// What writing answers, and the buffer.
fn shown(name: Line, written: Result<usize, WriteError>, buffer: &[u8]) -> Line {
    let refusal = written.err().map(|why| why.number());
    name.told(refusal, written.unwrap_or(0))
        .with(", buffer")
        .with(Octets(buffer))
}

// Writes a frame of the first of the sixteen counts; no case asks for more.
pub fn write_case(name: Line, row: &Row, buffer: &mut [u8]) -> Option<Line> {
    let xs = &row.numbers;
    let counts: [u16; 16] = array::from_fn(|k| capped(xs[40 + k], u16::MAX));
    let counts = counts.get(..usize::from(capped(xs[34], u8::MAX)))?;
    let written = frame::write(
        capped(xs[32], u8::MAX),
        capped(xs[33], u8::MAX),
        counts,
        buffer,
    );
    Some(shown(name, written, buffer))
}

// Reads a frame; refused, it has no sender and no counts.
pub fn read_case(name: Line, row: &Row, bytes: &[u8]) -> Line {
    let read = frame::read(capped(row.numbers[32], u8::MAX), bytes);
    let refusal = read.err().map(|why| why.number());
    let Leader { sender, counts } = read.unwrap_or(Leader {
        sender: 0,
        counts: [0; 8],
    });
    let counts = Commas(&counts);
    name.answer(refusal)
        .with(format_args!(", sender {sender}, counts {counts}"))
}

// Writes a clock frame.
pub fn stamp_write_case(name: Line, row: &Row, buffer: &mut [u8]) -> Line {
    let xs = &row.numbers;
    let written = stamp::write(
        capped(xs[32], u8::MAX),
        capped(xs[33], u8::MAX),
        capped(xs[34], u32::MAX),
        buffer,
    );
    shown(name, written, buffer)
}

// Reads a clock frame; refused, it has no sender and no stamp.
pub fn stamp_read_case(name: Line, row: &Row, bytes: &[u8]) -> Line {
    let read = stamp::read(capped(row.numbers[32], u8::MAX), bytes);
    let refusal = read.err().map(|why| why.number());
    let Stamp { sender, stamp } = read.unwrap_or(Stamp {
        sender: 0,
        stamp: 0,
    });
    name.answer(refusal)
        .with(format_args!(", sender {sender}, stamp {stamp}"))
}
