// A line of text: made piece by piece, and written whole.
use arrayvec::ArrayVec;
use calls::write_message;
use std::fmt::{Display, Write};
use std::{fmt, io};

// The first 512 bytes of a line; a full one takes no more.
#[derive(Clone, Drop)]
pub struct Line(ArrayVec<u8, 512>);

// Bytes in hex, a space before each.
#[derive(Clone, Copy)]
pub struct Octets<'a>(pub &'a [u8]);

impl Display for Octets<'_> {
    fn fmt<W: fmt::Write>(&self, f: &mut fmt::Formatter<W>) -> fmt::Result {
        for byte in self.0 {
            write!(f, " {byte:02x}")?;
        }
        Ok(())
    }
}

// Numbers, a comma between each two.
#[derive(Clone, Copy)]
pub struct Commas<'a, T>(pub &'a [T]);

impl<T: Display> Display for Commas<'_, T> {
    fn fmt<W: fmt::Write>(&self, f: &mut fmt::Formatter<W>) -> fmt::Result {
        let mut comma = "";
        for number in self.0 {
            write!(f, "{comma}{number}")?;
            comma = ",";
        }
        Ok(())
    }
}

impl Write for Line {
    fn write_str(&mut self, text: &str) -> fmt::Result {
        self.push(text.as_bytes());
        Ok(())
    }
}

impl Line {
    // The empty line.
    pub fn new() -> Line {
        Line(ArrayVec::new())
    }

    // Adds bytes.
    pub fn push(&mut self, bytes: &[u8]) {
        for &byte in bytes {
            let _ = self.0.try_push(byte);
        }
    }

    // The line and bytes.
    pub fn bytes(mut self, bytes: &[u8]) -> Line {
        self.push(bytes);
        self
    }

    // The line and a text.
    pub fn with<T: Display + Drop>(mut self, text: T) -> Line {
        let _ = write!(self, "{text}");
        self
    }

    // The line and one of two texts.
    pub fn either(self, first: bool, a: &str, b: &str) -> Line {
        self.with(if first { a } else { b })
    }

    // The line and an answer: accepted, or the number of a refusal.
    pub fn answer(self, refusal: Option<u8>) -> Line {
        match refusal {
            None => self.with(": accepted"),
            Some(number) => self.with(format_args!(": refused {number}")),
        }
    }

    // The line, an answer and the length that is answered, 0 with a refusal.
    pub fn told(self, refusal: Option<u8>, length: usize) -> Line {
        self.answer(refusal).with(format_args!(", length {length}"))
    }

    // The line and whether something is as it was.
    pub fn kept(self, same: bool) -> Line {
        self.either(same, ", unchanged", ", changed")
    }

    // Ends the line and writes it.
    pub fn print<W: io::Write>(self, out: &mut W) {
        let _ = write_message(out, &self.bytes(b"\n").0);
    }
}
