// What was read of a line of the table.

// What a case does, by its letter.
#[derive(Clone, Copy, Debug, PartialEq, Eq)]
pub enum Operation {
    Write,
    Read,
    WriteStamp,
    ReadStamp,
    Schedule,
    Command,
    Soundness,
    List,
    TryOut,
    Search,
    Start,
    Crash,
    Hear,
    Expire,
    // a send chance: L, and each letter that stands for nothing else
    Slot,
}

impl From<u8> for Operation {
    fn from(letter: u8) -> Operation {
        match letter {
            b'W' => Operation::Write,
            b'R' => Operation::Read,
            b'F' => Operation::WriteStamp,
            b'G' => Operation::ReadStamp,
            b'P' => Operation::Schedule,
            b'D' => Operation::Command,
            b'J' => Operation::Soundness,
            b'T' => Operation::List,
            b'Y' => Operation::TryOut,
            b'V' => Operation::Search,
            b'S' => Operation::Start,
            b'C' => Operation::Crash,
            b'H' => Operation::Hear,
            b'E' => Operation::Expire,
            _ => Operation::Slot,
        }
    }
}

// What a row changes of a system, by its letter; or that the head of its operation has a running clock.
#[derive(Clone, Copy, Debug, PartialEq, Eq)]
pub enum Change {
    System,
    Station,
    Delay,
    Used,
    Message,
    Exchange,
    Clock,
    // the messages of another link: O, and each letter that stands for nothing else
    Messages,
}

impl From<u8> for Change {
    fn from(letter: u8) -> Change {
        match letter {
            b'N' => Change::System,
            b'S' => Change::Station,
            b'Z' => Change::Delay,
            b'U' => Change::Used,
            b'M' => Change::Message,
            b'X' => Change::Exchange,
            b'K' => Change::Clock,
            _ => Change::Messages,
        }
    }
}

// What is read next.
#[derive(Clone, Copy, Debug, PartialEq, Eq)]
pub enum Reading {
    // the number at a place below 64
    Number(usize),
    Bytes,
    Name,
}

// A line, as far as it is read.
#[derive(Clone, Copy, Debug, PartialEq, Eq)]
pub struct Row {
    pub operation: Option<Operation>,
    pub change: Option<Change>,
    // a station's from place 0 on (see numbers), those after a letter from 32 on, those after = from 40 on, those after % from 48 on;
    // at 62 how often bytes repeat
    pub numbers: [u64; 64],
    pub reading: Reading,
    // how many digits of bytes are read
    pub digits: usize,
    // where the bytes after the schedule begin
    pub cut: usize,
    // where the bytes after the command begin
    pub part: usize,
    // where the bytes that repeat begin
    pub group: usize,
}

impl Row {
    // Nothing of a line, after one with a schedule of as many bytes.
    pub fn new(cut: usize) -> Row {
        Row {
            operation: None,
            change: None,
            numbers: [0; 64],
            reading: Reading::Number(0),
            digits: 0,
            cut,
            part: 0,
            group: 0,
        }
    }

    // Takes a digit, of a number or of a byte.
    pub fn digit(&mut self, bytes: &mut [u8], digit: u8) {
        if let Reading::Number(place) = self.reading {
            if let Some(number) = self.numbers.get_mut(place) {
                *number = longer(*number, digit);
            }
            return;
        }
        if let Some(byte) = bytes.get_mut(self.digits / 2) {
            *byte = (*byte % 16 * 16).wrapping_add(digit);
        }
        self.digits = self.digits.wrapping_add(1);
    }

    // Takes a byte that is no digit. Numbers begin with the space after a letter or a mark; the first number comes after the last.
    pub fn mark(&mut self, byte: u8) {
        self.reading = match byte {
            b' ' => match self.reading {
                Reading::Number(place) => Reading::Number(if place < 63 { place + 1 } else { 0 }),
                _ => Reading::Bytes,
            },
            b'A'..=b'Z' => Reading::Number(31),
            b'=' => Reading::Number(39),
            b'%' => Reading::Number(47),
            b'|' => Reading::Number(63),
            b'/' => Reading::Number(7),
            b'+' => Reading::Number(15),
            b'@' => Reading::Number(23),
            b'*' => Reading::Number(62),
            b'<' | b'>' | b';' | b'(' | b'"' => Reading::Bytes,
            b':' | b'#' => Reading::Name,
            _ => self.reading,
        };
        self.note(byte);
    }

    // Keeps what a letter or a mark says.
    fn note(&mut self, byte: u8) {
        let size = self.digits / 2;
        match byte {
            b'A'..=b'Z' => match self.operation {
                None => self.operation = Some(Operation::from(byte)),
                Some(_) => self.change = Some(Change::from(byte)),
            },
            b'*' => {
                self.numbers[62] = 0;
                self.group = size;
            }
            b'"' => self.digits = self.cut.wrapping_add(self.cut),
            b'>' => self.cut = size,
            b';' => self.part = size,
            _ => {}
        }
    }

    // Has the bytes from the group on stand there as often as the row says.
    pub fn close(&mut self, bytes: &mut [u8]) {
        let to = self.digits / 2;
        let size = to.saturating_sub(self.group);
        let more = self.numbers[62].saturating_sub(1);
        let mut at = to;
        for _ in 0..more {
            // behind the last place nothing is written
            if size == 0 || bytes.len() <= at {
                break;
            }
            double(bytes, self.group, size, at);
            at = at.wrapping_add(size);
        }
        let end = to.wrapping_add(size.wrapping_mul(usize::try_from(more).unwrap_or(usize::MAX)));
        self.digits = end.wrapping_add(end);
    }
}

// The number and a digit more.
fn longer(x: u64, digit: u8) -> u64 {
    if x < 1_000_000_000 {
        10 * x + u64::from(digit)
    } else {
        x
    }
}

// Has as many bytes from a place on stand behind them too, as far as there is room.
fn double(bytes: &mut [u8], from: usize, size: usize, at: usize) {
    if from < at && at < bytes.len() {
        let size = size.min(bytes.len() - at);
        bytes.copy_within(from..from + size, at);
    }
}
