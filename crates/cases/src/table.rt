// A table of cases, read byte by byte. A case is a line: the operation's letter, what it is handed, a colon and the case's name.
//   W n sender many = counts < buffer    writes a frame, of as many of the counts, into the buffer
//   R n < frame                          reads a frame
//   F n sender stamp < buffer            writes a clock frame into the buffer
//   G n < frame                          reads a clock frame
//   S me n period tick | station         starts a station; C crashes it, E ends its timer
//   L me n period tick % ranks | station            gives it its send chance
//   H me n period tick sender = counts % ranks | station    has it hear LEADER
//   SK, CK, EK, LK me n period tick | station       the same of a clock head
//   HK me n period tick sender stamp | station      has a clock head hear LEADER
//   P < schedule                         runs a schedule
//   D < schedule > command               hands a command to the system that the schedule leaves
//   J < schedule > command               the same, and says whether that system is sound
//   T < schedule > buffer                lists that system into the buffer
//   Y < schedule > command ; buffer      tries the command out on that system, with the buffer
//   V n = leaders % flags                searches n stations with these leaders for agreement; those with flag 1 are up
// Numbers are decimal, and 0 where they are left out. A station is its starts, kept leader, up, leader, timer, slot and wait, then
// / and the counts that it knows, + and its timeouts, @ and its stamp, the lowest that it knows and its one timeout. Bytes are in hex:
// *7(09 0a) is 09 0a seven times, and " in place of < and a schedule is the schedule of the line before. A letter behind the bytes
// changes a number of the system to x before the operation:
//   N f = x        the system's own: f is 0 set up, 1 n, 2 period, 3 tick, 5 clock heads, 15 + p the sent count of station p, 23 + p its
//                  rank
//   S p f = x      station p's: f is 0 starts .. 6 wait, 7 + q the count of station q, 15 + q the timeout for q, 24 the stamp, 25 the
//                  lowest, 26 the timeout
//   Z p q = x      the delay from p to q
//   U p q = x      how many messages are under way from p to q
//   M p q k f = x  the k-th message's: f is 0 sent, 1 due, 2 the stamp, 7 + r the count of station r
//   X p q = k      the first message and the k-th change places
//   O p q = r      the messages become those from 1 to r
// A line that begins with # is a comment.
use crate::desk::desk_case;
use crate::frames::{read_case, stamp_read_case, stamp_write_case, write_case};
use crate::line::Line;
use crate::row::{Operation, Reading, Row};
use crate::schedules::schedule_case;
use crate::searches::search_case;
use crate::stations::station_case;
use std::io::Write;
use std::mem;

// A table as far as it is read: how many cases were run, and the line that is read and its name.
#[derive(Drop)]
struct Table {
    count: u64,
    row: Row,
    name: Line,
}

// The value of a digit.
fn value(byte: u8) -> Option<u8> {
    match byte {
        b'0'..=b'9' => Some(byte - b'0'),
        b'a'..=b'f' => Some(byte - b'a' + 10),
        _ => None,
    }
}

// Runs the case of a row, and answers its line, or none where the row lacks bytes or has too many counts.
fn run_row(operation: Operation, row: &Row, name: Line, bytes: &mut [u8]) -> Option<Line> {
    match operation {
        Operation::Write => write_case(name, row, bytes),
        Operation::Read => Some(read_case(name, row, bytes)),
        Operation::WriteStamp => Some(stamp_write_case(name, row, bytes)),
        Operation::ReadStamp => Some(stamp_read_case(name, row, bytes)),
        Operation::Schedule => Some(schedule_case(name, bytes)),
        Operation::Command | Operation::Soundness | Operation::List | Operation::TryOut => {
            desk_case(name, row, operation, bytes)
        }
        Operation::Search => Some(search_case(name, row)),
        _ => Some(station_case(name, row, operation)),
    }
}

impl Table {
    // Ends a line: its case is run and written.
    fn end<W: Write>(&mut self, bytes: &mut [u8], out: &mut W) {
        let row = self.row;
        self.row = Row::new(row.cut);
        let name = mem::replace(&mut self.name, Line::new());
        if let Some(operation) = row.operation {
            if let Some(bytes) = bytes.get_mut(..row.digits / 2) {
                if let Some(line) = run_row(operation, &row, name, bytes) {
                    line.print(out);
                }
                self.count = self.count.wrapping_add(1);
            }
        }
    }

    // Takes a byte more.
    fn step<W: Write>(&mut self, bytes: &mut [u8], byte: u8, out: &mut W) {
        if byte == b'\n' {
            self.end(bytes, out);
        } else if self.row.reading == Reading::Name {
            self.name.push(&[byte]);
        } else if let Some(digit) = value(byte) {
            self.row.digit(bytes, digit);
        } else if byte == b')' {
            self.row.close(bytes);
        } else {
            self.row.mark(byte);
        }
    }
}

// Runs every case of a table, and writes how many there are.
pub fn run<W: Write>(text: &[u8], bytes: &mut [u8], out: &mut W) {
    let mut table = Table {
        count: 0,
        row: Row::new(0),
        name: Line::new(),
    };
    for &byte in text {
        table.step(bytes, byte, out);
    }
    let count = table.count;
    Line::new().with(format_args!("cases {count}")).print(out);
}
