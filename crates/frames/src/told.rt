// What is printed for a line, and for some bytes of the text.
ghost use Rattle.std.specs.Prelude.{◌≡◌, ◌+◌, ◌*◌, ◌^◌, ◌≤◌, ◌<◌, length};
ghost use Rattle.text.specs.Wrote.{Wrote};
ghost use Rattle.frame.specs.Reading.{said, number_of};
ghost use Rattle.frame.specs.Stamp.{said as saidStamp};
ghost use Rattle.frames.specs.Explained.{own_count, reason, counted, received, refused, answered, stamp_reason, stamped, stamp_answered, is_stamp, frame_text, found};
ghost use Rattle.frames.specs.Line.{spells, told, longest_line, stepped, told_at, after, printed};

use crate::line::Line;
use frame::stamp::Stamp;
use frame::{Leader, ReadError};
use text::rules::{Counts, Decimal, Joined, Text};

// Writes sender, n and counts by name.
#[tactic(auto, unfolding(text::specs::Quoted::text, crate::specs::Explained::received, crate::specs::Explained::counted))]
fn put_received(n: u8, leader: &Leader, buffer: &mut [u8]) -> usize
    requires { (n ≤ 8) × (length (received n leader.now.sender leader.now.counts) ≤ length buffer.old) }
    ensures { Wrote (received n leader.now.sender leader.now.counts) buffer.old result buffer.new }
{
    let counts = Joined(Counts(&leader.counts[..usize::from(n)]));
    let sender = ("sender ", Decimal(u64::from(leader.sender)));
    (sender, (" n ", Decimal(u64::from(n))), (" counts ", counts)).put(buffer)
}

// Writes the refusal of a LEADER frame, and why: each as one word, so that a capture of many refusals is told fast.
#[tactic(auto, unfolding(text::specs::Numbers::digits, text::specs::Quoted::text, crate::specs::Explained::reason))]
fn put_reason(why: ReadError, buffer: &mut [u8]) -> usize
    requires { length (refused (number_of why) (reason (number_of why))) ≤ length buffer.old }
    ensures { Wrote (refused (number_of why) (reason (number_of why))) buffer.old result buffer.new }
{
    match why {
        ReadError::Stations => "refused 5, n is not 2 to 8".put(buffer),
        ReadError::Length => "refused 17, the length is not 3 + 2n".put(buffer),
        ReadError::Mark => { "refused 18, the first byte is neither 10 nor 11 hex".put(buffer) }
        ReadError::Count => "refused 24, another n is written".put(buffer),
        ReadError::Sender => "refused 19, the sender is not 1 to n".put(buffer),
        ReadError::Entry => {
            "refused 20, a count is above 4095, or the sender's own is 0".put(buffer)
        }
    }
}

// Why bytes are no clock frame.
#[tactic(auto, unfolding(text::specs::Quoted::text, crate::specs::Explained::stamp_reason))]
fn stamp_reason(why: ReadError) -> &'static str
    ensures { result.now ≡ stamp_reason (number_of why) }
{
    match why {
        ReadError::Length => "the length is not 6",
        _ => "the sender is not 1 to 8",
    }
}

// Writes the refusal of a clock frame, and why.
#[tactic(auto, unfolding(text::specs::Quoted::text))]
fn put_refused(refusal: ReadError, why: &str, buffer: &mut [u8]) -> usize
    requires { length (refused (number_of refusal) why.now) ≤ length buffer.old }
    ensures { Wrote (refused (number_of refusal) why.now) buffer.old result buffer.new }
{
    let refused = ("refused ", Decimal(u64::from(refusal.number())));
    (refused, ", ", why).put(buffer)
}

// Writes what reading a frame for n stations answered.
#[tactic(auto, unfolding(crate::specs::Explained::answered))]
fn put_answer(n: u8, answer: Result<Leader, ReadError>, buffer: &mut [u8]) -> usize
    requires { ((said answer).refusal ≡ 0 → n ≤ 8) × (length (answered n (said answer)) ≤ length buffer.old) }
    ensures { Wrote (answered n (said answer)) buffer.old result buffer.new }
{
    match answer {
        Ok(leader) => put_received(n, &leader, buffer),
        Err(why) => put_reason(why, buffer),
    }
}

// The n that a frame has; 2 where the length is that of no frame.
fn own_count(bytes: &[u8]) -> u8
    ensures { result ≡ own_count bytes.now }
{
    if frame::is_length(bytes.len()) {
        bytes[2]
    } else {
        2
    }
}

// Writes sender and stamp by name.
#[tactic(auto, unfolding(text::specs::Quoted::text, crate::specs::Explained::stamped))]
fn put_stamped(read: Stamp, buffer: &mut [u8]) -> usize
    requires { length (stamped read.sender read.stamp) ≤ length buffer.old }
    ensures { Wrote (stamped read.sender read.stamp) buffer.old result buffer.new }
{
    let sender = ("sender ", Decimal(u64::from(read.sender)));
    (sender, (" stamp ", Decimal(u64::from(read.stamp)))).put(buffer)
}

// Writes what reading a clock frame answered.
#[tactic(auto, unfolding(crate::specs::Explained::stamp_answered))]
fn put_stamp_answer(answer: Result<Stamp, ReadError>, buffer: &mut [u8]) -> usize
    requires { length (stamp_answered (saidStamp answer)) ≤ length buffer.old }
    ensures { Wrote (stamp_answered (saidStamp answer)) buffer.old result buffer.new }
{
    match answer {
        Ok(read) => put_stamped(read, buffer),
        Err(why) => put_refused(why, stamp_reason(why), buffer),
    }
}

// Whether the bytes begin as a clock frame does.
fn is_stamp(bytes: &[u8]) -> bool
    ensures { result ≡ is_stamp bytes.now }
{
    matches!(bytes, [frame::stamp::MARK, ..])
}

// Writes what a frame says, or why it is none.
fn put_frame(bytes: &[u8], buffer: &mut [u8]) -> usize
    requires { length (frame_text bytes.now) ≤ length buffer.old }
    ensures { Wrote (frame_text bytes.now) buffer.old result buffer.new }
{
    if is_stamp(bytes) {
        return put_stamp_answer(frame::stamp::read(8, bytes), buffer);
    }
    let n = own_count(bytes);
    put_answer(n, frame::read(n, bytes), buffer)
}

// Writes what a line spells.
// (d) It is no Text of its own: that would have a size, which nothing here asks for.
fn put_found(line: &Line, buffer: &mut [u8]) -> usize
    requires { length (found (spells line.now)) ≤ length buffer.old }
    ensures { Wrote (found (spells line.now)) buffer.old result buffer.new }
{
    if line.is_hex() {
        let at = ": ".put(buffer);
        return at + put_frame(line.bytes(), &mut buffer[at..]);
    }
    ": no hex".put(buffer)
}

// Writes the line for a line of the text.
// (d) It is no Text of its own: that would have a size, which nothing here asks for.
fn put_line(line: &Line, buffer: &mut [u8]) -> usize
    requires { length (told line.now) ≤ length buffer.old }
    ensures { Wrote (told line.now) buffer.old result buffer.new }
{
    let a = ("line ", Decimal(line.number())).put(buffer);
    let b = a + put_found(line, &mut buffer[a..]);
    b + "\n".put(&mut buffer[b..])
}

// Takes one character, and answers how much was written. A newline ends the line, which is told, and begins the next.
#[tactic(auto, using(crate::proofs::Room::line_room_lem, text::proofs::Parts::wrote_none), unfolding(crate::specs::Line::stepped, crate::specs::Line::told_at))]
fn step(line: &mut Line, c: u8, buffer: &mut [u8]) -> usize
    requires { (line.old.number + 1 < 2 ^ 64) × (longest_line ≤ length buffer.old) }
    ensures line_value { line.new ≡ stepped line.old c }
    ensures wrote { Wrote (told_at line.old c) buffer.old result buffer.new }
{
    if c == b'\n' {
        let size = put_line(line, buffer);
        *line = Line::begin(line.number() + 1);
        return size;
    }
    line.read(c);
    0
}

// Takes some bytes of the text, tells the lines that end in them, and answers how much was written.
pub fn feed(line: &mut Line, bytes: &[u8], buffer: &mut [u8]) -> usize
    requires { (line.old.number + length bytes.now < 2 ^ 64) × (longest_line * length bytes.now ≤ length buffer.old) }
    ensures line_value { line.new ≡ after line.old bytes.now }
    ensures wrote { Wrote (printed line.old bytes.now) buffer.old result buffer.new }
{
    let mut at = 0;
    for c in bytes {
        at += step(line, *c, &mut buffer[at..]);
    }
    at
}
