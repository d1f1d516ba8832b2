// The LEADER frame: 10 hex, the sender, n and n counts; written into a lent buffer, read from lent bytes. The clock frame is in src/stamp.rt.
#![tactic(auto)]

ghost use Rattle.std.specs.Prelude.{◌≡◌, ◌+◌, ◌*◌, ◌<◌, ◌≤◌, ◌↔◌, length, replicate, IsOk, IsTrue, IfErr};
ghost use Rattle.lists.specs.Entries.{over};
ghost use Rattle.frame.specs.Frame.{frame, header, frame_size, is_length, stations_in, sender_in, counts_in};
ghost use Rattle.frame.specs.Reading.{count_at, counts_of, reading};
ghost use Rattle.frame.specs.Reading.{said as saidRead};
ghost use Rattle.frame.specs.Reading.{number_of as readNumberOf};
ghost use Rattle.frame.specs.Writing.{writing, said, number_of};

use std::array;

pub mod stamp;

// Why nothing was written: 5, 17, 19, 20 or 16 by number_of.
#[derive(Clone, Copy, Debug, PartialEq, Eq)]
pub enum WriteError {
    Stations,
    Counts,
    Sender,
    Entry,
    Space,
}

impl WriteError {
    // The papers' number.
    pub fn number(self) -> u8
        ensures { result ≡ number_of self }
    {
        match self {
            WriteError::Stations => 5,
            WriteError::Counts => 17,
            WriteError::Sender => 19,
            WriteError::Entry => 20,
            WriteError::Space => 16,
        }
    }
}

// Why the bytes are no frame: 5, 17, 18, 24, 19 or 20 by number_of.
#[derive(Clone, Copy, Debug, PartialEq, Eq)]
pub enum ReadError {
    Stations,
    Length,
    Mark,
    Count,
    Sender,
    Entry,
}

impl ReadError {
    // The papers' number.
    pub fn number(self) -> u8
        ensures { result ≡ readNumberOf self }
    {
        match self {
            ReadError::Stations => 5,
            ReadError::Length => 17,
            ReadError::Mark => 18,
            ReadError::Count => 24,
            ReadError::Sender => 19,
            ReadError::Entry => 20,
        }
    }
}

// What a LEADER frame says: the sender, and the counts, zero beyond n.
#[derive(Clone, Copy, Debug, PartialEq, Eq)]
pub struct Leader {
    pub sender: u8,
    pub counts: [u16; 8],
}

// The first byte of a frame.
const MARK: u8 = 0x10;

// How many bytes stand before the counts.
const HEADER: usize = 3;

// The length of a frame for 2, 3, .., 8 stations.
const LENGTHS: [usize; 7] = [7, 9, 11, 13, 15, 17, 19];

// The refusal, unless the test holds.
fn ensure<E: Copy>(holds: bool, why: E) -> Result<(), E>
    ensures ok { IsOk result ↔ IsTrue holds }
    ensures err { IfErr result (λ e. e ≡ why) }
{
    if holds { Ok(()) } else { Err(why) }
}

// Whether there are 2 to 8 stations.
#[tactic(auto, unfolding(crate::specs::Frame::stations_in))]
fn stations_in(n: u8) -> bool
    ensures { result ≡ stations_in n }
{
    (2..=8).contains(&n)
}

// Whether the sender is one of the stations 1 to n.
#[tactic(auto, unfolding(crate::specs::Frame::sender_in))]
fn sender_in(n: u8, sender: u8) -> bool
    ensures { result ≡ sender_in n sender }
{
    (1..=n).contains(&sender)
}

// Whether no count is above 4095 and the sender's own is not zero.
#[tactic(auto, unfolding(crate::specs::Frame::counts_in))]
fn counts_in(sender: u8, counts: &[u16]) -> bool
    requires { (1 ≤ sender) × (sender ≤ length counts.now) }
    ensures { result ≡ counts_in sender counts.now }
{
    counts.iter().all(|&count| count <= 4095) && 1 <= counts[usize::from(sender) - 1]
}

// The length of a frame for n stations.
fn frame_length(n: u8) -> usize
    requires { (2 ≤ n) × (n ≤ 8) }
    ensures { result ≡ frame_size n }
{
    LENGTHS[usize::from(n) - 2]
}

// Whether a length is that of a frame, for 2, 3, .. or 8 stations.
#[tactic(auto, unfolding(crate::specs::Frame::is_length))]
pub fn is_length(size: usize) -> bool
    ensures { result ≡ is_length size }
{
    LENGTHS.contains(&size)
}

// Lays the frame of n, sender and counts over the front of the buffer.
fn put_frame(n: u8, sender: u8, counts: &[u16], buffer: &mut [u8])
    requires { frame_size (length counts.now) ≤ length buffer.old }
    ensures { buffer.new ≡ over (frame n sender counts.now) buffer.old }
{
    buffer[0] = MARK;
    buffer[1] = sender;
    buffer[2] = n;
    for (k, count) in counts.iter().enumerate() {
        let [low, high] = count.to_le_bytes();
        let at = HEADER + 2 * k;
        buffer[at] = low;
        buffer[at + 1] = high;
    }
}

// The count at place k, from 0: low byte, high byte.
fn count_at(bytes: &[u8], k: usize) -> u16
    requires { header + 2 * k + 1 < length bytes.now }
    ensures { result ≡ count_at bytes.now k }
{
    let at = HEADER + 2 * k;
    u16::from_le_bytes([bytes[at], bytes[at + 1]])
}

// The n counts of the bytes, and zeros beyond them.
fn counts_of(n: u8, bytes: &[u8]) -> [u16; 8]
    requires { (n ≤ 8) × (length bytes.now ≡ frame_size n) }
    ensures { result ≡ over (counts_of n bytes.now) (replicate 8 0) }
{
    array::from_fn(|k| if k < usize::from(n) {
        count_at(bytes, k)
    } else {
        0
    })
}

// Writes the frame of sender and counts into the front of the buffer, and answers its length; refused, the buffer stays as it is.
#[tactic(auto, using(crate::proofs::Ranges::ranges, crate::proofs::Body::lengths), unfolding(crate::specs::Writing::writing))]
pub fn write(n: u8, sender: u8, counts: &[u16], buffer: &mut [u8]) -> Result<usize, WriteError>
    ensures { said result buffer.new ≡ writing n sender counts.now buffer.old }
{
    ensure(stations_in(n), WriteError::Stations)?;
    ensure(counts.len() == usize::from(n), WriteError::Counts)?;
    ensure(sender_in(n, sender), WriteError::Sender)?;
    ensure(counts_in(sender, counts), WriteError::Entry)?;
    let size = frame_length(n);
    ensure(size <= buffer.len(), WriteError::Space)?;
    put_frame(n, sender, counts, buffer);
    Ok(size)
}

// Reads the frame that the bytes are.
#[tactic(auto, using(crate::proofs::Ranges::ranges, crate::proofs::Body::take_counts, crate::proofs::Body::lengths), unfolding(crate::specs::Reading::reading))]
pub fn read(n: u8, bytes: &[u8]) -> Result<Leader, ReadError>
    ensures { saidRead result ≡ reading n bytes.now }
{
    ensure(stations_in(n), ReadError::Stations)?;
    ensure(bytes.len() == frame_length(n), ReadError::Length)?;
    let &[MARK, sender, count, ..] = bytes else {
        return Err(ReadError::Mark);
    };
    ensure(count == n, ReadError::Count)?;
    ensure(sender_in(n, sender), ReadError::Sender)?;
    let counts = counts_of(n, bytes);
    ensure(
        counts_in(sender, &counts[..usize::from(n)]),
        ReadError::Entry,
    )?;
    Ok(Leader { sender, counts })
}
