// The clock frame: 11 hex, the sender and four bytes of stamp; written into a lent buffer, read from lent bytes.
ghost use Rattle.std.specs.Prelude.{◌≡◌, ◌≤◌, length};
ghost use Rattle.lists.specs.Entries.{over};
ghost use Rattle.frame.specs.Stamp.{stamp_frame, stamp_size, stamp_writing, stamp_reading};
ghost use Rattle.frame.specs.Stamp.{said as saidRead};
ghost use Rattle.frame.specs.Writing.{said};

use crate::{ReadError, WriteError, ensure, sender_in, stations_in};

// What a clock frame says.
#[derive(Clone, Copy, Debug, PartialEq, Eq)]
pub struct Stamp {
    pub sender: u8,
    pub stamp: u32,
}

// The first byte of a clock frame.
pub const MARK: u8 = 0x11;

// The length of a clock frame.
const SIZE: usize = 6;

// Lays the clock frame of sender and stamp over the front of the buffer.
fn put_stamp(sender: u8, stamp: u32, buffer: &mut [u8])
    requires { stamp_size ≤ length buffer.old }
    ensures { buffer.new ≡ over (stamp_frame sender stamp) buffer.old }
{
    let [a, b, c, d] = stamp.to_le_bytes();
    buffer[..SIZE].copy_from_slice(&[MARK, sender, a, b, c, d]);
}

// Writes the clock frame of sender and stamp into the front of the buffer, and answers its length; refused, the buffer stays as it is.
#[tactic(auto, using(crate::proofs::Clock::lengths), unfolding(crate::specs::Stamp::stamp_writing))]
pub fn write(n: u8, sender: u8, stamp: u32, buffer: &mut [u8]) -> Result<usize, WriteError>
    ensures { said result buffer.new ≡ stamp_writing n sender stamp buffer.old }
{
    ensure(stations_in(n), WriteError::Stations)?;
    ensure(sender_in(n, sender), WriteError::Sender)?;
    ensure(SIZE <= buffer.len(), WriteError::Space)?;
    put_stamp(sender, stamp, buffer);
    Ok(SIZE)
}

// Reads the clock frame that the bytes are.
#[tactic(auto, unfolding(crate::specs::Stamp::stamp_reading))]
pub fn read(n: u8, bytes: &[u8]) -> Result<Stamp, ReadError>
    ensures { saidRead result ≡ stamp_reading n bytes.now }
{
    ensure(stations_in(n), ReadError::Stations)?;
    let &[mark, sender, a, b, c, d] = bytes else {
        return Err(ReadError::Length);
    };
    ensure(mark == MARK, ReadError::Mark)?;
    ensure(sender_in(n, sender), ReadError::Sender)?;
    let stamp = u32::from_le_bytes([a, b, c, d]);
    Ok(Stamp { sender, stamp })
}
