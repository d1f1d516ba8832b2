// The LEADER frame and the clock frame for programs in other languages: a slice is a pointer and a length there, and what is lent by `&mut`
// is a pointer.
#![tactic(auto)]

ghost use Rattle.std.specs.Prelude.{◌≡◌, List, ℕ};
ghost use Rattle.frame.specs.Writing.{Writing, writing, said};
ghost use Rattle.frame.specs.Reading.{Reading, reading};
ghost use Rattle.frame.specs.Stamp.{StampReading, stamp_writing, stamp_reading};

use frame::WriteError;

// Stores the length written, 0 where nothing was, and answers the refusal, 0 for none.
fn store_length(wrote: Result<usize, WriteError>, written: &mut usize) -> u64
    ensures { (buffer : List ℕ) → record { refusal = result; written = written.new; buffer = buffer } ≡ said wrote buffer }
{
    match wrote {
        Ok(size) => {
            *written = size;
            0
        }
        Err(why) => {
            *written = 0;
            u64::from(why.number())
        }
    }
}

// Writes the frame at the front of the buffer: answers the refusal, 0 for none, and stores the length written.
#[unsafe(no_mangle)]
pub extern "C" fn leader_frame_write(
    n: u8,
    sender: u8,
    counts: &[u16],
    buffer: &mut [u8],
    written: &mut usize,
) -> u64
    ensures { ◌≡◌ {A = Writing} (record { refusal = result; written = written.new; buffer = buffer.new })
        (writing n sender counts.now buffer.old) }
{
    store_length(frame::write(n, sender, counts, buffer), written)
}

// Reads the frame that the bytes are: answers the refusal, 0 for none, and stores the sender and eight counts.
#[unsafe(no_mangle)]
pub extern "C" fn leader_frame_read(
    n: u8,
    bytes: &[u8],
    sender: &mut u8,
    counts: &mut [u16; 8],
) -> u64
    ensures { ◌≡◌ {A = Reading} (record { refusal = result; sender = sender.new; counts = counts.new })
        (reading n bytes.now) }
{
    match frame::read(n, bytes) {
        Ok(leader) => {
            // the prover has no proof yet for an array field that is stored straight
            let read = leader.counts;
            *sender = leader.sender;
            *counts = read;
            0
        }
        Err(why) => {
            *sender = 0;
            *counts = [0; 8];
            u64::from(why.number())
        }
    }
}

// Writes the clock frame at the front of the buffer: answers the refusal, 0 for none, and stores the length written.
#[unsafe(no_mangle)]
pub extern "C" fn clock_frame_write(
    n: u8,
    sender: u8,
    stamp: u32,
    buffer: &mut [u8],
    written: &mut usize,
) -> u64
    ensures { ◌≡◌ {A = Writing} (record { refusal = result; written = written.new; buffer = buffer.new })
        (stamp_writing n sender stamp buffer.old) }
{
    store_length(frame::stamp::write(n, sender, stamp, buffer), written)
}

// Reads the clock frame that the bytes are: answers the refusal, 0 for none, and stores the sender and the stamp.
#[unsafe(no_mangle)]
pub extern "C" fn clock_frame_read(n: u8, bytes: &[u8], sender: &mut u8, stamp: &mut u32) -> u64
    ensures { ◌≡◌ {A = StampReading} (record { refusal = result; sender = sender.new; stamp = stamp.new })
        (stamp_reading n bytes.now) }
{
    match frame::stamp::read(n, bytes) {
        Ok(read) => {
            *sender = read.sender;
            *stamp = read.stamp;
            0
        }
        Err(why) => {
            *sender = 0;
            *stamp = 0;
            u64::from(why.number())
        }
    }
}
