// The command, from the program's arguments.
ghost use Rattle.std.specs.Prelude.{◌≡◌, ◌≤◌, length, IfOk};
ghost use Rattle.tryout.specs.Asked.{is_left_over, asking, meant};

use decision::widths::width;
use text::rules::hex::read_hex;

// What is wrong with the arguments: there are no bytes, or some are left over behind the command, or it is no hex.
#[derive(Clone, Copy, Debug, PartialEq, Eq)]
pub enum WrongArguments {
    NoBytes,
    LeftOver,
    NoHex,
}

// Whether bytes are left over behind a command and its operands.
fn is_left_over(bytes: &[u8]) -> bool
    ensures { result ≡ is_left_over bytes.now }
{
    match bytes {
        [b @ 1..=9, ..] => 1 + width(*b) < bytes.len(),
        _ => false,
    }
}

// Reads what a line of arguments asks for: the command's bytes come to the front of the buffer, and it answers how many they are.
pub fn read_command(line: &[u8], buffer: &mut [u8]) -> Result<usize, WrongArguments>
    requires { length line.now ≤ length buffer.old }
    ensures buffer_after { meant result buffer.new ≡ asking line.now }
    ensures result_in_bounds { IfOk result (λ size. size ≤ length buffer.new) }
{
    let size = read_hex(line, buffer).ok_or(WrongArguments::NoHex)?;
    if size == 0 {
        return Err(WrongArguments::NoBytes);
    }
    if is_left_over(&buffer[..size]) {
        return Err(WrongArguments::LeftOver);
    }
    Ok(size)
}
