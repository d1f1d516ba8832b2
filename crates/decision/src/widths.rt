// How many operand bytes each command has.
ghost use Rattle.std.specs.Prelude.{◌≡◌, [], ◌∷◌};
ghost use Rattle.election.specs.Commands.{decode, operands};

// The operands of the commands 01 to 09, each at its own place.
const WIDTHS: [usize; 10] = [0, 2, 1, 1, 3, 2, 2, 0, 2, 2];

// The operand bytes of the command with a byte; none where there is no such command.
pub fn width(b: u8) -> usize
    ensures { result ≡ operands (decode (b ∷ [])) }
{
    match b {
        1..=9 => WIDTHS[b as usize],
        _ => 0,
    }
}
