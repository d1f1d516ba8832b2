// The words of the commands: one table.
ghost use Rattle.std.specs.Prelude.{◌<◌};
ghost use Rattle.script.specs.Entries.{entries};
ghost use Rattle.script.specs.Tabled.{Tabled};

// A command as it is written: its words; how many numbers stand behind them, and in which range; and its byte.
#[derive(Clone, Copy, Debug, PartialEq, Eq)]
pub struct Entry {
    pub name: &'static str,
    pub numbers: usize,
    pub least: u32,
    pub most: u32,
    pub code: u8,
}

// How many entries there are.
pub const ENTRIES: usize = 10;

// Where one name begins with another, the longer one stands first. An operand that has no number is 0.
const TABLE: [Entry; ENTRIES] = [
    Entry {
        name: "set up clocks",
        numbers: 2,
        least: 0,
        most: 255,
        code: 9,
    },
    Entry {
        name: "set up",
        numbers: 2,
        least: 0,
        most: 255,
        code: 1,
    },
    Entry {
        name: "start",
        numbers: 1,
        least: 0,
        most: 255,
        code: 2,
    },
    Entry {
        name: "crash",
        numbers: 1,
        least: 0,
        most: 255,
        code: 3,
    },
    Entry {
        name: "link",
        numbers: 3,
        least: 0,
        most: 255,
        code: 4,
    },
    Entry {
        name: "cut",
        numbers: 2,
        least: 0,
        most: 255,
        code: 4,
    },
    Entry {
        name: "run",
        numbers: 1,
        least: 1,
        most: 1000000,
        code: 5,
    },
    Entry {
        name: "lose",
        numbers: 2,
        least: 0,
        most: 255,
        code: 6,
    },
    Entry {
        name: "report",
        numbers: 0,
        least: 0,
        most: 255,
        code: 7,
    },
    Entry {
        name: "rank",
        numbers: 2,
        least: 0,
        most: 255,
        code: 8,
    },
];

// The entry at k.
pub fn entry_at(k: usize) -> Entry
    requires { k < entries }
    ensures { Tabled k result }
{
    TABLE[k]
}
