// A line as far as it is read, character by character.
ghost use Rattle.std.specs.Prelude.{◌≡◌, ◌<◌};
ghost use Rattle.std.specs.Option.{ForSome};
ghost use Rattle.frames.specs.Line.{spells};
ghost use Rattle.frames.specs.Line.{Line as Line·Line};
ghost use Rattle.frames.specs.Line.{begin as Line·begin};
ghost use Rattle.frames.specs.Line.{read as Line·read};

use arrayvec::ArrayVec;
use std::marker::Model;
use text::rules::hex::{digit_of, is_blank};

// How many bytes of a line are kept: one more than the longest frame has.
const KEPT: usize = 20;

// A line as far as it is read.
#[derive(Clone, Drop)]
pub struct Line {
    // its number, from 1
    number: u64,
    // whether it has a character
    begun: bool,
    // whether it is hex
    hex: bool,
    // the first digit of a byte, while it waits for the second
    high: Option<u8>,
    // the first bytes
    bytes: ArrayVec<u8, KEPT>,
}

impl Model for Line {
    ghost Value = { Line·Line };

    ghost view = { λ s. record { number = s.number; begun = s.begun; hex = s.hex; high = s.high; bytes = s.bytes.items } };

    ghost invariant = { λ s. ForSome s.high (λ h. h < 16) };
}

impl Line {
    // Line k before its first character.
    #[tactic(auto, unfolding(crate::specs::Line::begin))]
    pub fn begin(k: u64) -> Line
        ensures { result ≡ Line·begin k }
    {
        Line {
            number: k,
            begun: false,
            hex: true,
            high: None,
            bytes: ArrayVec::new(),
        }
    }

    // Its number.
    pub fn number(&self) -> u64
        ensures { result ≡ self.now.number }
    {
        self.number
    }

    // Whether it has a character.
    pub fn has_begun(&self) -> bool
        ensures { result ≡ self.now.begun }
    {
        self.begun
    }

    // Whether it is hex if it ends here.
    pub fn is_hex(&self) -> bool
        ensures { result ≡ (spells self.now).hex }
    {
        self.hex && self.high.is_none()
    }

    // The bytes that it spells, as many as are kept.
    pub fn bytes(&self) -> &[u8]
        ensures { result.now ≡ (spells self.now).bytes }
    {
        self.bytes.as_slice()
    }

    // One character more.
    #[tactic(auto, unfolding(crate::specs::Line::read))]
    pub fn read(&mut self, c: u8)
        ensures { self.new ≡ Line·read self.old c }
    {
        self.begun = true;
        match (self.high.take(), digit_of(c)) {
            (None, None) => self.hex = self.hex && is_blank(c),
            (None, digit) => self.high = digit,
            (Some(high), Some(low)) => {
                if !self.bytes.is_full() {
                    self.bytes.push(16 * high + low);
                }
            }
            (Some(_), None) => self.hex = false,
        }
    }
}
