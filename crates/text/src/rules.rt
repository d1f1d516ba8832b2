// Words, decimal numbers and counts, written at the front of a buffer. The buffer has room: the caller has counted.
ghost use Rattle.std.specs.Prelude.{ℕ, List, ◌≡◌, ◌+◌, ◌^◌, ◌<◌, ◌≤◌, ◌++◌, length, get_or};
ghost use Rattle.lists.specs.Join.{join_to};
ghost use Rattle.text.specs.Choice.{or_dash};
ghost use Rattle.text.specs.Numbers.{decimal, count_of};
ghost use Rattle.text.specs.Wrote.{Wrote};

pub mod hex;

// What can be written at the front of a lent buffer.
pub trait Text {
    // its bytes
    ghost bytes: { Self → List ℕ };

    // How many bytes it has.
    fn size(&self) -> usize
        requires { length (bytes self.now) < 2 ^ 63 }
        ensures { result ≡ length (bytes self.now) };

    // Writes it at the front of a buffer that has room for it, and answers the place after it.
    fn put(&self, buffer: &mut [u8]) -> usize
        requires { length (bytes self.now) ≤ length buffer.old }
        ensures { Wrote (bytes self.now) buffer.old result buffer.new };
}

// A word.
impl Text for &str {
    ghost bytes = { λ word. word.now };

    fn size(&self) -> usize {
        self.len()
    }

    fn put(&self, buffer: &mut [u8]) -> usize {
        put(self.as_bytes(), buffer)
    }
}

// A word of any bytes.
impl Text for &[u8] {
    ghost bytes = { λ word. word.now };

    fn size(&self) -> usize {
        self.len()
    }

    fn put(&self, buffer: &mut [u8]) -> usize {
        put(self, buffer)
    }
}

// A number in decimal digits.
#[derive(Clone, Copy, Debug, PartialEq, Eq)]
pub struct Decimal(pub u64);

impl Text for Decimal {
    ghost bytes = { λ number. decimal number.0 };

    fn size(&self) -> usize {
        decimal_size(self.0)
    }

    fn put(&self, buffer: &mut [u8]) -> usize {
        put_decimal(self.0, buffer)
    }
}

// One text after another: the second is written into the part of the buffer that the first has left.
impl<A: Text, B: Text> Text for (A, B) {
    ghost bytes = { λ texts. A.bytes texts.0 ++ B.bytes texts.1 };

    fn size(&self) -> usize {
        self.0.size() + self.1.size()
    }

    fn put(&self, buffer: &mut [u8]) -> usize {
        let at = self.0.put(buffer);
        at + self.1.put(&mut buffer[at..])
    }
}

// Three texts, one after another.
impl<A: Text, B: Text, C: Text> Text for (A, B, C) {
    ghost bytes = { λ texts. A.bytes texts.0 ++ B.bytes texts.1 ++ C.bytes texts.2 };

    fn size(&self) -> usize {
        self.0.size() + self.1.size() + self.2.size()
    }

    fn put(&self, buffer: &mut [u8]) -> usize {
        let at = self.0.put(buffer);
        let at = at + self.1.put(&mut buffer[at..]);
        at + self.2.put(&mut buffer[at..])
    }
}

// One of two texts.
#[derive(Clone, Copy, Debug, PartialEq, Eq)]
pub enum Either<A, B> {
    First(A),
    Second(B),
}

impl<A: Text, B: Text> Text for Either<A, B> {
    ghost use Rattle.std.specs.Prelude.{◌≡◌, ◌^◌, ◌<◌, ◌≤◌, length};
    ghost use Rattle.lists.specs.Join.{join_to};
    ghost use Rattle.text.specs.Choice.{either};
    ghost use Rattle.text.specs.Wrote.{Wrote};

    ghost bytes = { either A.bytes B.bytes };

    fn size(&self) -> usize {
        match self {
            Either::First(a) => a.size(),
            Either::Second(b) => b.size(),
        }
    }

    fn put(&self, buffer: &mut [u8]) -> usize {
        match self {
            Either::First(a) => a.put(buffer),
            Either::Second(b) => b.put(buffer),
        }
    }
}

// A text, or - where there is none.
#[derive(Clone, Copy, Debug, PartialEq, Eq)]
pub struct OrDash<T>(pub Option<T>);

impl<T: Text> Text for OrDash<T> {
    ghost bytes = { λ text. or_dash T.bytes text.0 };

    fn size(&self) -> usize {
        match &self.0 {
            Some(text) => text.size(),
            None => 1,
        }
    }

    fn put(&self, buffer: &mut [u8]) -> usize {
        match &self.0 {
            Some(text) => text.put(buffer),
            None => "-".put(buffer),
        }
    }
}

// Pieces in order: how many there are, and the one at each place.
pub trait Pieces {
    type Piece: Text + Copy;

    // how many
    ghost count: { Self → ℕ };
    // the bytes of the piece at a place
    ghost piece: { Self → ℕ → List ℕ };

    // How many pieces there are.
    fn count(&self) -> usize
        ensures { result ≡ count self.now };

    // The piece at a place.
    fn piece(&self, place: usize) -> Self::Piece
        requires { place < count self.now }
        ensures { Self.Piece.bytes result ≡ piece self.now place };
}

// All pieces, one after another.
#[derive(Clone, Copy, Debug, PartialEq, Eq)]
pub struct Joined<P>(pub P);

// (d) Pieces are told by their places: there is nothing else to go over.
impl<P: Pieces> Text for Joined<P> {
    ghost bytes = { λ all. join_to (P.count all.0) (P.piece all.0) };

    fn size(&self) -> usize {
        let mut size = 0;
        for place in 0..self.0.count() {
            size += self.0.piece(place).size();
        }
        size
    }

    fn put(&self, buffer: &mut [u8]) -> usize {
        let mut at = 0;
        for place in 0..self.0.count() {
            at += self.0.piece(place).put(&mut buffer[at..]);
        }
        at
    }
}

// The count at a place, after a comma unless it is the first.
#[derive(Clone, Copy, Debug, PartialEq, Eq)]
pub struct Count(usize, u16);

impl Text for Count {
    ghost bytes = { λ count. count_of count.0 count.1 };

    #[tactic(auto, unfolding(crate::specs::Numbers::count_of))]
    fn size(&self) -> usize {
        let digits = decimal_size(u64::from(self.1));
        if self.0 > 0 { 1 + digits } else { digits }
    }

    #[tactic(auto, unfolding(crate::specs::Numbers::count_of))]
    fn put(&self, buffer: &mut [u8]) -> usize {
        let digits = Decimal(u64::from(self.1));
        if self.0 == 0 {
            digits.put(buffer)
        } else {
            (",", digits).put(buffer)
        }
    }
}

// Counts with commas between them.
#[derive(Clone, Copy, Debug, PartialEq, Eq)]
pub struct Counts<'a>(pub &'a [u16]);

impl<'a> Pieces for Counts<'a> {
    type Piece = Count;

    ghost count = { λ counts. length counts.0.now };

    ghost piece = { λ counts k. count_of k (get_or counts.0.now k 0) };

    fn count(&self) -> usize {
        self.0.len()
    }

    fn piece(&self, place: usize) -> Count {
        Count(place, self.0[place])
    }
}

// Writes a word.
// Byte by byte: copy_from_slice tests at each word whether the two overlap, and with it a report of clock heads takes 1.2 times as long.
pub fn put(word: &[u8], buffer: &mut [u8]) -> usize
    requires { length word.now ≤ length buffer.old }
    ensures { Wrote word.now buffer.old result buffer.new }
{
    for i in 0..word.len() {
        buffer[i] = word[i];
    }
    word.len()
}

// The length of a number in decimal digits.
pub fn decimal_size(x: u64) -> usize
    ensures { (result ≡ length (decimal x)) × (result ≤ 20) }
{
    if x < 10 { 1 } else { decimal_size(x / 10) + 1 }
}

// Writes a number in decimal digits, the last one after the others.
fn put_digits(x: u64, buffer: &mut [u8]) -> usize
    requires { length (decimal x) ≤ length buffer.old }
    ensures { Wrote (decimal x) buffer.old result buffer.new }
{
    if x < 10 {
        buffer[0] = b'0' + x as u8;
        return 1;
    }
    let at = put_digits(x / 10, buffer);
    buffer[at] = b'0' + (x % 10) as u8;
    at + 1
}

// Writes a number in decimal digits. Most numbers of a listing have one, which needs no call.
pub fn put_decimal(x: u64, buffer: &mut [u8]) -> usize
    requires { length (decimal x) ≤ length buffer.old }
    ensures { Wrote (decimal x) buffer.old result buffer.new }
{
    if x < 10 {
        buffer[0] = b'0' + x as u8;
        return 1;
    }
    put_digits(x, buffer)
}
