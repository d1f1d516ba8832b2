// Lines and words of a text.
ghost use Rattle.std.specs.Prelude.{◌≡◌, ◌+◌, ◌≤◌, length, drop};
ghost use Rattle.script.specs.Cursor.{NextWord};
ghost use Rattle.script.specs.Split.{inside, lead};

use text::rules::hex::is_blank;

// The parts of a text: the blanks before a word, a word, what stands before a comment, a line.
// (a) An enum and no closure: the definition `inside` of specs/Split decides over it.
#[derive(Clone, Copy, Debug, PartialEq, Eq)]
pub enum Part {
    Blanks,
    Word,
    Uncommented,
    Line,
}

// Whether a character can stand in a part.
fn is_inside(part: Part, c: u8) -> bool
    ensures { result ≡ inside part c }
{
    match part {
        Part::Blanks => is_blank(c),
        Part::Word => !is_blank(c),
        Part::Uncommented => c != b'#',
        Part::Line => c != b'\n',
    }
}

// Where the part that begins at a place ends.
pub fn end_of(part: Part, text: &[u8], from: usize) -> usize
    requires { from ≤ length text.now }
    ensures { result ≡ from + length (lead (inside part) (drop from text.now)) }
{
    let rest = &text[from..];
    let size = rest.iter().position(|&c| !is_inside(part, c));
    from + size.unwrap_or(rest.len())
}

// A word: where it begins and where it ends.
#[derive(Clone, Copy, Debug, PartialEq, Eq)]
pub struct Span {
    pub start: usize,
    pub end: usize,
}

// The next word from a place on, if there is one.
pub fn word_at(text: &[u8], at: usize) -> Option<Span>
    requires { at ≤ length text.now }
    ensures { NextWord text.now at result }
{
    let start = end_of(Part::Blanks, text, at);
    let end = end_of(Part::Word, text, start);
    if start == end {
        return None;
    }
    Some(Span { start, end })
}
