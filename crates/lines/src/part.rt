ghost use Rattle.lines.specs.Words.{Cut};

// A part of a line: its bytes, and how many stand before it.
#[derive(Clone, Copy, PartialEq, Eq, Debug)]
pub struct Part<'a> {
    pub text: &'a [u8],
    pub at: usize,
}

// The first word, and what follows it.
pub(crate) fn cut<'a>(text: &'a [u8]) -> (&'a [u8], &'a [u8])
    ensures { Cut text.now result.0.now result.1.now }
{
    let end = text.iter().position(|byte| *byte == b' ');
    text.split_at(end.unwrap_or(text.len()))
}
