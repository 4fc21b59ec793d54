ghost use Rattle.lines.specs.Arguments.{Gathered};

use crate::argument::Argument;
use crate::words::Words;

// The numbers after a name.
#[derive(Clone, Copy, PartialEq, Eq, Debug)]
pub(crate) enum Arguments<'a> {
    One(Argument<'a>),
    Two(Argument<'a>, Argument<'a>),
    Three(Argument<'a>, Argument<'a>, Argument<'a>),
}

// The one, two or three numbers that follow.
pub(crate) fn gather<'a>(mut words: Words<'a>) -> Option<Arguments<'a>>
    ensures { Gathered words.entry.rest result }
{
    let first = Argument::read(words.next()?)?;
    let Some(second) = words.next() else {
        return Some(Arguments::One(first));
    };
    let second = Argument::read(second)?;
    let Some(third) = words.next() else {
        return Some(Arguments::Two(first, second));
    };
    let third = Argument::read(third)?;
    match words.next() {
        None => Some(Arguments::Three(first, second, third)),
        Some(_) => None,
    }
}
