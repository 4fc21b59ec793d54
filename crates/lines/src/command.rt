ghost use Rattle.std.specs.Prelude.{◌≡◌, [], ◌∷◌};
ghost use Rattle.std.specs.Option as options;
ghost use Rattle.std.specs.Result as results;
ghost use Rattle.refusals.specs.declared.refusal.Refusal.TheVariants.{NotALine};
ghost use Rattle.lines.specs.Commands.{ParsesTypes, ParsesWords, Picks, Says};
ghost use Rattle.lines.specs.Requests.{NoLine};

use crate::argument::Argument;
use crate::arguments::{Arguments, gather};
use crate::number::numbers_in;
use crate::part::{Part, cut};
use crate::words::Words;
use refusals::refusal::Refusal;

const LONGEST_LINE: usize = 400;

pub const MOST_WORDS: usize = 64;

const LARGEST_HEAP: u32 = 1024;

// What a line asks for, by its parts.
#[derive(Clone, Copy, PartialEq, Eq, Debug)]
pub enum Command<'a> {
    // The numbers of a table, each after a space, as the part of the line that writes them.
    Types {
        numbers: Part<'a>,
    },
    Heap {
        length: Argument<'a>,
    },
    Take {
        hold: Argument<'a>,
    },
    Release {
        hold: Argument<'a>,
    },
    Note {
        hold: Argument<'a>,
        code: Argument<'a>,
        number: Argument<'a>,
    },
    Copy {
        from: Argument<'a>,
        to: Argument<'a>,
    },
    Tell {
        hold: Argument<'a>,
    },
    Look {
        hold: Argument<'a>,
        word: Argument<'a>,
    },
    Set {
        hold: Argument<'a>,
        word: Argument<'a>,
        number: Argument<'a>,
    },
    Put {
        hold: Argument<'a>,
        word: Argument<'a>,
        from: Argument<'a>,
    },
    Fetch {
        hold: Argument<'a>,
        word: Argument<'a>,
        to: Argument<'a>,
    },
}

// Inlined, so that no command is copied on its way out of `read`.
#[inline(always)]
fn parse_types<'a>(follow: Part<'a>) -> Option<Command<'a>>
    ensures { ParsesTypes follow.entry result }
{
    numbers_in::<MOST_WORDS>(follow.text)?;
    Some(Command::Types { numbers: follow })
}

// One function for each count of numbers: of one match on the name and the numbers, the proof of the last arm did not close.
fn with_one<'a>(name: &[u8], number: Argument<'a>) -> Option<Command<'a>>
    ensures { Picks name.now (number.entry ∷ []) result }
{
    match name {
        b"heap" if number.value <= LARGEST_HEAP => Some(Command::Heap { length: number }),
        b"take" => Some(Command::Take { hold: number }),
        b"release" => Some(Command::Release { hold: number }),
        b"tell" => Some(Command::Tell { hold: number }),
        _ => None,
    }
}

fn with_two<'a>(name: &[u8], first: Argument<'a>, second: Argument<'a>) -> Option<Command<'a>>
    ensures { Picks name.now (first.entry ∷ second.entry ∷ []) result }
{
    match name {
        b"copy" => Some(Command::Copy {
            from: first,
            to: second,
        }),
        b"look" => Some(Command::Look {
            hold: first,
            word: second,
        }),
        _ => None,
    }
}

fn with_three<'a>(
    name: &[u8],
    hold: Argument<'a>,
    second: Argument<'a>,
    third: Argument<'a>,
) -> Option<Command<'a>>
    ensures { Picks name.now (hold.entry ∷ second.entry ∷ third.entry ∷ []) result }
{
    match name {
        b"note" => Some(Command::Note {
            hold,
            code: second,
            number: third,
        }),
        b"set" => Some(Command::Set {
            hold,
            word: second,
            number: third,
        }),
        b"put" => Some(Command::Put {
            hold,
            word: second,
            from: third,
        }),
        b"fetch" => Some(Command::Fetch {
            hold,
            word: second,
            to: third,
        }),
        _ => None,
    }
}

fn parse_words<'a>(name: &[u8], follow: Words<'a>) -> Option<Command<'a>>
    ensures { ParsesWords name.now follow.entry.rest result }
{
    match gather(follow)? {
        Arguments::One(number) => with_one(name, number),
        Arguments::Two(first, second) => with_two(name, first, second),
        Arguments::Three(hold, second, third) => with_three(name, hold, second, third),
    }
}

fn parse<'a>(line: &'a [u8]) -> Option<Command<'a>>
    ensures { options.MatchOption result (NoLine line.now) (λ c. Says line.now c) }
{
    if line.len() > LONGEST_LINE {
        return None;
    }
    let (name, text) = cut(line);
    let follow = Part {
        text,
        at: name.len(),
    };
    match name {
        b"types" => parse_types(follow),
        _ => parse_words(name, Words { rest: follow }),
    }
}

// The command of a line, or the refusal of what is no line of the script.
pub fn read<'a>(line: &'a [u8], number: u64) -> Result<Command<'a>, Refusal>
    ensures { results.MatchResult result (λ c. Says line.now c) (λ f. (f ≡ NotALine number) × NoLine line.now) }
{
    parse(line).ok_or(Refusal::NotALine { line: number })
}
