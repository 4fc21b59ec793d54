ghost use Rattle.std.specs.Prelude.{◌≡◌, ℕ};
ghost use Rattle.std.specs.Option.{option_map};
ghost use Rattle.layouts.specs.Classes.{class_of, references};

use crate::source::TemplateSource;
use layouts::entry::{Class, Entry};

// The class of a word, by its own entry and the one before it.
pub fn class<S: TemplateSource>(source: &S, code: u32, word: u32) -> Class
    ensures { result ≡ class_of (S.TemplateSource.meaning source.now) code word }
{
    match source.entry(code, word) {
        Entry::P => Class::Pointer,
        Entry::Code(of) => Class::Typed(of),
        Entry::Z => match source.entry(code, word.saturating_sub(1)) {
            Entry::P => Class::SecondHalf,
            _ => Class::Plain,
        },
    }
}

// How many pointers and addresses a cell of the type holds, or that there is no such type. The laws let a pointer be stepped over
// by two.
pub fn count_references<S: TemplateSource>(source: &S, code: u32) -> Option<u32>
    ensures { result ≡ option_map (λ n. references (S.TemplateSource.meaning source.now) code n) ((S.TemplateSource.meaning source.now).size code) }
{
    let n = source.size(code)?;
    let mut count = 0;
    let mut word = 1;
    // The step is one or two words, as the entry says, which no range has.
    while word <= n {
        match source.entry(code, word) {
            Entry::P => {
                count += 1;
                word += 2;
            }
            Entry::Code(_) => {
                count += 1;
                word += 1;
            }
            Entry::Z => word += 1,
        }
    }
    Some(count)
}
