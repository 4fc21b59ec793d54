ghost use Rattle.std.specs.Prelude.{◌≡◌, ℕ, slice_index, slice_set};
ghost use Rattle.cells.specs.Words.{fits, words_in, fitting_cell, pointer_says, says, with_content};

use crate::content::Content;
use layouts::entry::Class;
use sources::source::TemplateSource;

// How many words a cell of the type has; 0 where there is no such type.
pub fn words_of<S: TemplateSource>(source: &S, code: u32) -> u32
    ensures { result ≡ words_in ((S.TemplateSource.meaning source.now).size code) }
{
    source.size(code).unwrap_or(0)
}

// Whether a cell of the type at the address lies in a heap of so many words. Code and address are two parameters, as they are in the
// heap: two words, or one of them known from the layout.
pub fn does_fit<S: TemplateSource>(source: &S, length: usize, code: u32, address: u32) -> bool
    ensures { result ≡ fits (S.TemplateSource.meaning source.now) length code address }
{
    let n = words_of(source, code);
    n >= 1 && address >= 1 && address as usize + n as usize <= length
}

// A word, or 0 past the end.
fn read_word(words: &[u32], at: usize) -> u32
    ensures { result ≡ slice_index words.now at }
{
    words.get(at).copied().unwrap_or(0)
}

// Writes a word; past the end there is none.
fn write_word(words: &mut [u32], at: usize, word: u32)
    ensures { words.new ≡ slice_set words.old at word }
{
    // By its index, since nothing is known of a slice after a write through its `get_mut`.
    if at < words.len() {
        words[at] = word;
    }
}

fn fit_cell<S: TemplateSource>(
    source: &S,
    length: usize,
    code: u32,
    address: u32,
) -> Option<Content>
    ensures { result ≡ fitting_cell (S.TemplateSource.meaning source.now) length code address }
{
    does_fit(source, length, code, address).then_some(Content::Cell { code, address })
}

fn read_pointer<S: TemplateSource>(
    source: &S,
    length: usize,
    code: u32,
    value: u32,
) -> Option<Content>
    ensures { result ≡ pointer_says (S.TemplateSource.meaning source.now) length code value }
{
    if code == 0 {
        return Some(Content::Nothing);
    }
    match source.size(code) {
        Some(0) => Some(Content::Immediate {
            code,
            number: value,
        }),
        _ => fit_cell(source, length, code, value),
    }
}

// What the word says, by its class; none where its child does not fit, and where it holds no content.
pub fn read_content<S: TemplateSource>(
    words: &[u32],
    source: &S,
    at: usize,
    class: Class,
) -> Option<Content>
    ensures { result ≡ says (S.TemplateSource.meaning source.now) words.now at class }
{
    let first = read_word(words, at);
    match class {
        Class::Pointer => {
            let second = read_word(words, at.saturating_add(1));
            read_pointer(source, words.len(), first, second)
        }
        Class::Typed(_) if first == 0 => Some(Content::Nothing),
        Class::Typed(of) => fit_cell(source, words.len(), of, first),
        Class::Plain | Class::SecondHalf => None,
    }
}

// Puts a content where the word stands, by its class.
pub fn write_content(words: &mut [u32], at: usize, class: Class, content: Content)
    ensures { words.new ≡ with_content words.old at class content }
{
    let (code, value) = content.halves();
    match class {
        Class::Pointer => {
            write_word(words, at, code);
            write_word(words, at.saturating_add(1), value);
        }
        Class::Typed(_) => write_word(words, at, value),
        Class::Plain | Class::SecondHalf => {}
    }
}
