ghost use Rattle.std.specs.Prelude.{ℕ, ◌↔◌, MatchOption, IsTrue};
ghost use Rattle.lines.specs.Numbers.{Plain, Writes, Collects, Gives};

use crate::words::Words;
use arrayvec::ArrayVec;

// Whether the text has no plus in front, and no zero in front of others.
fn is_plain(text: &[u8]) -> bool
    ensures { IsTrue result ↔ Plain text.now }
{
    !matches!(text, [b'+', ..] | [b'0', _, ..])
}

// The number that a word writes: digits alone, with no zero in front of others, of at most 32 bits.
pub fn number(word: &[u8]) -> Option<u32>
    ensures { MatchOption result ((n : ℕ) → Writes word.now n → ⊥) (λ n. Writes word.now n) }
{
    if !is_plain(word) {
        return None;
    }
    match std::str::from_utf8(word) {
        Ok(text) => text.parse().ok(),
        Err(_) => None,
    }
}

// Writes the numbers of a text, each after a space, into the buffer, and answers how many they are. The room of a lent buffer is known
// only when the program runs, so it is no `ArrayVec`.
pub fn numbers(text: &[u8], buffer: &mut [u32]) -> Option<usize>
    ensures { Collects text.now buffer.new result }
{
    let mut count = 0;
    for word in Words::of(text)? {
        if count == buffer.len() {
            return None;
        }
        buffer[count] = number(word.text)?;
        count += 1;
    }
    Some(count)
}

// The numbers of a text, each after a space, if there is room for them. Inlined, so that a caller that only tests for them writes none.
#[inline(always)]
pub fn numbers_in<const N: usize>(text: &[u8]) -> Option<ArrayVec<u32, N>>
    ensures { Gives text.now N result }
{
    let mut numbers = ArrayVec::new();
    for word in Words::of(text)? {
        numbers.try_push(number(word.text)?).ok()?;
    }
    Some(numbers)
}
