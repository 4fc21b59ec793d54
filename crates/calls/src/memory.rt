ghost use Rattle.std.specs.Prelude.{◌≡◌};
ghost use Rattle.std.specs.Result.{result_err};
ghost use Rattle.calls.specs.Rows.{row_1, memory_due};

pub use refusals::limits::{FEWEST_WORDS, MOST_WORDS};
use refusals::refusal::Refusal;

// Refuses memory that no heap may stand on.
pub fn check_memory(words: usize, marks: usize) -> Result<(), Refusal>
    ensures { result_err result ≡ row_1 words marks }
{
    if !(FEWEST_WORDS..=MOST_WORDS).contains(&words) || marks != words {
        return Err(Refusal::MemorySize);
    }
    Ok(())
}

// Refuses memory that no scan may be made in: each word may want a pending place.
pub fn check_pending(words: usize, marks: usize, pending: usize) -> Result<(), Refusal>
    ensures { result_err result ≡ memory_due words marks pending }
{
    check_memory(words, marks)?;
    if pending < words {
        return Err(Refusal::MemorySize);
    }
    Ok(())
}
