ghost use Rattle.std.specs.Prelude.{◌≡◌, ℕ, ◌≤◌, false, length, is_some, Option, IfOk};
ghost use Rattle.std.specs.Result.{result_err};
ghost use Rattle.refusals.specs.declared.refusal.Refusal.{Refusal};
ghost use Rattle.layouts.specs.Table.{bad_start, lowest, table_refusal};
ghost use Rattle.layouts.specs.Templates.{FollowsRule};
ghost use Rattle.sources.specs.Asked.{Refuses};
ghost use Rattle.sources.specs.declared.spot.Spot.{Spot};

use crate::spot::Spot;
use crate::starts::{Flagged, next_due};
use crate::words::TABLE_WORDS;
use refusals::refusal::Refusal;

pub(crate) fn is_bad_start(words: &[u32]) -> bool
    ensures { result ≡ bad_start words.now }
{
    words.is_empty() || words.len() > TABLE_WORDS || words[0] != 0
}

// Asks the rule at each word in order, up to the first that it refuses.
fn ask_each<'a, F: Fn(Spot<'a>) -> Result<(), Refusal>>(
    words: &'a [u32],
    rule: F,
) -> Result<(), Refusal>
    requires short { length words.now ≤ 32768 }
    requires asked { (s : Spot) → s.words.now ≡ words.now → F.pre rule s }
    ensures { (told : ℕ → Option Refusal) → Refuses (F.post rule) words.now told → result_err result ≡ lowest told (length words.now) }
{
    let mut left = 0;
    for (k, word) in words.iter().enumerate() {
        rule(Spot { words, k, left })?;
        left = next_due(left, *word);
    }
    Ok(())
}

// The words with their flags, which lie in the array that is lent, or the refusal of a table that starts well. The words are flagged
// once every template is accepted, so that the refusal of a template takes no longer than the words before it.
pub(crate) fn checked<'a>(
    words: &'a [u32],
    starts: &'a mut [bool; TABLE_WORDS],
) -> Result<Flagged<'a>, Refusal>
    requires { bad_start words.now ≡ false }
    ensures refusal { result_err result ≡ table_refusal words.now }
    ensures words { IfOk result (λ t. t.words.now ≡ words.now) }
{
    ask_each(words, Spot::template_refusal)?;
    let table = Flagged::new(words, starts);
    ask_each(words, |spot| spot.entry_refusal(&table))?;
    Ok(table)
}

// The refusal of a table, if any: none exactly when the words follow the template rule.
pub fn check(words: &[u32]) -> Option<Refusal>
    ensures refusal { result ≡ table_refusal words.now }
    ensures exactly { (is_some result ≡ false → FollowsRule words.now) × (FollowsRule words.now → is_some result ≡ false) }
{
    if is_bad_start(words) {
        return Some(Refusal::TableStart);
    }
    let mut starts = [false; TABLE_WORDS];
    checked(words, &mut starts).err()
}
