ghost use Rattle.std.specs.Prelude.{MatchOption, MatchResult};
ghost use Rattle.free_list.specs.Free.{proper, broken, FirstFit, NoFit};

use crate::runs::{Break, Found, Runs};

// The first run of `n` words or more; or the word that holds a broken link, where the walk gets to one.
pub(crate) fn first_fit(words: &[u32], n: u32) -> Result<Option<Found>, Break>
    ensures { MatchResult result (λ o. MatchOption o (NoFit words.now n proper) (λ f. FirstFit words.now n f.link_at f.run f.size)) (λ e. NoFit words.now n (broken e.at)) }
{
    for run in Runs::new(words) {
        let found = run?;
        if found.size >= n {
            return Ok(Some(found));
        }
    }
    Ok(None)
}
