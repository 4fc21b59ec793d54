ghost use Rattle.std.specs.Prelude.{◌≡◌, ◌-◌, Some, None, cond};
ghost use Rattle.layouts.specs.Rule.{in_rule, rule};
ghost use Rattle.layouts.proofs.RuleLaws.{rule_lawful};

use crate::source::TemplateSource;
use crate::words::{LAST_CODE, MOST_WORDS, RULE_FIRST};
use layouts::entry::Entry;

// Templates for the codes from 32,768 on, which need no memory.
#[derive(Clone, Copy, PartialEq, Eq, Debug)]
pub struct Rule;

// Where a code stands among those of the rule, counted from 0.
fn place_in_rule(code: u32) -> Option<u32>
    ensures { result ≡ cond (in_rule code) (Some (code - 32768)) None }
{
    if (RULE_FIRST..=LAST_CODE).contains(&code) {
        Some(code - RULE_FIRST)
    } else {
        None
    }
}

impl TemplateSource for Rule {
    ghost meaning = { λ _. rule };

    ghost laws = { λ _. rule_lawful };

    fn size(&self, code: u32) -> Option<u32> {
        let d = place_in_rule(code)?;
        Some(1 + d % MOST_WORDS)
    }

    fn entry(&self, code: u32, word: u32) -> Entry {
        match place_in_rule(code) {
            Some(d) if d / MOST_WORDS % 2 == 1 && word % 2 == 1 && word < 1 + d % MOST_WORDS => {
                Entry::P
            }
            _ => Entry::Z,
        }
    }
}
