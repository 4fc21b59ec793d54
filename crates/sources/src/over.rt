ghost use Rattle.std.specs.Prelude.{◌≡◌};
ghost use Rattle.layouts.specs.Over.{over};
ghost use Rattle.layouts.proofs.OverLaws.{over_lawful};

use crate::rule::Rule;
use crate::source::TemplateSource;
use crate::words::RULE_FIRST;
use layouts::entry::Entry;

// The rule on top of another source: codes from 32,768 on go to the rule, the others to the source below.
#[derive(Drop)]
pub struct Over<S> {
    pub below: S,
}

impl<S: TemplateSource> TemplateSource for Over<S> {
    ghost meaning = { λ o. over (S.TemplateSource.meaning o.below) };

    ghost laws = { λ o. over_lawful (S.TemplateSource.meaning o.below) (S.laws o.below) };

    fn size(&self, code: u32) -> Option<u32> {
        if code >= RULE_FIRST {
            Rule.size(code)
        } else {
            self.below.size(code)
        }
    }

    fn entry(&self, code: u32, word: u32) -> Entry {
        if code >= RULE_FIRST {
            Rule.entry(code, word)
        } else {
            self.below.entry(code, word)
        }
    }
}
