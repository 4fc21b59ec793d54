ghost use Rattle.std.specs.Prelude.{◌≡◌};

use crate::source::TemplateSource;
use layouts::entry::Entry;

// A shared reference to a source is a source.
impl<'a, S: TemplateSource> TemplateSource for &'a S {
    ghost meaning = { λ s. S.TemplateSource.meaning s.now };

    ghost laws = { λ s. S.laws s.now };

    fn size(&self, code: u32) -> Option<u32> {
        (**self).size(code)
    }

    fn entry(&self, code: u32, word: u32) -> Entry {
        (**self).entry(code, word)
    }
}
