ghost use Rattle.std.specs.Prelude.{◌≡◌};
ghost use Rattle.layouts.specs.Types.{Types, Lawful};

use layouts::entry::Entry;

// A template source answers by a fixed meaning, which keeps the laws of templates.
pub trait TemplateSource {
    ghost meaning: { Self → Types };

    // How many words a cell of the type has, or that there is no such type.
    fn size(&self, code: u32) -> Option<u32>
        ensures { result ≡ (meaning self.now).size code };

    // What a word of a cell of the type holds; the words count from 1.
    fn entry(&self, code: u32, word: u32) -> Entry
        ensures { result ≡ (meaning self.now).entry code word };

    ghost laws: { (s : Self) → Lawful (meaning s) };
}
