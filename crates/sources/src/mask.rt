ghost use Rattle.std.specs.Prelude.{◌≡◌, ◌<◌, ◌≤◌, [], ◌∷◌, ◌++◌, length, MatchResult};
ghost use Rattle.refusals.specs.declared.refusal.Refusal.TheVariants.{MaskFull};
ghost use Rattle.layouts.specs.Mask.{masked};
ghost use Rattle.layouts.proofs.MaskLaws.{masked_lawful};

use crate::source::TemplateSource;
use crate::words::MASK_PLACES;
use arrayvec::ArrayVec;
use layouts::entry::Entry;
use layouts::place::Place;
use refusals::refusal::Refusal;

// Another source, with up to 32 words that read Z. Each place handed in takes one of the 32, also where it is there already.
#[derive(Drop)]
pub struct Mask<S> {
    source: S,
    places: ArrayVec<Place, MASK_PLACES>,
    ghost few: { length places.items ≤ 32 },
}

impl<S: TemplateSource> TemplateSource for Mask<S> {
    ghost meaning = { λ m. masked m.places.items (S.TemplateSource.meaning m.source) };

    ghost laws = { λ m. masked_lawful m.places.items (S.TemplateSource.meaning m.source) (S.laws m.source) };

    fn size(&self, code: u32) -> Option<u32> {
        self.source.size(code)
    }

    fn entry(&self, code: u32, word: u32) -> Entry {
        if self.places.as_slice().contains(&Place { code, word }) {
            Entry::Z
        } else {
            self.source.entry(code, word)
        }
    }
}

impl<S: TemplateSource> Mask<S> {
    // The source with no word masked.
    pub fn new(source: S) -> Mask<S>
        ensures { (result.source ≡ source) × (result.places.items ≡ []) }
    {
        Mask {
            source,
            places: ArrayVec::new(),
        }
    }

    // One place more, refused where there are 32.
    pub fn cover(&mut self, place: Place) -> Result<(), Refusal>
        ensures { MatchResult result (λ _. (length self.old.places.items < 32) × (self.new.source ≡ self.old.source) × (self.new.places.items ≡ self.old.places.items ++ place ∷ [])) (λ f. (f ≡ MaskFull) × (length self.old.places.items ≡ 32) × (self.new ≡ self.old)) }
    {
        self.places.try_push(place).map_err(|_| Refusal::MaskFull)
    }
}
