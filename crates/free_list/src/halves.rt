ghost use Rattle.std.specs.Prelude.{◌≡◌};
ghost use Rattle.free_list.specs.Free.{size_of, link_of, runWord};

// The two halves of a word: how many words the run has that begins there, and the address of the next run.
#[derive(Clone, Copy, PartialEq, Eq, Debug)]
pub struct Halves {
    pub size: u32,
    pub link: u32,
}

impl From<u32> for Halves {
    ghost from_gives = { λ word halves. (halves.size ≡ size_of word) × (halves.link ≡ link_of word) };

    fn from(word: u32) -> Halves {
        Halves {
            size: word / 65536,
            link: word % 65536,
        }
    }
}

impl From<Halves> for u32 {
    ghost from_gives = { λ halves word. word ≡ runWord (link_of halves.size) (link_of halves.link) };

    // Each half is the low half of its number.
    fn from(halves: Halves) -> u32 {
        halves.size % 65536 * 65536 + halves.link % 65536
    }
}
