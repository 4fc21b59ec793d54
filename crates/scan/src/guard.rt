ghost use Rattle.std.specs.Prelude.{◌≡◌, length, replicate};

// The byte of a word that is marked; a word with any other is not.
pub const MARKED: u8 = 1;

// The lent mark bytes, all zero again once it is dropped, whatever way out is taken.
pub struct Marks<'a> {
    pub bytes: &'a mut [u8],
}

impl Drop for Marks<'_> {
    fn drop(self)
        ensures { self.exit.0.now ≡ replicate (length self.entry.bytes.now) 0 }
    {
        self.bytes.fill(0);
        let Marks { bytes: _ } = self;
    }
}

impl<'a> Marks<'a> {
    // Holds the lent bytes, all set to zero first.
    pub fn cleared(bytes: &'a mut [u8]) -> Marks<'a>
        ensures same_reference { result.bytes.ghost_name ≡ bytes.entry.ghost_name }
        ensures zeroed { result.bytes.now ≡ replicate (length bytes.entry.now) 0 }
    {
        bytes.fill(0);
        Marks { bytes }
    }

    // Leaves the bytes as they are.
    pub fn keep(self)
        ensures { self.exit.0.now ≡ self.entry.bytes.now }
    {
        let Marks { bytes: _ } = self;
    }
}
