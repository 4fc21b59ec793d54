ghost use Rattle.std.specs.Prelude.{◌≡◌};

// A hold that a program has. It is not `Drop`: it has to be given back by `release`, or handed on.
pub struct Hold {
    pub(crate) number: u32,
}

impl Hold {
    // Hands the hold on to the calls by hold number; it stays held. No `From`: that a hold is handed on is to be said by name.
    pub fn into_number(self) -> u32
        ensures { result ≡ self.number }
    {
        let Hold { number } = self;
        number
    }
}
