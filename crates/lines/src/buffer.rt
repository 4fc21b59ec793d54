ghost use Rattle.std.specs.Prelude.{◌≤◌};

// A line has at most 400 bytes: one more tells that it is too long.
const ROOM: usize = 401;

// The bytes of one line as they come, without those past the room. An `ArrayVec` would write every place that it gives up.
#[derive(Drop)]
pub struct LineBuffer {
    bytes: [u8; ROOM],
    used: usize,
    ghost within: { used ≤ 401 },
}

impl LineBuffer {
    ghost use Rattle.std.specs.Prelude.{◌≡◌, ◌≤◌, [], ◌∷◌, ◌++◌, length, take};
    ghost use Rattle.lines.specs.Buffer.{held};

    pub fn new() -> LineBuffer
        ensures { held result ≡ [] }
    {
        LineBuffer {
            bytes: [0; ROOM],
            used: 0,
        }
    }

    pub fn push(&mut self, byte: u8)
        ensures { held self.new ≡ take 401 (held self.old ++ byte ∷ []) }
    {
        if self.used < ROOM {
            self.bytes[self.used] = byte;
            self.used += 1;
        }
    }

    pub fn clear(&mut self)
        ensures { held self.new ≡ [] }
    {
        self.used = 0;
    }

    pub fn as_slice(&self) -> &[u8]
        ensures value { result.now ≡ held self.now }
        ensures fits { length result.now ≤ 401 }
    {
        &self.bytes[0..self.used]
    }
}
