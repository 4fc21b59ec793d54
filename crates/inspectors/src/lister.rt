ghost use Rattle.std.specs.Prelude.{◌≡◌, ◌-◌, ◌≤◌, length, decimal};
ghost use Rattle.std.specs.List.{flat_map};
ghost use Rattle.std.specs.Option.{SomeIff};
ghost use Rattle.inspectors.specs.Lines.{Room, appended, line, spaced, Lists};
ghost use Rattle.inspectors.specs.Listings.{Writes, lister_step, unwritten, written};

use itoa::Buffer;
use scan::inspector::{Full, Inspector};

// Writes a line for each cell into a lent buffer: the code, the address and the words in decimal, with a space between any two.
// The buffer is the caller's, so how much of it is used stands beside it. That this lies within the buffer is no ghost field, since
// `lister_step` makes a lister from its parts, and would have to carry the proof.
#[derive(Drop)]
pub struct Lister<'b> {
    out: &'b mut [u8],
    used: usize,
}

// How many digits n has.
fn width(n: u32) -> usize
    ensures { (result ≡ length (decimal n)) × (result ≤ 10) }
{
    Buffer::new().format(n).len()
}

// What is left of so much room after a line, if the line fits. Code, address and words come apart, as in `Inspector::visit`.
fn room_after(room: usize, code: u32, address: u32, words: &[u32]) -> Option<usize>
    ensures { SomeIff result (length (line code address words.now) ≤ room) (room - length (line code address words.now)) }
{
    let mut left = room.checked_sub(width(code) + width(address) + 2)?;
    for w in words {
        left = left.checked_sub(width(*w) + 1)?;
    }
    Some(left)
}

impl<'b> Lister<'b> {
    // A lister that has written nothing.
    pub fn new(buffer: &'b mut [u8]) -> Lister<'b>
        ensures value { result ≡ unwritten buffer.entry }
        ensures writes { Writes buffer.entry result }
    {
        Lister {
            out: buffer,
            used: 0,
        }
    }

    // The lines so far.
    pub fn written(&self) -> &[u8]
        ensures { result.now ≡ written self.now }
    {
        let out = &*self.out;
        &out[..self.used.min(out.len())]
    }

    // Writes the bytes after what is written. It asks for room as each writer below does, for its own text, so no field can say it.
    fn put(&mut self, bytes: &[u8])
        requires { Room self.old bytes.now }
        ensures { self.new ≡ appended self.old bytes.now }
    {
        let start = self.used;
        let end = start + bytes.len();
        self.out[start..end].copy_from_slice(bytes);
        self.used = end;
    }

    fn put_number(&mut self, n: u32)
        requires { Room self.old (decimal n) }
        ensures { self.new ≡ appended self.old (decimal n) }
    {
        self.put(Buffer::new().format(n).as_bytes());
    }

    // Writes a space and n.
    fn put_spaced(&mut self, n: u32)
        requires { Room self.old (spaced n) }
        ensures { self.new ≡ appended self.old (spaced n) }
    {
        self.put(b" ");
        self.put_number(n);
    }

    // Writes each word, with a space in front of it.
    fn put_words(&mut self, words: &[u32])
        requires { Room self.old (flat_map spaced words.now) }
        ensures { self.new ≡ appended self.old (flat_map spaced words.now) }
    {
        for w in words {
            self.put_spaced(*w);
        }
    }

    // Piece by piece, and no `write!`: of that a proof knows the text only where it goes to a `String`.
    fn put_line(&mut self, code: u32, address: u32, words: &[u32])
        requires { Room self.old (line code address words.now) }
        ensures { self.new ≡ appended self.old (line code address words.now) }
    {
        self.put_number(code);
        self.put_spaced(address);
        self.put_words(words);
        self.put(b"\n");
    }
}

impl<'b> Inspector for Lister<'b> {
    type Report = usize;

    ghost step = { lister_step };

    ghost reported = { λ s. s.used };

    fn visit(&mut self, code: u32, address: u32, words: &[u32]) -> Result<(), Full> {
        let room = self.out.len().saturating_sub(self.used);
        room_after(room, code, address, words).ok_or(Full)?;
        self.put_line(code, address, words);
        Ok(())
    }

    fn report(&self) -> usize {
        self.used
    }
}

// Lists one cell at the start of a buffer, and answers how many bytes its line has, or none where it does not fit.
pub fn list_one(buffer: &mut [u8], code: u32, address: u32, words: &[u32]) -> Option<usize>
    ensures { Lists (line code address words.now) buffer.old buffer.new result }
{
    let mut lister = Lister::new(buffer);
    lister.visit(code, address, words).ok()?;
    Some(lister.report())
}
