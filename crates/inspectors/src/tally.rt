ghost use Rattle.std.specs.Prelude.{◌≡◌, ◌+◌, ◌^◌, ◌<◌, position};
ghost use Rattle.std.specs.Option.{SomeIff};
ghost use Rattle.inspectors.specs.Counts.{Counts};
ghost use Rattle.inspectors.specs.Tallies.{empty, serves, counted, tally_step};

use scan::inspector::{Full, Inspector};

// How many types a tally counts.
pub const TYPES: usize = 32;

// How many cells of a type there are, and how many words they have. A row that is not in use has no cells, and is no `None`:
// so a new type and a known one are counted in one way.
#[derive(Clone, Copy, PartialEq, Eq, Default, Debug)]
pub struct Row {
    pub code: u32,
    pub cells: u32,
    pub words: u32,
}

impl Row {
    // Whether the row counts the code, or nothing yet.
    fn serves(&self, code: u32) -> bool
        ensures { result ≡ serves code self.now }
    {
        self.code == code || self.cells == 0
    }

    // The row with one cell more, of so many words, where both counts stay below 2^32.
    fn with_cell(self, code: u32, words: usize) -> Option<Row>
        ensures { SomeIff result ((self.cells + 1 < 2 ^ 32) × (self.words + words < 2 ^ 32)) (counted code words self) }
    {
        Some(Row {
            code,
            cells: self.cells.checked_add(1)?,
            words: self.words.checked_add(words.try_into().ok()?)?,
        })
    }
}

// Counts cells and words by type.
#[derive(Clone, Copy, PartialEq, Eq, Debug)]
pub struct Tally {
    rows: [Row; TYPES],
}

impl Tally {
    pub fn new() -> Tally
        ensures value { result ≡ empty }
        ensures counts { Counts result }
    {
        Tally {
            rows: [Row::default(); TYPES],
        }
    }
}

// The place of the code's row, or of the first that counts nothing yet.
fn place(rows: &[Row], code: u32) -> Option<usize>
    ensures { result ≡ position (serves code) rows.now }
{
    rows.iter().position(|row| row.serves(code))
}

impl Inspector for Tally {
    type Report = [Row; TYPES];

    ghost step = { tally_step };

    ghost reported = { λ s. s.rows };

    fn visit(&mut self, code: u32, _address: u32, words: &[u32]) -> Result<(), Full> {
        let i = place(&self.rows, code).ok_or(Full)?;
        self.rows[i] = self.rows[i].with_cell(code, words.len()).ok_or(Full)?;
        Ok(())
    }

    fn report(&self) -> [Row; TYPES] {
        self.rows
    }
}
