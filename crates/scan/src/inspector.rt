ghost use Rattle.std.specs.Prelude.{◌≡◌, Some, Option};
ghost use Rattle.scan.specs.Visits.{Visit, Visited, visit_of};

// The answer of an inspector that is full: the visit was not made.
#[derive(Clone, Copy, PartialEq, Eq, Debug)]
pub struct Full;

// An inspector is shown each cell of a scan once. A visit changes what it holds in a fixed way, or it is full and changes nothing.
pub trait Inspector {
    type Report;

    // What it holds after a visit; none where it is full.
    ghost step: { Self → Visit → Option Self };

    ghost reported: { Self → Self.Report };

    // Takes the visit of a cell, or is full.
    fn visit(&mut self, code: u32, address: u32, words: &[u32]) -> Result<(), Full>
        ensures { Visited (step self.old (visit_of code address words.now)) self.old self.new result };

    fn report(&self) -> Self::Report
        ensures { result ≡ reported self.now };
}

// The inspector of a scan that only marks: it takes every visit and holds nothing.
#[derive(Clone, Copy, PartialEq, Eq, Debug)]
pub struct Nobody;

impl Inspector for Nobody {
    type Report = ();

    ghost step = { λ s v. Some s };

    ghost reported = { λ s. tt };

    fn visit(&mut self, _code: u32, _address: u32, _words: &[u32]) -> Result<(), Full> {
        Ok(())
    }

    fn report(&self) -> () {}
}
