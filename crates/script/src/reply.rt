ghost use Rattle.std.specs.Prelude.{Some};
ghost use Rattle.script.specs.Replies.{shown};

use cells::content::Content;
use std::fmt;

// What a line that is obeyed comes to. It has the cases of an answer in `replay`, and is a type of its own, since only a type of this
// crate can be printed here.
#[derive(Clone, Copy)]
pub(crate) enum Reply {
    Done,
    Number(u32),
    Has(Content),
}

impl fmt::Display for Reply {
    ghost output = { λ reply. Some (shown reply) };

    fn fmt<W: fmt::Write>(&self, f: &mut fmt::Formatter<W>) -> fmt::Result {
        match *self {
            Reply::Done | Reply::Has(Content::Nothing) => write!(f, "ok"),
            Reply::Number(number) => write!(f, "ok {number}"),
            Reply::Has(Content::Cell { code, .. }) => write!(f, "ok {code}"),
            Reply::Has(Content::Immediate { code, number }) => write!(f, "ok {code} {number}"),
        }
    }
}
