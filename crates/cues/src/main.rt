// Reads the script from standard input, and prints the answer to each line before it waits for more.
#![tactic(auto)]

ghost use Rattle.std.specs.Prelude.{◌≡◌, [], IfOk, MatchResult, OnOk, ◌≢◌};
ghost use Rattle.std.specs.declared.io.ErrorKind.TheVariants.{Interrupted};
ghost use Rattle.lines.specs.Buffer.{held};
ghost use Rattle.script.specs.Obeying.{empty};
ghost use Rattle.script.specs.Session.{state};
ghost use Rattle.cues.specs.Reading.{Accepts, Ends, LineEnded, pending};

use anyhow::anyhow;
use lines::buffer::LineBuffer;
use script::session::Session;
use std::io::{Error, ErrorKind, Read};
use std::ops::ControlFlow;

const CHUNK: usize = 4096;

#[derive(Drop)]
struct Desk {
    session: Session,
    line: LineBuffer,
    // The number of the line that comes next, from 1.
    number: u64,
}

impl Desk {
    fn new() -> Desk
        ensures session { state result.session ≡ empty }
        ensures line { held result.line ≡ [] }
        ensures number { result.number ≡ 1 }
    {
        Desk {
            session: Session::new(),
            line: LineBuffer::new(),
            number: 1,
        }
    }

    fn end_line(&mut self, rt: &HostRuntime) -> anyhow::Result<()>
        ensures { OnOk result (LineEnded self.old self.new) }
    {
        let text = self
            .session
            .answer(rt.alloc(), self.number, self.line.as_slice())?;
        rt.print(text.as_str())?;
        self.line.clear();
        self.number = self.number.saturating_add(1);
        Ok(())
    }

    fn take(&mut self, rt: &HostRuntime, bytes: &[u8]) -> anyhow::Result<()>
        ensures { OnOk result (held self.new.line ≡ pending (held self.old.line) bytes.now) }
    {
        for byte in bytes {
            if *byte == b'\n' {
                self.end_line(rt)?;
            } else {
                self.line.push(*byte);
            }
        }
        Ok(())
    }

    // A last line may lack its line feed.
    fn end(&mut self, rt: &HostRuntime) -> anyhow::Result<()>
        ensures { OnOk result (Ends self.old self.new) }
    {
        if self.line.as_slice().is_empty() {
            Ok(())
        } else {
            self.end_line(rt)
        }
    }

    // Takes what a read brought: nothing at all is the end of the input.
    fn accept(&mut self, rt: &HostRuntime, bytes: &[u8]) -> anyhow::Result<ControlFlow<()>>
        ensures { IfOk result (λ flow. Accepts bytes.now self.old self.new flow) }
    {
        if bytes.is_empty() {
            self.end(rt)?;
            Ok(ControlFlow::Break(()))
        } else {
            self.take(rt, bytes)?;
            Ok(ControlFlow::Continue(()))
        }
    }
}

// Goes on after an interrupted read; an error of any other kind is passed on.
fn go_on(kind: ErrorKind, error: Error) -> Result<(), Error>
    ensures { MatchResult result (λ _. kind ≡ Interrupted) (λ e. (e ≡ error) × (kind ≢ Interrupted)) }
{
    match kind {
        ErrorKind::Interrupted => Ok(()),
        _ => Err(error),
    }
}

fn run(rt: &HostRuntime) -> anyhow::Result<()> {
    let mut desk = Desk::new();
    let mut input = rt.stdin();
    let mut chunk = [0; CHUNK];
    for _ in 0..u64::MAX {
        match input.read(&mut chunk) {
            Ok(n) => {
                if desk.accept(rt, &chunk[0..n])?.is_break() {
                    return Ok(());
                }
            }
            Err(e) => go_on(e.kind(), e)?,
        }
    }
    Err(anyhow!("the input does not end"))
}

fn main(rt: HostRuntime) -> anyhow::Result<()> {
    run(&rt)
}
