ghost use Rattle.std.specs.Prelude.{◌≡◌, ◌+◌, ◌<◌, ◌≤◌, length};
ghost use Rattle.sweeping.specs.Sweeping.{Closed};

use free_list::halves::Halves;

// Unmarked words that are not linked yet: how many they are, and where the run behind them is.
#[derive(Drop)]
pub(crate) struct Stretch {
    pub(crate) size: u32,
    pub(crate) next: u32,
}

impl Stretch {
    // Makes the stretch, which begins at `at`, a run, and goes on with an empty one before it. An empty stretch is no run.
    pub(crate) fn close(&mut self, words: &mut [u32], at: u32)
        requires there { 1 ≤ at }
        requires within { at + self.old.size ≤ length words.old }
        requires long { length words.old ≤ 65536 }
        requires link { self.old.next < 65536 }
        ensures words { Closed words.old at self.old.size self.old.next words.new self.new.next }
        ensures empty { self.new.size ≡ 0 }
    {
        if self.size == 0 {
            return;
        }
        let run = Halves {
            size: self.size,
            link: self.next,
        };
        words[at as usize] = run.into();
        *self = Stretch { size: 0, next: at };
    }
}
