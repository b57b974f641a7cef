// How far a long work is, told on a terminal. Used by `shell` and `recordctl`.
ghost use Rattle.std.specs.Prelude.{◌≡◌, false};

use std::io::Write;
use std::marker::Model;

// How many things are between two lines.
const EVERY: u64 = 4096;

// What takes a line of a terminal back to its begin, and clears it.
const CLEARED: &str = "\r\x1b[K";

/// How many things are done, and whether that is told.
#[derive(Drop)]
pub struct Progress {
    is_shown: bool,
    done: u64,
}

impl Model for Progress {
    ghost use Rattle.std.specs.Prelude.{Bool};

    // Whether it is told.
    ghost Value = { Bool };

    ghost view = { λ p. p.is_shown };
}

impl Progress {
    /// Nothing is done yet.
    pub fn new(is_shown: bool) -> Progress
        ensures { result ≡ is_shown }
    {
        Progress { is_shown, done: 0 }
    }

    /// Counts one more, and tells from time to time how many there are, in the place of what was
    /// told before.
    pub fn note<E: Write>(&mut self, errors: &mut E, what: &str)
        ensures same { self.new ≡ self.old }
        ensures quiet { self.old ≡ false → E.contents errors.new ≡ E.contents errors.old }
    {
        self.done = self.done.saturating_add(1);
        if self.is_shown && self.done % EVERY == 0 {
            let done = self.done;
            let _ = write!(errors, "{CLEARED}{done} {what}");
            let _ = errors.flush();
        }
    }

    /// Takes away what was told.
    pub fn end<E: Write>(&self, errors: &mut E)
        ensures quiet { self.now ≡ false → E.contents errors.new ≡ E.contents errors.old }
    {
        if self.is_shown && self.done >= EVERY {
            let _ = write!(errors, "{CLEARED}");
            let _ = errors.flush();
        }
    }
}
