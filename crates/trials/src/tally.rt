// How many cases a group tried, and whether all of them came out as expected.
use std::fmt;

#[derive(Clone, Copy)]
pub(crate) struct Tally {
    tried: u32,
    ok: bool,
}

impl Tally {
    // Nothing tried yet.
    pub(crate) fn new() -> Tally {
        Tally { tried: 0, ok: true }
    }

    // One case more, and whether it came out as expected.
    pub(crate) fn see(&mut self, ok: bool) {
        self.tried = self.tried.saturating_add(1);
        self.ok = self.ok && ok;
    }
}

// As it is printed behind the name of a group.
impl fmt::Display for Tally {
    fn fmt<W: fmt::Write>(&self, f: &mut fmt::Formatter<W>) -> fmt::Result {
        let tried = self.tried;
        let outcome = if self.ok { "ok" } else { "DIFFERENT" };
        write!(f, "{tried} cases, {outcome}")
    }
}
