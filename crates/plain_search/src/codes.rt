// A list of codes without a heap: at most as many as there are.
ghost use Rattle.std.specs.Prelude.{◌≡◌, ◌≤◌, []};
ghost use Rattle.plain_search.specs.Listed.{listed, pushed};
ghost use Rattle.plain_search.specs.declared.TheConstants.{CODES};

use crate::CODES;

#[derive(Clone, Copy)]
pub struct Codes {
    codes: [u8; CODES],
    count: usize,
    ghost within: { count ≤ CODES },
}

impl Codes {
    // No codes.
    pub fn new() -> Codes
        ensures { listed result.codes result.count ≡ [] }
    {
        Codes {
            codes: [0; CODES],
            count: 0,
        }
    }

    // Puts a code at the end of the list, unless it is full.
    pub fn push(&mut self, code: u8)
        ensures { listed self.new.codes self.new.count ≡ pushed (listed self.old.codes self.old.count) code }
    {
        if self.count < CODES {
            self.codes[self.count] = code;
            self.count += 1;
        }
    }

    // The codes of the list.
    pub fn items(&self) -> &[u8]
        ensures { result.now ≡ listed self.now.codes self.now.count }
    {
        &self.codes[..self.count]
    }
}
