// What a batch of openings leaves of lent memory: the type of its answer, and specifications and laws (specs/Lib.antt). The code is `batch_opening`.

#![tactic(auto)]

pub mod promises;

use map::Record;

// What an accepted batch leaves beside the lent memory: how many lines are left over, and the record.
#[derive(Clone, Copy)]
pub struct Batched {
    pub left: u8,
    pub after: Record,
}
