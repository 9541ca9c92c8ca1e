// What every call that changes a map shares: its report, what refuses the lent memory whatever it is asked, and a refused answer.

#![tactic(auto)]

pub mod promises;

ghost use Rattle.std.specs.Prelude.{◌≡◌, length};
ghost use Rattle.map.specs.Memory.{base};
ghost use Rattle.outcome.specs.Refusals.{refused_by};
ghost use Rattle.map.specs.Slices.{sizes_with, room_sizes};
ghost use Rattle.update.specs.Steps.{map_refusal, refused_with};

use map::{Lengths, Record, Room};
use outcome::{Outcome, Refusal};

// The report of a call: its outcome, and the number of searches.
#[derive(Clone, Copy)]
pub struct Report {
    pub outcome: Outcome,
    pub searches: u16,
}

// What a call leaves beside the lent tables: its report and the record.
#[derive(Clone, Copy)]
pub struct Returned {
    pub report: Report,
    pub after: Record,
}

// ---- refusals

// The first refusal of the lent memory, whatever is asked. It only reads.
#[tactic(auto, using(map::proofs::Longs::are_long_lem, crate::proofs::Refuses::refused_map))]
pub fn map_refusal(
    rec: Record,
    links: &[u64],
    pairs: &[u64],
    lengths: Lengths,
) -> Result<(), Refusal>
    ensures { let long = sizes_with (length links.now) (length pairs.now) lengths in
        refused_by result ≡ map_refusal base rec links.now pairs.now long }
{
    lent_map::map_refusal(
        rec,
        links,
        Some(pairs),
        lengths.are_long(links.len(), pairs.len()),
    )
}

// The same of a room. Who holds it by `&mut` asks here: where a part of it is lent out of that, the room is not known to stand as it was.
pub fn room_refusal(rec: Record, links: &[u64], room: &Room<'_>) -> Result<(), Refusal>
    ensures { refused_by result ≡ map_refusal base rec links.now room.now.pairs.now (room_sizes (length links.now) room.now) }
{
    map_refusal(rec, links, &*room.pairs, room.lengths())
}

// What a call answers that is refused with a number.
pub fn refused(rec: Record, number: u8) -> Returned
    ensures { result ≡ refused_with number rec }
{
    let report = Report {
        outcome: Outcome::Refused(number),
        searches: 0,
    };
    Returned { report, after: rec }
}
