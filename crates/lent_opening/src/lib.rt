// The opening on a record that is lent by `&mut` (rule 12.9): a thin function over the step by value.

#![tactic(auto)]

ghost use Rattle.std.specs.Prelude.{◌≡◌};
ghost use Rattle.map.specs.Memory.{base};
ghost use Rattle.map.specs.Slices.{lent_in, IsSameRoom};
ghost use Rattle.update.specs.UpdateCall.{left_of, update_call};
ghost use Rattle.opening.specs.Asked.{asked};

use map::{Record, Room};
use opening::Notice;
use step::Asked;
use update::Report;

// The opening of a depot, or of a yard, on a record that is lent, and is brought up to date (rule 4.1).
pub fn open(rec: &mut Record, links: &mut [u64], room: &mut Room<'_>, notice: Notice<'_>) -> Report
    ensures same { IsSameRoom room.old room.new }
    ensures left { left_of result rec.new links.new (lent_in room.new)
        ≡ update_call base rec.old links.old (lent_in room.old) (asked notice.entry) }
{
    let got = step::step(*rec, links, room, Asked::Opening(notice));
    *rec = got.after;
    got.report
}
