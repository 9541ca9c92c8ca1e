// The whole reckoning (rule 5.5): what refuses it, then rounds from nothing, and the record with their figures.

#![tactic(auto)]

pub mod promises;

ghost use Rattle.std.specs.Prelude.{◌≡◌, length};
ghost use Rattle.graph.specs.Chart.{chart};
ghost use Rattle.graph.specs.Rounds.{reckon};
ghost use Rattle.graph.specs.Correct.{IsNet};
ghost use Rattle.map.specs.Memory.{base};
ghost use Rattle.outcome.specs.Answers.{answer_of, refusal_in, leaves};
ghost use Rattle.rounds.specs.Leaves.{ran, ran_by};
ghost use Rattle.rounds.specs.Slices.{plan_network};
ghost use Rattle.map.specs.Room.{AreLong};
ghost use Rattle.map.specs.Slices.{lent_in, room_sizes, IsSameRoom};
ghost use Rattle.reckon.specs.ReckonCall.{reckon_refusal, reckon_call};

use bounds::Marks;
use map::{Record, Room};
use outcome::Refusal;
use rounds::{Desk, Plan, RoundFigures};

// What a whole reckoning answers: the number of searches, and the record with its figures.
#[derive(Clone, Copy)]
pub struct Reckoned {
    pub searches: u16,
    pub after: Record,
}

// The first refusal of a reckoning that holds. It only reads, and looks at no figures.
fn reckon_refusal(rec: Record, links: &[u64], room: &Room<'_>) -> Result<(), Refusal>
    ensures { refusal_in (answer_of result) ≡ reckon_refusal base rec links.now (room_sizes (length links.now) room.now) }
{
    lent_map::map_refusal(rec, links, None, room.is_long(links.len()))
}

// The whole reckoning of a sound, connected map.
#[tactic(auto, using(rounds::proofs::Turns::begun_counted))]
fn reckon_map(plan: Plan<'_>, room: &mut Room<'_>) -> RoundFigures
    requires { AreLong base (room_sizes (length plan.links.now) room.old)
        × IsNet (plan_network base.words plan) }
    ensures same { IsSameRoom room.old room.new }
    ensures left { let G = plan_network base.words plan.entry in
        ran (lent_in room.new) result.candidate result.count result.searches ≡ ran_by base G (reckon (chart G)) (lent_in room.old) }
{
    let mut ranks = [0u16; map::PLACES];
    let mut order = [0u16; ranks::NODES];
    let mut left = [0u64; map::WORDS];
    let mut next = [0u64; map::WORDS];
    let mut partners = [0u64; map::WORDS];
    let pairs = &mut *room.pairs;
    let mut marks = Marks {
        bounds: &mut *room.bounds,
        skips: &mut *room.skips,
        ranks: &mut ranks,
    };
    rounds::begin(
        plan.members,
        plan.links,
        pairs,
        &mut marks,
        map::WORDS,
        map::OTHER,
    );
    let mut desk = Desk {
        left: &mut left,
        next: &mut next,
        partners: &mut partners,
        ranks: &mut ranks,
    };
    let none = RoundFigures {
        candidate: 0,
        count: 0,
        searches: 0,
    };
    rounds::run_rounds(
        plan.members,
        plan.targets,
        plan.links,
        room,
        &mut desk,
        &mut order,
        map::WORDS,
        map::SEARCHED,
        none,
    )
}

// The whole reckoning: chain, pairs and pair count afresh, whatever figures stood there; or the first refusal that holds, and then nothing is changed.
pub fn reckon_all(rec: Record, links: &[u64], room: &mut Room<'_>) -> Result<Reckoned, Refusal>
    ensures same { IsSameRoom room.old room.new }
    ensures left { leaves (answer_of result) (lent_in room.new) ≡ reckon_call base rec links.now (lent_in room.old) }
{
    reckon_refusal(rec, links, &*room)?;
    let members = rec.members;
    let yards = rec.yards;
    let mut targets = rec.members;
    map::keep_delivering(&mut targets, &yards, map::WORDS);
    let plan = Plan {
        members: &members,
        targets: &targets,
        links,
    };
    let got = reckon_map(plan, room);
    let mut after = rec;
    after.chain = got.candidate;
    after.count = got.count;
    Ok(Reckoned {
        searches: got.searches,
        after,
    })
}
