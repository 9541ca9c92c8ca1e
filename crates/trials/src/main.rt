// The test program: it runs openings, searches, reckonings and reports beside the plain list and a simple search from every depot, and prints a line
// for each group of cases: how many were tried, and whether all came out as expected. A difference shows in the output.
#![tactic(auto)]

mod calls;
mod false_figures;
mod histories;
mod notices;
mod reports;
mod spoilt;
mod tally;

use notices::Kind;
use tally::Tally;

// A line for a group. Where it cannot be written, nothing is left to say it to.
fn print(rt: &impl Print, what: &str, cases: Tally) {
    let _ = println!(rt; "{what}: {cases}");
}

fn main(rt: HostRuntime) {
    print(
        &rt,
        "256 depots in a path, chain 255, 1 pair",
        histories::ends(Kind::Path, 255, 1),
    );
    print(
        &rt,
        "256 depots, all linked, chain 1, 32640 pairs",
        histories::ends(Kind::Complete, 1, 32640),
    );
    print(
        &rt,
        "40 depots in a ring that closes",
        histories::follow(Kind::Ring, 40),
    );
    print(
        &rt,
        "256 depots at random, refusals 1 to 8 in between",
        histories::follow(Kind::Random, 256),
    );
    print(&rt, "every growth of four depots", histories::all_four());
    print(&rt, "false figures", false_figures::all());
    print(&rt, "a spoilt bit", spoilt::all());
    print(&rt, "report lines", reports::all());
}
