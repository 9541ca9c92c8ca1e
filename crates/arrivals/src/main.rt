// The arrival orders of two notices A and B, three scanner lines with a map each, eight orders. It prints each order
// with the figures of its three lines (depots open, chain, pairs), and whether the three maps are equal word for word. The third time each line hands
// its two notices over as one batch, so that nothing is refused. The fourth time a link between their depots is a third notice, which makes six orders.
#![tactic(auto)]

mod maps;

use maps::{Map, Notice};
use outcome::{Outcome, Refusal};

// The lines below are written as far as standard output takes them: where it does not, nothing is left to say it to.

// Notice A, 3 opens beside 2.
const A: Notice = Notice::Opening { code: 3, near: 2 };

// Notice L, the depots of A and B are linked.
const L: Notice = Notice::Link {
    first: 3,
    second: 4,
};

// Notice B, 4 opens beside `near`.
fn b_beside(near: u8) -> Notice {
    Notice::Opening { code: 4, near }
}

// The order in which a line takes A and B.
#[derive(Clone, Copy)]
enum Order {
    Ab,
    Ba,
}

const ORDERS: [Order; 2] = [Order::Ab, Order::Ba];

impl Order {
    // The order as it is printed.
    fn name(self) -> &'static str {
        match self {
            Order::Ab => "AB",
            Order::Ba => "BA",
        }
    }

    // The map of a line that takes the notices in this order, B being beside the depot `near`.
    fn map(self, near: u8) -> Map {
        match self {
            Order::Ab => Map::after([A, b_beside(near)]),
            Order::Ba => Map::after([b_beside(near), A]),
        }
    }

    // The map of a line that hands them over as one batch, B being beside A's depot; and how the batch was answered.
    fn batch(self) -> (Map, Result<u8, Refusal>) {
        let lines: &[u8] = match self {
            Order::Ab => b"01030102\n01040103\n",
            Order::Ba => b"01040103\n01030102\n",
        };
        let mut map = Map::begin();
        let answer = map.take_batch(lines);
        (map, answer)
    }
}

// What is printed of an outcome: the number of its refusal, 0 for none, as the lines of this program say it.
fn number_of(outcome: Outcome) -> u8 {
    match outcome {
        Outcome::Accepted(_) => 0,
        Outcome::Refused(number) => number,
    }
}

// What is printed of maps that are equal or not.
fn agreement(agree: bool) -> &'static str {
    if agree { "equal" } else { "DIFFERENT" }
}

// The eight orders of the three lines, each with the figures of the lines' maps, and whether they agree. A line's map is made of its order.
fn print_orders<F: Fn(Order) -> Map>(rt: &impl Print, map_of: F)
    requires { F.IsAlwaysCallable map_of }
{
    for first in ORDERS {
        for second in ORDERS {
            for third in ORDERS {
                let one = map_of(first);
                let two = map_of(second);
                let three = map_of(third);
                let a = first.name();
                let b = second.name();
                let c = third.name();
                let agree = agreement(one == two && two == three);
                let _ = println!(rt; "{a} {b} {c} {one} {two} {three} {agree}");
            }
        }
    }
}

// What B is answered where it comes first, and then the eight orders, B being beside the depot `near`.
fn print_openings(rt: &impl Print, near: u8) {
    let _ = println!(rt; "A opens 3 beside 2, B opens 4 beside {near}");
    let refusal = number_of(Map::begin().take(b_beside(near)));
    let _ = println!(rt; "B first is refused with: {refusal} (0: accepted)");
    print_orders(rt, |order| order.map(near));
}

// What a batch is answered in either order: its refusal, 0 for none, and how many lines are left over.
fn print_batches(rt: &impl Print) {
    let _ = println!(rt; "A opens 3 beside 2, B opens 4 beside 3, handed over together");
    for order in ORDERS {
        let name = order.name();
        let (_, answer) = order.batch();
        let (refusal, left) = match answer {
            Ok(left) => (0, left),
            Err(refusal) => (refusal.number(), 0),
        };
        let _ = println!(rt;
            "{name} as a batch is refused with: {refusal} (0: accepted), left over: {left}"
        );
    }
    print_orders(rt, |order| order.batch().0);
}

// What L is answered where it comes first, and then each order of the three on a line, beside each of the six on two other lines: where each of these
// equals the first, they equal each other.
fn print_links(rt: &impl Print) {
    let _ = println!(rt;
        "A opens 3 beside 2, B opens 4 beside 0, L links 3 and 4: each order beside all six on two other lines"
    );
    let refusal = number_of(Map::begin().take(L));
    let _ = println!(rt; "L first is refused with: {refusal}");
    let b = b_beside(0);
    let orders = [
        ("ABL", [A, b, L]),
        ("ALB", [A, L, b]),
        ("BAL", [b, A, L]),
        ("BLA", [b, L, A]),
        ("LAB", [L, A, b]),
        ("LBA", [L, b, A]),
    ];
    let maps = orders.map(|(_, notices)| Map::after(notices));
    for ((name, _), map) in orders.iter().zip(&maps) {
        let agree = agreement(maps.iter().all(|other| map == other));
        let _ = println!(rt; "{name} {map} {agree}");
    }
}

fn main(rt: HostRuntime) {
    print_openings(&rt, 1);
    print_openings(&rt, 3);
    print_batches(&rt);
    print_links(&rt);
}
