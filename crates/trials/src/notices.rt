// The notices of a history: depot j opens beside those of the earlier ones that its network links it to. A bent notice is one that is to be refused.
use plain_search::{Codes, Refusal};

// A notice: its code, its neighbours, and whether a buffer that is lent with it is short.
#[derive(Clone, Copy)]
pub(crate) struct Notice {
    pub(crate) code: u8,
    pub(crate) neighbours: Codes,
    pub(crate) short: bool,
}

// The networks, whose depots are numbered as they open. A ring closes with depot 39. At random, each depot is linked to one of the last four, and to
// any other by a small chance. A growth of four is one of 21.
#[derive(Clone, Copy)]
pub(crate) enum Kind {
    Path,
    Complete,
    Ring,
    Random,
    Four(u8),
}

// The code of depot i: an odd factor gives each its own, in all four words of a row.
pub(crate) fn code(i: u8) -> u8 {
    i.wrapping_mul(101).wrapping_add(77)
}

// The depot of a code: 109 undoes the factor 101.
fn depot(code: u8) -> u8 {
    code.wrapping_sub(77).wrapping_mul(109)
}

// The place of the code v in the row of depot i.
pub(crate) fn place(i: u8, v: u8) -> usize {
    256 * usize::from(code(i)) + usize::from(v)
}

// A number that looks random, below 65,536.
fn noise(i: u8, j: u8) -> u32 {
    let x = (7919 * u32::from(i) + 104729 * u32::from(j) + 31) % 65521;
    let y = (x * 17364 + 911) % 65521;
    y ^ (x / 7)
}

// Whether depot j of a random network is linked to the one that is `gap` before it.
fn at_random(j: u8, gap: u8) -> bool {
    let back = if j < 4 { 1 } else { noise(j, 0) % 4 + 1 };
    u32::from(gap) == back || noise(gap, j) % 1000 < 3
}

// The earlier depots, as bits of a number, that depot j opens beside in growth k.
fn beside(k: u8, j: u8) -> u8 {
    match j {
        1 => 1,
        2 => 1 + k % 3,
        _ => 1 + k / 3 % 7,
    }
}

impl Kind {
    // Whether the depots i < j are linked.
    fn joins(self, i: u8, j: u8) -> bool {
        if j <= i {
            return false;
        }
        let gap = j - i;
        match self {
            Kind::Path => gap == 1,
            Kind::Complete => true,
            Kind::Ring => matches!(gap, 1 | 39),
            Kind::Random => at_random(j, gap),
            Kind::Four(k) => i < 8 && beside(k, j) >> i & 1 == 1,
        }
    }

    // The neighbours of depot j in rising order.
    fn neighbours(self, j: u8) -> Codes {
        let mut near = Codes::new();
        for v in 0..=u8::MAX {
            if self.joins(depot(v), j) {
                near.push(v);
            }
        }
        near
    }

    // The notice of depot j, bent so that it is refused for `bent`: by a short buffer, the code of the depot before, no neighbours, one neighbour more, a 0, or
    // only one, the next depot, which is closed, or itself. A call that is bent elsewhere, or not at all, has it as it is.
    pub(crate) fn notice(self, j: u8, bent: Option<Refusal>) -> Notice {
        let mut near = self.neighbours(j);
        match bent {
            Some(Refusal::Lonely) => near = Codes::new(),
            Some(Refusal::Unsorted) => near.push(0),
            Some(Refusal::Unknown) => {
                near = Codes::new();
                near.push(code(j | 1));
            }
            _ => {}
        }
        let code = match bent {
            Some(Refusal::Taken) => code(j.wrapping_sub(1)),
            _ => code(j),
        };
        Notice {
            code,
            neighbours: near,
            short: bent == Some(Refusal::Short),
        }
    }
}
