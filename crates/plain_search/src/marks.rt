// The marks of a call: which depots it searched, and whether it could do without searching the others.
ghost use Rattle.std.specs.Prelude.{◌≡◌, ◌<◌, ◌↔◌, IsTrue};
ghost use Rattle.plain_search.specs.Marks.{count_searched, Covers, AreCovered};

use crate::{CODES, Sheet};

// The mark of a searched depot.
const SEARCHED: u16 = 256;

// Whether r was searched, and what its search found keeps every distance of v below the chain.
fn covers(skips: &[u16; CODES], sheet: &Sheet, r: usize, v: usize, chain: u16) -> bool
    requires { (r < CODES) × (v < CODES) }
    ensures { IsTrue result ↔ Covers skips.now sheet.now r v chain }
{
    skips[r] == SEARCHED
        && sheet.distances[r][v].is_some_and(|d| u32::from(sheet.eccentricities[r]) + u32::from(d)
            < u32::from(chain))
}

// Whether every open depot was searched, or some searched depot covers it.
pub fn are_covered(skips: &[u16; CODES], sheet: &Sheet, chain: u16) -> bool
    ensures { IsTrue result ↔ AreCovered skips.now sheet.now chain }
{
    (0..CODES).all(|v| {
        !sheet.depots[v]
            || skips[v] == SEARCHED
            || (0..CODES).any(|r| covers(skips, sheet, r, v, chain))
    })
}

// How many depots are marked as searched.
pub fn searched(skips: &[u16; CODES]) -> usize
    ensures { result ≡ count_searched skips.now }
{
    skips.iter().filter(|mark| **mark == SEARCHED).count()
}
