// The checks of a lent map: whether its links and its figures are sound. Only set bits are walked, so that a check costs what is there.
// A row's width comes beside it, as crate `rows` says.

#![tactic(auto)]

ghost use Rattle.std.specs.Prelude.{Bool, ℕ, [], ◌≡◌, ◌*◌, ◌<◌, ◌≤◌, length};
ghost use Rattle.lists.specs.Lists.{range};
ghost use Rattle.rows.specs.Rows.{table_bit};
ghost use Rattle.graph.specs.Chart.{count_pairs};
ghost use Rattle.map.specs.Memory.{network_of, yard_network};
ghost use Rattle.map.specs.Bits.{IsLent};
ghost use Rattle.checks.specs.Sound.{all_set, sound_links, sound_figures};

// ---- the walk

// Whether every set bit of a table passes the test, a function of row and column. Only set bits are walked, and the walk ends at the first that does not.
#[tactic(auto, using(crate::proofs::Scans::bits_start, crate::proofs::Scans::rows_start, crate::proofs::Scans::rows_next))]
fn all_set<F: Fn(usize, usize) -> bool>(table: &[u64], words: usize, passes: F) -> bool
    requires room { (words < 513) × (words * (64 * words) ≤ length table.now) }
    requires asked { (u v : ℕ) → u < 64 * words → v < 64 * words → F.pre passes u v }
    ensures { (test : ℕ → ℕ → Bool)
        → ((u v : ℕ) (r : Bool) → u < 64 * words → v < 64 * words → F.post passes u v r → r ≡ test u v)
        → result ≡ all_set (64 * words) (table_bit words table.now) test }
{
    let mut fine = true;
    'rows: for u in 0..64 * words {
        for w in 0..words {
            let mut x = table[words * u + w];
            while x != 0 {
                let b = words::least(x);
                if !passes(u, 64 * w + b) {
                    fine = false;
                    break 'rows;
                }
                x = words::clear_least(x, b);
            }
        }
    }
    fine
}

// ---- sound links

// Whether number open, yards and links are sound. Only set bits are walked, and the walk ends at the first faulty one.
#[tactic(auto, using(crate::proofs::Checks::link_answers))]
pub fn links_are_sound(
    members: &[u64],
    yards: &[u64],
    links: &[u64],
    words: usize,
    number: u16,
) -> bool
    requires { IsLent words members.now links.now × (words ≤ length yards.now) }
    ensures { let G = yard_network words members.now yards.now links.now in
        result ≡ sound_links (64 * words) G number }
{
    if rows::degree(members, words, 0) != number as usize {
        return false;
    }
    if !map::yards_are_open(members, yards, words) {
        return false;
    }
    all_set(
        links,
        words,
        |u, v| map::link_is_sound(members, links, words, u, v),
    )
}

// ---- sound figures

// The ones of the pair table, row by row.
#[tactic(auto, using(crate::proofs::Sums::counted_start, crate::proofs::Sums::counted_whole, rows::proofs::Places::row_fits))]
fn count_pairs(pairs: &[u64], words: usize) -> usize
    requires { (words < 513) × (words * (64 * words) ≤ length pairs.now) }
    ensures { result ≡ count_pairs (range (64 * words)) (table_bit words pairs.now) }
{
    let mut sum: usize = 0;
    for u in 0..64 * words {
        sum += rows::degree(pairs, words, u);
    }
    sum
}

// Whether the figures are sound. They ask only which depots deliver, so that these are lent as a row, and no link.
#[tactic(auto, using(crate::proofs::Checks::figure_answers))]
pub fn figures_are_sound(
    delivering: &[u64],
    pairs: &[u64],
    words: usize,
    chain: u16,
    count: u32,
) -> bool
    requires { IsLent words delivering.now pairs.now }
    ensures { result ≡ sound_figures (64 * words) (network_of words delivering.now []) (table_bit words pairs.now) chain count }
{
    if count_pairs(pairs, words) != count as usize {
        return false;
    }
    if 64 * words <= chain as usize {
        return false;
    }
    all_set(
        pairs,
        words,
        |low, high| map::pair_is_sound(delivering, words, low, high),
    )
}
