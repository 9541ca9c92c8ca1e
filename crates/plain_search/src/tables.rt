// Tables of words, held to rows of flags.
ghost use Rattle.std.specs.Prelude.{◌≡◌, false, slice_index_or, ◌<◌, ◌*◌, ◌/◌, ◌↔◌, length, IsTrue};
ghost use Rattle.plain_search.specs.Words.{flag_in, turned, HasFlags, AreFlags};

// Turns bit i of a table of words over.
pub fn flip(words: &mut [u64], i: usize)
    ensures { words.new ≡ turned words.old i }
{
    if i / 64 < words.len() {
        words[i / 64] ^= 1 << (i % 64);
    }
}

// Whether bit i of a table of words is set.
fn test(words: &[u64], i: usize) -> bool
    requires { i / 64 < length words.now }
    ensures { result ≡ flag_in words.now i }
{
    words[i / 64] >> (i % 64) & 1 == 1
}

// Whether bit i of a table of words is the flag of its place.
fn agrees(words: &[u64], flags: &[bool], i: usize) -> bool
    requires { (i / 64 < length words.now) × (i < length flags.now) }
    ensures { IsTrue result ↔ (slice_index_or flags.now i false ≡ flag_in words.now i) }
{
    flags[i] == test(words, i)
}

// Whether each bit of a table of words is the flag of its place.
fn each_is(words: &[u64], flags: &[bool]) -> bool
    requires { length flags.now ≡ 64 * length words.now }
    ensures { IsTrue result ↔ HasFlags words.now flags.now }
{
    for i in 0..flags.len() {
        if !agrees(words, flags, i) {
            return false;
        }
    }
    true
}

// Whether the bits of a table of words are these flags.
pub fn bits_are(words: &[u64], flags: &[bool]) -> bool
    ensures { IsTrue result ↔ AreFlags words.now flags.now }
{
    flags.len() % 64 == 0 && flags.len() / 64 == words.len() && each_is(words, flags)
}
