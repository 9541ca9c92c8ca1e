// What calls answer: why one is refused, of an opening how the longest chain changed, and of a writer what it wrote.

#![tactic(auto)]

ghost use Rattle.std.specs.Prelude.{◌≡◌, ◌≤◌, length, take};
ghost use Rattle.outcome.specs.Outcome.{letter_of};
ghost use Rattle.outcome.specs.Refusals.{number_of};

// ---- the refusals (rule 8.1)

// Why a call is refused: the first of these that holds. Each has the word that the scanner's trade has for it; in specifications, `specs/Numbers`.
#[derive(Clone, Copy, PartialEq, Eq)]
pub enum Refusal {
    Short = 1,
    Spoilt,
    Apart,
    Absent,
    Taken,
    Lonely,
    Unsorted,
    Unknown,
    Garbled,
    Nobody,
    Overfull,
    Bare,
    Itself,
    Linked,
    TooFew,
}

impl Refusal {
    // The number that the scanner shows for a refusal. By a name that says which number it is: `u8::from` would not.
    #[tactic(auto, using(crate::proofs::Numbering::discriminant))]
    pub fn number(self) -> u8
        ensures { result ≡ number_of self }
    {
        self as u8
    }
}

// ---- the answer

// How the longest chain changed with an accepted opening.
#[derive(Clone, Copy)]
pub enum Change {
    Grew,
    Kept,
    Shrank,
}

// An accepted call holds the change, a refused one its number. It is no `Result`: a rule of the project names this form, and a report line shows any number
// of eight bits.
#[derive(Clone, Copy)]
pub enum Outcome {
    Accepted(Change),
    Refused(u8),
}

// The letter that the report line shows for an outcome. The letters are a rule's, so that no derive gives them.
#[tactic(auto, unfolding(crate::specs::Outcome::letter_of))]
pub fn letter(o: Outcome) -> u8
    ensures { result ≡ letter_of o }
{
    match o {
        Outcome::Accepted(c) => match c {
            Change::Grew => b'G',
            Change::Kept => b'K',
            Change::Shrank => b'S',
        },
        Outcome::Refused(_) => b'R',
    }
}

// ---- what is written

// The memory that a writer was lent, and how many of its first bytes it wrote.
#[derive(Drop)]
pub struct Written<'a> {
    pub lent: &'a mut [u8],
    pub length: usize,
}

impl<'a> Written<'a> {
    // The written part of what was lent.
    pub fn part(&self) -> &[u8]
        requires { self.now.length ≤ length self.now.lent.now }
        ensures { result.now ≡ take self.now.length self.now.lent.now }
    {
        &self.lent[..self.length]
    }
}
