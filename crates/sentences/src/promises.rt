// The main theorem on sentences, named by a contract: a function that does nothing.

ghost use Rattle.sentences.specs.Reading.{AreInverse};

// Writing and reading undo each other.
#[tactic(auto, using(crate::proofs::Theorems::sentences_inverse))]
pub fn inverse()
    ensures { AreInverse }
{}
