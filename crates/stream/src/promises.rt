// The main theorem on the stream, named by a contract: a function that does nothing.

ghost use Rattle.stream.specs.Pieces.{PiecesAlike};

// However the input is cut into pieces, the output is that of the whole.
#[tactic(auto, using(crate::proofs::Theorems::pieces_promised))]
pub fn pieces()
    ensures { PiecesAlike }
{}
