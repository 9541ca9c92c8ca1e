// The main theorems on the two calls, each named by a contract: functions that do nothing.

ghost use Rattle.std.specs.Prelude.{◌≡◌, ◌↔◌, ℕ, List, ◌≤◌, length, take, true, Ok};
ghost use Rattle.lists.specs.Lists.{allb, overwrite};
ghost use Rattle.outcome.specs.Answers.{leaves};
ghost use Rattle.hexadecimal.specs.Hex.{is_byte};
ghost use Rattle.notice.specs.Lines.{line_limit, is_frame, line_of, frame, read_line};
ghost use Rattle.notice.specs.Calls.{frame_limit, read_call, write_call};
ghost use Rattle.notice.specs.Refusals.{IsFrame, BeginsWith, ReadRefuses, WriteRefuses};

// Which refusal answers the reader, and that it changes nothing.
#[tactic(auto, using(crate::proofs::Refusals::reader_refusals))]
pub fn reader_refusals()
    ensures { ReadRefuses read_call }
{}

// Which refusal answers the writer, and that it changes nothing.
#[tactic(auto, using(crate::proofs::Refusals::writer_refusals))]
pub fn writer_refusals()
    ensures { WriteRefuses write_call }
{}

// What a frame is, in words.
#[tactic(auto, using(crate::proofs::Refusals::frame_is))]
pub fn frames()
    ensures { (f : List ℕ) → (is_frame f ≡ true) ↔ IsFrame f }
{}

// An input reads as a frame exactly if it begins with its line.
pub fn lines()
    ensures { (input f : List ℕ) (n : ℕ) → (read_line input ≡ frame f n) ↔ BeginsWith f n input }
{}

// Each frame has one line: two that read as it are equal.
#[tactic(auto, using(crate::proofs::Theorems::one_line))]
pub fn one_line()
    ensures { (s t f : List ℕ) (m n : ℕ) → read_line s ≡ frame f m → read_line t ≡ frame f n → take m s ≡ take n t }
{}

// What the writer leaves in a line buffer, the reader reads as the frame.
#[tactic(auto, using(crate::proofs::Theorems::round_trip))]
pub fn round_trip()
    ensures { (f line buffer : List ℕ) → is_frame f ≡ true → allb is_byte f ≡ true → line_limit ≤ length line → frame_limit ≤ length buffer
        → read_call (write_call f line).lent buffer ≡ leaves (Ok (record { length = length f; used = length (line_of f) })) (overwrite f buffer) }
{}
