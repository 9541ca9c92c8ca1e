// Notice lines: the reader of a line into a frame, and the writer, its inverse.
//
// Both calls decide every refusal before they write, since a refused call changes no lent memory.

#![tactic(auto)]

pub mod promises;

ghost use Rattle.std.specs.Prelude.{◌≡◌, ◌<◌, ◌≤◌, eqb, length, take, IfSome};
ghost use Rattle.outcome.specs.Answers.{answer_of, leaves};
ghost use Rattle.notice.specs.Lines.{line_limit, yard_kind, opens_depot, frame_length, is_frame, spells_frame, read_line};
ghost use Rattle.notice.specs.Kinds.{byte_of, KindIs};
ghost use Rattle.notice.specs.Calls.{frame_limit, line_found, read_call, write_call};

use hexadecimal::Digits;
use outcome::Refusal;

// the most bytes that a frame has, and a line with its ending; in specifications `frame_limit`, `line_limit`
pub const FRAME_LIMIT: usize = 258;

pub const LINE_LIMIT: usize = 2 * FRAME_LIMIT + 1;

// ---- the kinds of frames

// The kinds of frames, each with its byte: one opens a depot that delivers, one links two depots, one opens a yard.
#[derive(Clone, Copy, Debug, PartialEq, Eq)]
pub enum Kind {
    Depot = 1,
    Link = 2,
    Yard = 4,
}

impl Kind {
    // The kind whose frames begin with a byte. `TryFrom` would want an error, where there is nothing to say but that there is none.
    pub fn of(byte: u8) -> Option<Kind>
        ensures { KindIs byte result }
    {
        match byte {
            1 => Some(Kind::Depot),
            2 => Some(Kind::Link),
            4 => Some(Kind::Yard),
            _ => None,
        }
    }

    // The byte with which its frames begin. By a name that says which: `u8::from` would not.
    pub fn byte(self) -> u8
        ensures { result ≡ byte_of self }
    {
        self as u8
    }

    // Whether its frames open a depot, one that delivers or a yard.
    #[tactic(auto, unfolding(crate::specs::Lines::opens_depot))]
    pub fn opens_depot(self) -> bool
        ensures { result ≡ opens_depot (byte_of self) }
    {
        matches!(self, Kind::Depot | Kind::Yard)
    }

    // How many bytes its frames have, by the third.
    #[tactic(auto, unfolding(crate::specs::Lines::opens_depot, crate::specs::Lines::frame_length))]
    fn frame_length(self, third: u8) -> usize
        ensures { result ≡ frame_length (byte_of self) third }
    {
        match self {
            Kind::Depot | Kind::Yard => 3 + third as usize,
            Kind::Link => 3,
        }
    }
}

// ---- the two calls

// A frame that was read: how many bytes it has, and how many bytes of the input its line took.
#[derive(Clone, Copy)]
pub struct Frame {
    pub length: usize,
    pub used: usize,
}

// Reads the line that the input begins with into the frame buffer. It does not judge the neighbours:
// the opening does.
#[tactic(auto, using(crate::proofs::Answers::reading))]
pub fn read_notice(frame: &mut [u8], input: &[u8]) -> Result<Frame, Refusal>
    ensures { leaves (answer_of result) frame.new ≡ read_call input.now frame.old }
{
    if frame.len() < FRAME_LIMIT {
        return Err(Refusal::Short);
    }
    let head = first_part(input);
    // one scan finds the line's end: the first byte that is no digit has to be the 0A
    let digits = Digits::leading(head);
    let end = digits.bytes.len();
    if end == head.len() {
        return Err(Refusal::Garbled);
    }
    if head[end] != 10 {
        return Err(Refusal::Garbled);
    }
    if !spells_frame(digits) {
        return Err(Refusal::Garbled);
    }
    digits.read_bytes(frame);
    Ok(Frame {
        length: end / 2,
        used: end + 1,
    })
}

// Reads the line that the input begins with into the frame buffer, and answers how many bytes the frame has, if the line reads. It judges the digits as it
// spells them, in one pass, and so a line that does not read may leave any bytes in the buffer, unlike `read_notice`, which changes nothing then.
#[tactic(auto, using(crate::proofs::Passes::passes), unfolding(crate::specs::Calls::line_found))]
pub fn read_frame(buffer: &mut [u8], input: &[u8]) -> Option<usize>
    requires { frame_limit ≤ length buffer.old }
    ensures line { line_found result buffer.new ≡ read_line input.now }
    ensures long { IfSome result (λ n. (3 ≤ n) × (n ≤ length buffer.new)) }
{
    let head = first_part(input);
    let n = hexadecimal::read_pairs(buffer, head);
    let behind = 2 * n;
    if behind == head.len() {
        return None;
    }
    if head[behind] != 10 {
        return None;
    }
    if !is_frame(&buffer[..n]) {
        return None;
    }
    Some(n)
}

// Writes the line of a frame, which is the whole slice, into the line buffer, and answers its length.
#[tactic(auto, using(crate::proofs::Answers::writing))]
pub fn write_notice(line: &mut [u8], frame: &[u8]) -> Result<usize, Refusal>
    ensures { leaves (answer_of result) line.new ≡ write_call frame.now line.old }
{
    if line.len() < LINE_LIMIT {
        return Err(Refusal::Short);
    }
    if !is_frame(frame) {
        return Err(Refusal::Garbled);
    }
    hexadecimal::write_digits(line, frame);
    let end = 2 * frame.len();
    line[end] = 10;
    Ok(end + 1)
}

// The bytes among which a line's end has to be.
#[tactic(auto, using(std::proofs::lemmas::List::take_min))]
fn first_part(input: &[u8]) -> &[u8]
    ensures { result.now ≡ take line_limit input.now }
{
    &input[..LINE_LIMIT.min(input.len())]
}

// Whether frames of a kind open a depot, one that delivers or a yard.
#[tactic(auto, using(crate::proofs::Bytes::opens_by))]
pub fn opens_depot(kind: u8) -> bool
    ensures { result ≡ opens_depot kind }
{
    Kind::of(kind).is_some_and(Kind::opens_depot)
}

// Whether frames of a kind open a yard.
#[tactic(auto, using(crate::proofs::Bytes::opens_yard_by))]
pub fn opens_yard(kind: u8) -> bool
    ensures { result ≡ eqb kind yard_kind }
{
    Kind::of(kind) == Some(Kind::Yard)
}

// Whether n bytes are as many as a frame of a kind has, by its third byte. A byte that is no kind begins no frame.
fn has_length(n: usize, kind: u8, third: u8) -> bool
    requires { 0 < n }
    ensures { result ≡ eqb n (frame_length kind third) }
{
    Kind::of(kind).is_some_and(|k| n == k.frame_length(third))
}

// Whether the digits of a line spell a frame: its kind and its third byte say how long it is.
#[tactic(auto, using(hexadecimal::proofs::Spelling::length_bytes), unfolding(crate::specs::Lines::spells_frame, crate::specs::Lines::is_frame))]
fn spells_frame(digits: Digits<'_>) -> bool
    ensures { result ≡ spells_frame digits.entry.bytes.now }
{
    let n = digits.bytes.len();
    if n % 2 != 0 {
        return false;
    }
    if n < 6 {
        return false;
    }
    has_length(n / 2, digits.byte_at(0), digits.byte_at(2))
}

// Whether a frame has the length that its kind and its third byte say.
#[tactic(auto, unfolding(crate::specs::Lines::is_frame))]
fn is_frame(frame: &[u8]) -> bool
    ensures { result ≡ is_frame frame.now }
{
    if frame.len() < 3 {
        return false;
    }
    has_length(frame.len(), frame[0], frame[2])
}
