// Bytes as digits: two of the sixteen digits 0 to 9 and A to F for each byte, the high one first.

#![tactic(auto)]

ghost use Rattle.std.specs.Prelude.{◌≡◌, true, None, false, ◌+◌, ◌*◌, ◌≤◌, ◌<◌, length, get_or, take};
ghost use Rattle.lists.specs.Lists.{allb, overwrite};
ghost use Rattle.hexadecimal.specs.Hex.{hex_digit, is_digit, digit_value, digits_of, bytes_of, spelt};
ghost use Rattle.hexadecimal.specs.Table.{value_or_none};

// The number that each character stands for; 16: it is no digit. As characters of a text come in any order, a table tells them quicker than tests do.
#[rattlefmt::skip]
static VALUES: [u8; 256] = [
    16, 16, 16, 16, 16, 16, 16, 16, 16, 16, 16, 16, 16, 16, 16, 16,
    16, 16, 16, 16, 16, 16, 16, 16, 16, 16, 16, 16, 16, 16, 16, 16,
    16, 16, 16, 16, 16, 16, 16, 16, 16, 16, 16, 16, 16, 16, 16, 16,
    0, 1, 2, 3, 4, 5, 6, 7, 8, 9, 16, 16, 16, 16, 16, 16,
    16, 10, 11, 12, 13, 14, 15, 16, 16, 16, 16, 16, 16, 16, 16, 16,
    16, 16, 16, 16, 16, 16, 16, 16, 16, 16, 16, 16, 16, 16, 16, 16,
    16, 16, 16, 16, 16, 16, 16, 16, 16, 16, 16, 16, 16, 16, 16, 16,
    16, 16, 16, 16, 16, 16, 16, 16, 16, 16, 16, 16, 16, 16, 16, 16,
    16, 16, 16, 16, 16, 16, 16, 16, 16, 16, 16, 16, 16, 16, 16, 16,
    16, 16, 16, 16, 16, 16, 16, 16, 16, 16, 16, 16, 16, 16, 16, 16,
    16, 16, 16, 16, 16, 16, 16, 16, 16, 16, 16, 16, 16, 16, 16, 16,
    16, 16, 16, 16, 16, 16, 16, 16, 16, 16, 16, 16, 16, 16, 16, 16,
    16, 16, 16, 16, 16, 16, 16, 16, 16, 16, 16, 16, 16, 16, 16, 16,
    16, 16, 16, 16, 16, 16, 16, 16, 16, 16, 16, 16, 16, 16, 16, 16,
    16, 16, 16, 16, 16, 16, 16, 16, 16, 16, 16, 16, 16, 16, 16, 16,
    16, 16, 16, 16, 16, 16, 16, 16, 16, 16, 16, 16, 16, 16, 16, 16,
];

// Digits, one beside another.
#[derive(Clone, Copy)]
pub struct Digits<'a> {
    pub bytes: &'a [u8],
    pub ghost are_digits: { allb is_digit bytes.now ≡ true },
}

impl<'a> Digits<'a> {
    // The digits that some bytes begin with: what stands behind them is no digit, or the end.
    pub fn leading(s: &'a [u8]) -> Digits<'a>
        ensures { let n = length result.bytes.now in
            (n ≤ length s.now) × (result.bytes.now ≡ take n s.now) × (n < length s.now → is_digit (get_or s.now n 0) ≡ false) }
    {
        let end = s.iter().position(|c| !is_digit(*c)).unwrap_or(s.len());
        Digits { bytes: &s[..end] }
    }

    // Puts the bytes that the digits spell at the start of the frame buffer.
    #[tactic(auto, using(crate::proofs::Spelling::bytes_read))]
    pub fn read_bytes(self, frame: &mut [u8])
        requires { length self.bytes.now ≤ 2 * length frame.old }
        ensures { frame.new ≡ overwrite (bytes_of self.entry.bytes.now) frame.old }
    {
        for i in 0..self.bytes.len() / 2 {
            frame[i] = self.byte_at(i);
        }
    }

    // Byte i of those that the digits spell.
    #[tactic(auto, using(crate::proofs::DigitLaws::digit_at, crate::proofs::Spelling::byte_spelt))]
    pub fn byte_at(self, i: usize) -> u8
        requires { 2 * i + 1 < length self.bytes.now }
        ensures { result ≡ get_or (bytes_of self.entry.bytes.now) i 0 }
    {
        let high = value(self.bytes[2 * i]);
        let low = value(self.bytes[2 * i + 1]);
        16 * high + low
    }
}

// Puts the bytes that a text's first digits spell at the start of the buffer, as long as digits stand there in twos and the buffer takes a byte; and answers
// how many bytes. One pass both judges and spells, and so what it wrote is no frame yet.
pub fn read_pairs(buffer: &mut [u8], text: &[u8]) -> usize
    ensures fits { (2 * result ≤ length text.now) × (result ≤ length buffer.new) }
    ensures digits { allb is_digit (take (2 * result) text.now) ≡ true }
    ensures bytes { take result buffer.new ≡ bytes_of (take (2 * result) text.now) }
    ensures end { 2 * result + 1 < length text.now → result < length buffer.new
        → spelt (get_or text.now (2 * result) 0) (get_or text.now (2 * result + 1) 0) ≡ None }
{
    let most = buffer.len().min(text.len() / 2);
    for i in 0..most {
        match byte_spelt(text[2 * i], text[2 * i + 1]) {
            Some(b) => buffer[i] = b,
            None => return i,
        }
    }
    most
}

// Puts two digits for each byte of the frame at the start of the line buffer.
#[tactic(auto, using(crate::proofs::Spelling::digits_written))]
pub fn write_digits(line: &mut [u8], frame: &[u8])
    requires { 2 * length frame.now ≤ length line.old }
    ensures { line.new ≡ overwrite (digits_of frame.now) line.old }
{
    for (i, byte) in frame.iter().enumerate() {
        line[2 * i] = digit(*byte / 16);
        line[2 * i + 1] = digit(*byte % 16);
    }
}

// Whether c is a digit: lower case is not. Both ends first, so that what is left is told by one more test.
#[tactic(auto, unfolding(crate::specs::Hex::is_digit))]
fn is_digit(c: u8) -> bool
    ensures { result ≡ is_digit c }
{
    if c < 48 {
        return false;
    }
    if 70 < c {
        return false;
    }
    if c <= 57 {
        return true;
    }
    65 <= c
}

// The byte that two characters spell, if both are digits. Both are looked up before one is asked, so that there is one test for the two.
#[tactic(auto, using(crate::proofs::Values::spelling))]
fn byte_spelt(high: u8, low: u8) -> Option<u8>
    ensures { result ≡ spelt high low }
{
    let h = value_of(high);
    let l = value_of(low);
    if 16 <= h {
        return None;
    }
    if 16 <= l {
        return None;
    }
    Some(16 * h + l)
}

// The number that a character stands for; 16: it is no digit.
fn value_of(c: u8) -> u8
    ensures { result ≡ value_or_none c }
{
    VALUES[c as usize]
}

// The number that a digit stands for.
#[tactic(auto, unfolding(crate::specs::Hex::is_digit, crate::specs::Hex::digit_value))]
fn value(c: u8) -> u8
    requires { is_digit c ≡ true }
    ensures { (result ≡ digit_value c) × (result < 16) }
{
    if c < 65 { c - 48 } else { c - 55 }
}

// The digit of a number below 16.
#[tactic(auto, unfolding(crate::specs::Hex::hex_digit))]
fn digit(d: u8) -> u8
    requires { d < 16 }
    ensures { result ≡ hex_digit d }
{
    if d < 10 { 48 + d } else { 55 + d }
}
