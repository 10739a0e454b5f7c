// A float that is written in digits, looked at byte by byte: at the front of a line, and a double as Fortran writes it.

ghost use Rattle.std.specs.Prelude.{◌≡◌, ◌<◌, ◌≤◌, ◌∷◌, ◌||◌, ◌==◌, true, cond, [], List, ℕ};
ghost use Rattle.std.specs.Prelude.{length, take, slice_index, IfSome};
ghost use Rattle.std.specs.Char.{is_ascii_whitespace};
ghost use Rattle.std.specs.Float.Parse.{completes_number, float_scan_step, is_float_text};
ghost use Rattle.std.specs.List.{position_or_len};
ghost use Rattle.amd_lines.specs.Words.{words, HasDigits, Scanned, StaysInLine, exponent_mark, is_double_text};

use crate::words::blanks_end;

/// How far a reader of a float has come behind one more byte: 1 in the whole part, 2 behind a point with no digit
/// before it, 3 in the fraction, 4 behind `e`, 5 behind its sign, 6 in the exponent, 7 where it is no float.
#[inline]
fn next_state(state: u8, byte: u8) -> u8
    ensures { result ≡ float_scan_step state byte }
{
    if byte.is_ascii_digit() {
        return if state < 2 {
            1
        } else if state < 4 {
            3
        } else if state < 7 {
            6
        } else {
            7
        };
    }
    if byte == b'.' {
        return if state >= 2 {
            7
        } else if state == 0 {
            2
        } else {
            3
        };
    }
    if byte == b'e' || byte == b'E' {
        return if state == 1 || state == 3 { 4 } else { 7 };
    }
    if (byte == b'+' || byte == b'-') && state == 4 {
        5
    } else {
        7
    }
}

/// Whether a reader of a float may stop.
#[inline]
fn completes(state: u8) -> bool
    ensures { result ≡ completes_number state [] }
{
    state == 1 || state == 3 || state == 6
}

/// Where the first byte stands, from a place on, that is no digit; the end of the text where there is none.
#[inline]
fn digits_end(text: &[u8], begin: usize) -> usize
    requires { begin ≤ length text.now }
    ensures { HasDigits text.now begin result }
{
    let (_, rest) = text.split_at(begin);
    'digits: for (place, &byte) in rest.iter().enumerate() {
        if !byte.is_ascii_digit() {
            return begin + place;
        }
    }
    text.len()
}

/// How far a reader of a float has come behind the digits, the point and the digits at the front of a text, and its
/// state there. Here no state is kept from byte to byte.
#[inline]
fn float_front(text: &[u8]) -> (usize, u8)
    ensures { Scanned text.now result.0 result.1 }
{
    let whole = digits_end(text, 0);
    if whole == 0 {
        return (0, 0);
    }
    if whole == text.len() || text[whole] != b'.' {
        return (whole, 1);
    }
    (digits_end(text, whole + 1), 3)
}

/// How many bytes a float takes that stands at the front of a text, without a sign, where a reader of it has come so
/// far and to this state; `None` where it is none, and where no white space follows it.
#[inline(never)]
fn float_end(text: &[u8], begin: usize, start: u8) -> Option<usize>
    requires { Scanned text.now begin start }
    ensures some { IfSome result (λ k. 0 < k) }
    ensures ends { IfSome result (λ k. position_or_len is_ascii_whitespace text.now ≡ k) }
    ensures float { IfSome result (λ k. completes_number 0 (take k text.now) ≡ true) }
{
    let mut state = start;
    'bytes: for place in begin..text.len() {
        let byte = text[place];
        if byte.is_ascii_whitespace() {
            return if completes(state) { Some(place) } else { None };
        }
        state = next_state(state, byte);
    }
    None
}

/// How many bytes a float takes that stands at the front of a text, without a sign; `None` where there is none, and
/// where no white space follows it.
#[inline(always)]
fn float_len(text: &[u8]) -> Option<usize>
    ensures some { IfSome result (λ k. 0 < k) }
    ensures ends { IfSome result (λ k. position_or_len is_ascii_whitespace text.now ≡ k) }
    ensures float { IfSome result (λ k. completes_number 0 (take k text.now) ≡ true) }
{
    let (front, state) = float_front(text);
    if front < text.len() && completes(state) && text[front].is_ascii_whitespace() {
        return Some(front);
    }
    float_end(text, front, state)
}

/// How many bytes the sign takes that leads a text: one, or none.
#[inline]
fn sign_len(text: &[u8]) -> usize
    ensures { result ≡ cond (slice_index text.now 0 == 43 || slice_index text.now 0 == 45) 1 0 }
{
    if text.is_empty() {
        return 0;
    }
    let first = text[0];
    if first == b'+' || first == b'-' { 1 } else { 0 }
}

/// What stands behind the first word of a text, where that word is a float in digits on the first line and white space
/// follows it. `None` says nothing of the text: its first word may be `inf`, or the last one.
#[inline]
pub fn behind_float(line: &[u8]) -> Option<&[u8]>
    ensures word { IfSome result (λ r. (w : List ℕ) × (words line.now ≡ w ∷ words r.now) × (is_float_text w ≡ true)) }
    ensures line { IfSome result (λ r. StaysInLine line.now r.now) }
{
    let (_, text) = line.split_at(blanks_end(line));
    let (_, body) = text.split_at(sign_len(text));
    let (_, rest) = body.split_at(float_len(body)?);
    Some(rest)
}

/// A byte, with `e` in the place of the `D` with which Fortran begins the exponent of a double, in either case.
pub fn exponent_mark(byte: u8) -> u8
    ensures { result ≡ exponent_mark byte }
{
    if byte == b'D' || byte == b'd' {
        b'e'
    } else {
        byte
    }
}

/// Whether a word is a number in digits, where a `D` may stand for the `e` before its exponent.
pub fn is_double(word: &[u8]) -> bool
    ensures { result ≡ is_double_text word.now }
{
    let (_, body) = word.split_at(sign_len(word));
    let mut state = 0;
    'bytes: for byte in body {
        state = next_state(state, exponent_mark(*byte));
    }
    completes(state)
}
