// The words of a line and the number that a word spells. Words are parted by ASCII white space, which takes in the
// line's end; a number is what `parse` of the standard library takes.

ghost use Rattle.std.specs.Prelude.{◌≡◌, ◌<◌, ◌+◌, ◌∷◌, ℕ, ℤ, pos, List, [], length, take, drop};
ghost use Rattle.std.specs.Prelude.{not, IfSome, MatchOption};
ghost use Rattle.std.specs.List.{position, position_or_len};
ghost use Rattle.std.specs.Char.{is_ascii_whitespace};
ghost use Rattle.amd_lines.specs.Words.{words, BeginsWithByte, SpellsNumber, AreBlanks, StaysInLine, EndsAt};

/// How many bytes are looked at for the digits of a number and the white space behind them.
const MOST: usize = 19;

/// Where the first byte stands that is no white space.
pub(crate) fn word_start(line: &[u8]) -> Option<usize>
    ensures { result ≡ position (λ b. not (is_ascii_whitespace b)) line.now }
{
    line.iter().position(|b| !b.is_ascii_whitespace())
}

/// Where the first byte stands that is a line feed or no white space; the end of the text where there is none.
#[inline]
pub(crate) fn blanks_end(text: &[u8]) -> usize
    ensures { AreBlanks text.now result }
{
    'bytes: for (place, &byte) in text.iter().enumerate() {
        if byte == b'\n' || !byte.is_ascii_whitespace() {
            return place;
        }
    }
    text.len()
}

/// Where the first white space stands.
fn word_end(line: &[u8]) -> Option<usize>
    ensures { result ≡ position is_ascii_whitespace line.now }
{
    line.iter().position(|b| b.is_ascii_whitespace())
}

/// The first word of a line, and what stands behind it; `None` where the line has no word. How much white space stands
/// before the rest is not said.
pub fn first_word(line: &[u8]) -> Option<(&[u8], &[u8])>
    ensures words { MatchOption result (words line.now ≡ []) (λ p. words line.now ≡ p.0.now ∷ words p.1.now) }
    ensures shorter { IfSome result (λ p. length p.1.now < length line.now) }
{
    let (_, text) = line.split_at(word_start(line)?);
    let end = word_end(text).unwrap_or(text.len());
    Some(text.split_at(end))
}

/// The first byte of the first word of a line; `None` where the line has no word.
pub fn first_letter(line: &[u8]) -> Option<u8>
    ensures { MatchOption result (words line.now ≡ []) (λ b. BeginsWithByte b (words line.now)) }
{
    let place = word_start(line)?;
    Some(line[place])
}

/// The number that a word spells, where it spells one that fits.
pub fn number_of(word: &[u8]) -> Option<i64>
    ensures { MatchOption result ((z : ℤ) → SpellsNumber word.now z → ⊥) (SpellsNumber word.now) }
{
    fast_float::parse_i64(word).ok()
}

/// The number that the digits at the front of a text write, and how many they are; `None` where there are none, where
/// they are many, and where no white space follows them.
#[inline]
fn leading_number(text: &[u8]) -> Option<(usize, usize)>
    ensures some { IfSome result (λ p. 0 < p.1) }
    ensures ends { IfSome result (λ p. position_or_len is_ascii_whitespace text.now ≡ p.1) }
    ensures spells { IfSome result (λ p. SpellsNumber (take p.1 text.now) (pos p.0)) }
{
    let end = text.len().min(MOST);
    let mut number = 0;
    'digits: for place in 0..end {
        let byte = text[place];
        if !byte.is_ascii_digit() {
            if place == 0 || !byte.is_ascii_whitespace() {
                return None;
            }
            return Some((number, place));
        }
        number = number * 10 + (byte - b'0') as usize;
    }
    None
}

/// The number that the first word of a text spells, and what stands behind that word, where the word is at most 18
/// digits of the first line, and white space follows it. `None` says nothing of the text: it may have a longer number,
/// or one with a sign.
#[inline]
pub fn first_number(line: &[u8]) -> Option<(usize, &[u8])>
    ensures word { IfSome result (λ p. (w : List ℕ) × (words line.now ≡ w ∷ words p.1.now) × SpellsNumber w (pos p.0)) }
    ensures line { IfSome result (λ p. StaysInLine line.now p.1.now) }
{
    let (_, text) = line.split_at(blanks_end(line));
    let (number, end) = leading_number(text)?;
    let (_, rest) = text.split_at(end);
    Some((number, rest))
}

/// Where the line feed stands that ends the first line of a text, where no word stands before it. `None` says that a
/// word does, or that the text has no line feed.
#[inline]
pub fn bare_end(text: &[u8]) -> Option<usize>
    ensures end { IfSome result (EndsAt text.now) }
    ensures words { IfSome result (λ k. words text.now ≡ words (drop (k + 1) text.now)) }
{
    let place = blanks_end(text);
    if place == text.len() || text[place] != b'\n' {
        return None;
    }
    Some(place)
}
