// The item that a line spells: a keyword, and the numbers that it takes. The format is that of cases; see the root.

ghost use Rattle.std.specs.Prelude.{◌≡◌, ◌≢◌, ◌∷◌, Bool, List, [], map, ℤ, MatchOption, MatchResult};
ghost use Rattle.amd_lines.specs.Words.{words, SpellsNumbers};
ghost use Rattle.amd_cases.specs.Items.{keyword_text, item_keyword, truth_number, item_numbers, FitsItem, SpellsItem};
ghost use Rattle.amd_cases.specs.declared.items.Keyword.TheVariants as key;

use crate::faults::CaseFault;
use amd_lines::words::{first_word, number_of};
use std::alloc::Allocator;

/// What a line begins with.
#[derive(Clone, Copy)]
pub enum Keyword {
    /// `CASE`
    Case,
    /// `N`
    Size,
    /// `T`
    Dense,
    /// `AGG`
    Aggressive,
    /// `AP`
    Pointers,
    /// `AI`
    Rows,
    /// `HOLD`
    Hold,
    /// `PERM`
    Permutation,
    /// `ROOM`
    Room,
    /// `END`
    End,
}

/// What a line of a case says.
#[derive(Drop)]
pub enum Item<A: Allocator> {
    /// The number of the case.
    Case(i64),
    /// The number of rows and columns.
    Size(i64),
    /// The dense row parameter in thousandths.
    Dense(i32),
    /// Whether absorption is aggressive.
    Aggressive(bool),
    /// The pointers.
    Pointers(Vec<i64, A>),
    /// The rows.
    Rows(Vec<i64, A>),
    /// The rows that are held last, by a mark for each.
    Hold(Vec<bool, A>),
    /// A permutation.
    Permutation(Vec<i64, A>),
    /// A number of entries.
    Room(i64),
    /// The end of the case.
    End,
}

/// The keyword that a word is.
pub fn keyword_of(word: &[u8]) -> Option<Keyword>
    ensures { MatchOption result ((k : Keyword) → word.now ≢ keyword_text k) (λ k. word.now ≡ keyword_text k) }
{
    match word {
        b"CASE" => Some(Keyword::Case),
        b"N" => Some(Keyword::Size),
        b"T" => Some(Keyword::Dense),
        b"AGG" => Some(Keyword::Aggressive),
        b"AP" => Some(Keyword::Pointers),
        b"AI" => Some(Keyword::Rows),
        b"HOLD" => Some(Keyword::Hold),
        b"PERM" => Some(Keyword::Permutation),
        b"ROOM" => Some(Keyword::Room),
        b"END" => Some(Keyword::End),
        _ => None,
    }
}

/// The numbers that the words of a text spell. Which fault comes is left open, and so is when memory is refused.
pub fn numbers_of<A: Allocator + Copy>(alloc: A, text: &[u8]) -> Result<Vec<i64, A>, CaseFault>
    ensures { MatchResult result (λ v. SpellsNumbers (words text.now) v.items)
        (λ e. e ≢ CaseFault.OutOfMemory → (zs : List ℤ) → SpellsNumbers (words text.now) zs → ⊥) }
{
    let mut numbers = Vec::new(alloc);
    let mut left = text;
    'words: while let Some((word, behind)) = first_word(left) {
        let Some(number) = number_of(word) else {
            return Err(CaseFault::Numbers);
        };
        numbers.push(number)?;
        left = behind;
    }
    Ok(numbers)
}

/// The number of a list that has one.
fn only(numbers: &[i64]) -> Option<i64>
    ensures { MatchOption result ((z : ℤ) → numbers.now ≢ z ∷ []) (λ z. numbers.now ≡ z ∷ []) }
{
    match numbers {
        [number] => Some(*number),
        _ => None,
    }
}

/// Whether a number says yes, which is 1, or no, which is 0.
fn truth_of(number: &i64) -> Option<bool>
    ensures { MatchOption result ((b : Bool) → truth_number b ≢ number.now) (λ b. truth_number b ≡ number.now) }
{
    match *number {
        0 => Some(false),
        1 => Some(true),
        _ => None,
    }
}

/// The marks that numbers stand for, each of which is 1 for yes or 0 for no. Memory may be refused.
fn marks_of<A: Allocator>(alloc: A, numbers: &[i64]) -> Result<Vec<bool, A>, CaseFault>
    ensures { MatchResult result (λ v. map truth_number v.items ≡ numbers.now)
        (λ e. e ≢ CaseFault.OutOfMemory → (marks : List Bool) → map truth_number marks ≢ numbers.now) }
{
    let mut marks = Vec::new(alloc);
    let mut left = numbers;
    'numbers: while let Some((number, behind)) = left.split_first() {
        let Some(mark) = truth_of(number) else {
            return Err(CaseFault::Numbers);
        };
        marks.push(mark)?;
        left = behind;
    }
    Ok(marks)
}

/// The item of a keyword other than `HOLD` with its numbers.
fn item_from<A: Allocator>(keyword: Keyword, numbers: Vec<i64, A>) -> Option<Item<A>>
    requires { keyword ≢ key.Hold }
    ensures { MatchOption result ((i : Item A) → FitsItem i → item_keyword i ≡ keyword → item_numbers i ≢ numbers.items)
        (λ i. FitsItem i × (item_keyword i ≡ keyword) × (item_numbers i ≡ numbers.items)) }
{
    match keyword {
        Keyword::Case => Some(Item::Case(only(&numbers)?)),
        Keyword::Size => Some(Item::Size(only(&numbers)?)),
        Keyword::Dense => Some(Item::Dense(i32::try_from(only(&numbers)?).ok()?)),
        Keyword::Aggressive => Some(Item::Aggressive(truth_of(&only(&numbers)?)?)),
        Keyword::Pointers => Some(Item::Pointers(numbers)),
        Keyword::Rows => Some(Item::Rows(numbers)),
        Keyword::Hold => unreachable!(),
        Keyword::Permutation => Some(Item::Permutation(numbers)),
        Keyword::Room => Some(Item::Room(only(&numbers)?)),
        Keyword::End => {
            if numbers.is_empty() {
                Some(Item::End)
            } else {
                None
            }
        }
    }
}

/// The item of the keyword `HOLD` with its numbers. Memory may be refused.
fn hold_from<A: Allocator>(alloc: A, numbers: &[i64]) -> Result<Item<A>, CaseFault>
    ensures { MatchResult result (λ i. FitsItem i × (item_keyword i ≡ key.Hold) × (item_numbers i ≡ numbers.now))
        (λ e. e ≢ CaseFault.OutOfMemory → (i : Item A) → FitsItem i → item_keyword i ≡ key.Hold →
        item_numbers i ≢ numbers.now) }
{
    match marks_of(alloc, numbers) {
        Ok(marks) => Ok(Item::Hold(marks)),
        Err(fault) => Err(fault),
    }
}

/// The item that a line spells. Which fault comes is left open, and so is when memory is refused.
pub fn item_of<A: Allocator + Copy>(alloc: A, line: &[u8]) -> Result<Item<A>, CaseFault>
    ensures { MatchResult result (SpellsItem line.now)
        (λ e. e ≢ CaseFault.OutOfMemory → (i : Item A) → SpellsItem line.now i → ⊥) }
{
    let Some((word, text)) = first_word(line) else {
        return Err(CaseFault::Keyword);
    };
    let Some(keyword) = keyword_of(word) else {
        return Err(CaseFault::Keyword);
    };
    let numbers = numbers_of(alloc, text)?;
    if let Keyword::Hold = keyword {
        return hold_from(alloc, &numbers);
    }
    let Some(item) = item_from(keyword, numbers) else {
        return Err(CaseFault::Numbers);
    };
    Ok(item)
}
