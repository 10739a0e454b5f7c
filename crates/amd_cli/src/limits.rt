// How much memory a run may take: the number of bytes that the text of `--memory` tells, with a letter for 1,024 of
// them, for 1,024 times as many, or for 1,024 times those.

ghost use Rattle.std.specs.Prelude.{◌≡◌, IfSome};
ghost use Rattle.std.specs.Str.Parse.{digits_value, without_leading_plus};
ghost use Rattle.amd_cli.specs.Limits.{AreUnitParts, SpellsLimit, unit_of};

/// How many bytes a letter stands for.
fn unit_of(letter: u8) -> Option<u64>
    ensures { result ≡ unit_of letter }
{
    match letter {
        b'K' | b'k' => Some(1 << 10),
        b'M' | b'm' => Some(1 << 20),
        b'G' | b'g' => Some(1 << 30),
        _ => None,
    }
}

/// What stands before the letter of a text, and how many bytes that stands for: all of it and 1 where it ends with
/// none.
fn parts_of(text: &str) -> (&str, u64)
    ensures { AreUnitParts text.now result.0.now result.1 }
{
    let Some((digits, end)) = text.split_at_checked(text.len().saturating_sub(1)) else {
        return (text, 1);
    };
    match end.as_bytes() {
        [letter] => match unit_of(*letter) {
            Some(unit) => (digits, unit),
            None => (text, 1),
        },
        _ => (text, 1),
    }
}

/// The number that digits spell, where 64 bits hold it.
fn number_of(digits: &str) -> Option<u64>
    ensures { IfSome result (λ v. v ≡ digits_value 10 (without_leading_plus digits.now)) }
{
    digits.parse::<u64>().ok()
}

/// The bytes that a text tells: a whole number, with a letter of K, M or G behind it or none.
pub fn limit_of(text: &str) -> Option<u64>
    ensures { IfSome result (SpellsLimit text.now) }
{
    let (digits, unit) = parts_of(text);
    let number = number_of(digits)?;
    number.checked_mul(unit)
}
