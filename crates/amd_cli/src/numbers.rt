// The dense row parameter as a decimal number with up to three places behind the point, in thousandths. Source: the
// parameter of SuiteSparse's AMD.

ghost use Rattle.std.specs.Prelude.{◌≡◌, ◌<◌, ◌*ℤ◌, length, pos, IfSome};
ghost use Rattle.std.specs.Str.Parse.{signed_digits_value, starts_with_minus};
ghost use Rattle.amd_cli.specs.Numbers.{AreParts, JoinsParts, SpellsThousandths, unit_of};

/// What stands before the point and behind it.
fn parts_of(text: &str) -> (&str, &str)
    ensures { AreParts text.now result.0.now result.1.now }
{
    match text.split_once('.') {
        Some(parts) => parts,
        None => (text, ""),
    }
}

/// The number that stands before the point; 0 where no digit does.
fn whole_of(whole: &str) -> Option<i32>
    ensures { IfSome result (λ v. v ≡ signed_digits_value 10 whole.now) }
{
    match whole {
        "" | "-" | "+" => Some(0),
        _ => whole.parse::<i32>().ok(),
    }
}

/// The thousandths of the number that stands before the point.
fn size_of(whole: &str) -> Option<i32>
    ensures { IfSome result (λ v. v ≡ signed_digits_value 10 whole.now *ℤ pos 1000) }
{
    whole_of(whole)?.checked_mul(1000)
}

/// The number that digits spell; 0 where there are none.
fn digits_of(places: &str) -> Option<i32>
    ensures { IfSome result (λ v. v ≡ signed_digits_value 10 places.now) }
{
    match places {
        "" => Some(0),
        _ => places.parse::<i32>().ok(),
    }
}

/// The thousandths that the places behind the point spell: none, or up to three digits.
fn fraction_of(places: &str) -> Option<i32>
    ensures { IfSome result (λ v. (length places.now < 4)
        × (v ≡ signed_digits_value 10 places.now *ℤ pos (unit_of (length places.now)))) }
{
    if !places.bytes().all(|byte| byte.is_ascii_digit()) {
        return None;
    }
    let unit = match places.len() {
        0 => 1000,
        1 => 100,
        2 => 10,
        3 => 1,
        _ => return None,
    };
    digits_of(places)?.checked_mul(unit)
}

/// Whether a text begins with a minus sign.
fn is_negative(text: &str) -> bool
    ensures { result ≡ starts_with_minus text.now }
{
    text.as_bytes().first().copied().unwrap_or(0) == b'-'
}

/// The thousandths of a number with so much before the point and so many thousandths behind it.
fn joined(is_negative: bool, size: i32, rest: i32) -> Option<i32>
    ensures { IfSome result (JoinsParts is_negative size rest) }
{
    if is_negative {
        size.checked_sub(rest)
    } else {
        size.checked_add(rest)
    }
}

/// The thousandths that a decimal number with up to three places spells, where 32 bits hold them: digits, a point and
/// digits, or either alone, behind a sign or none.
pub fn thousandths_of(text: &str) -> Option<i32>
    ensures { IfSome result (SpellsThousandths text.now) }
{
    if !text.bytes().any(|byte| byte.is_ascii_digit()) {
        return None;
    }
    let (whole, places) = parts_of(text);
    let size = size_of(whole)?;
    let rest = fraction_of(places)?;
    let value = joined(is_negative(text), size, rest)?;
    Some(value)
}
