// Fields that are numbers.

ghost use Rattle.std.specs.Prelude.{◌≡◌, ◌<◌, ◌≤◌, ◌^◌, ◌++◌, ℕ, ℤ, [], ◌∷◌, decimal, true, false, FitsSigned, IfSome};
ghost use Rattle.std.specs.Prelude.{IfNone};
ghost use Rattle.std.specs.Fmt.{signed_decimal};
ghost use mir.Syntax.{w64};

use itoa::Buffer;
use std::str::from_utf8;

// Whether the field is this text.
pub fn is_same(field: &[u8], text: &[u8]) -> bool
    ensures yes { result ≡ true → field.now ≡ text.now }
    ensures no { result ≡ false → field.now ≡ text.now → ⊥ }
{
    field == text
}

// Whether the field is the number's text.
fn is_written(number: u64, field: &[u8]) -> bool
    ensures yes { result ≡ true → field.now ≡ decimal number }
    ensures no { result ≡ false → field.now ≡ decimal number → ⊥ }
{
    let mut digits = Buffer::new();
    is_same(field, digits.format(number).as_bytes())
}

// Whether the field is the signed number's text.
fn is_signed_written(number: i64, field: &[u8]) -> bool
    ensures yes { result ≡ true → field.now ≡ signed_decimal number }
    ensures no { result ≡ false → field.now ≡ signed_decimal number → ⊥ }
{
    let mut written = Buffer::new();
    is_same(field, written.format(number).as_bytes())
}

// The number whose text this is. The number is written again to check that, because the parse also takes a sign and
// zeros in front.
pub fn number(field: &[u8]) -> Option<u64>
    ensures some { IfSome result (λ n. field.now ≡ decimal n) }
    ensures none { IfNone result ((n : ℕ) → n < 2 ^ 64 → field.now ≡ decimal n → ⊥) }
{
    let Ok(text) = from_utf8(field) else {
        return None;
    };
    let Ok(number) = text.parse::<u64>() else {
        return None;
    };
    if is_written(number, field) {
        Some(number)
    } else {
        None
    }
}

// The number, if 32 bits hold it.
fn short(number: u64) -> Option<u32>
    ensures some { IfSome result (λ n. n ≡ number) }
    ensures none { IfNone result ((2 ^ 32 ≤ number) × (number < 2 ^ 64)) }
{
    u32::try_from(number).ok()
}

// The number of 32 bits whose text this is.
pub fn short_number(field: &[u8]) -> Option<u32>
    ensures some { IfSome result (λ n. field.now ≡ decimal n) }
    ensures none { IfNone result ((n : ℕ) → n < 2 ^ 32 → field.now ≡ decimal n → ⊥) }
{
    short(number(field)?)
}

// The signed number whose text this is.
pub fn signed_number(field: &[u8]) -> Option<i64>
    ensures some { IfSome result (λ z. field.now ≡ signed_decimal z) }
    ensures none { IfNone result ((z : ℤ) → FitsSigned w64 z → field.now ≡ signed_decimal z → ⊥) }
{
    let Ok(text) = from_utf8(field) else {
        return None;
    };
    let Ok(number) = text.parse::<i64>() else {
        return None;
    };
    if is_signed_written(number, field) {
        Some(number)
    } else {
        None
    }
}

// The number whose text stands after this mark.
pub fn marked_number(mark: u8, field: &[u8]) -> Option<u64>
    ensures some { IfSome result (λ n. field.now ≡ mark ∷ decimal n) }
    ensures none { IfNone result ((n : ℕ) → n < 2 ^ 64 → field.now ≡ mark ∷ decimal n → ⊥) }
{
    let (first, text) = field.split_first()?;
    if *first != mark {
        return None;
    }
    number(text)
}

// The number of 32 bits whose text stands before this mark.
pub fn short_number_before(field: &[u8], mark: u8) -> Option<u32>
    ensures some { IfSome result (λ n. field.now ≡ decimal n ++ mark ∷ []) }
    ensures none { IfNone result ((n : ℕ) → n < 2 ^ 32 → field.now ≡ decimal n ++ mark ∷ [] → ⊥) }
{
    let (last, text) = field.split_last()?;
    if *last != mark {
        return None;
    }
    short_number(text)
}
