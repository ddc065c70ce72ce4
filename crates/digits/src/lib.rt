// Whether the bytes of a value are allowed in a field, by the field's format: "a digit or sign not allowed" (55), said the other way.
#![tactic(auto)]

ghost use Rattle.std.specs.Prelude.{◌≡◌, ◌||◌};
ghost use Rattle.lists.specs.Folds.{all};
ghost use Rattle.digits.specs.Digits.{unpacked_digit, digit, positive_sign, negative_sign, halves, allowed};
ghost use Rattle.definition.specs.declared.Format.TheVariants.{Packed};

use definition::Format;

// The greatest digit in a half byte.
const MAX_DIGIT: u8 = 9;

// Whether a half byte is a sign.
#[tactic(auto, using(crate::specs::Laws::sign_is))]
fn is_sign(half: u8) -> bool
    ensures { result ≡ (positive_sign half || negative_sign half) }
{
    matches!(half, 0xA..=0xF)
}

fn unpacked_allowed(value: &[u8]) -> bool
    ensures { result ≡ all unpacked_digit value.now }
{
    value.iter().all(|byte| matches!(*byte, b'0'..=b'9'))
}

// Whether both half bytes of each byte are digits.
fn halves_allowed(bytes: &[u8]) -> bool
    ensures { result ≡ all digit (halves bytes.now) }
{
    bytes
        .iter()
        .all(|byte| *byte / 16 <= MAX_DIGIT && *byte % 16 <= MAX_DIGIT)
}

#[tactic(auto, using(crate::specs::Laws::all_digits), unfolding(crate::specs::Digits::allowed))]
fn packed_allowed(value: &[u8]) -> bool
    ensures { result ≡ allowed Packed value.now }
{
    let Some((last, front)) = value.split_last() else {
        return false;
    };
    halves_allowed(front) && *last / 16 <= MAX_DIGIT && is_sign(*last % 16)
}

// Whether the value has no digit and no sign that its format does not allow.
#[tactic(auto, unfolding(crate::specs::Digits::allowed))]
pub fn allowed(format: Format, value: &[u8]) -> bool
    ensures { result ≡ allowed format value.now }
{
    match format {
        Format::Alphanumeric => true,
        Format::Binary => true,
        Format::Unpacked => unpacked_allowed(value),
        Format::Packed => packed_allowed(value),
    }
}
