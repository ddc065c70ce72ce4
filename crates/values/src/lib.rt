// One value of a field, by the field's format: its stored form, and the null value.
#![tactic(auto)]

ghost use Rattle.std.specs.Prelude.{◌≡◌, eqb, length, replicate};
ghost use Rattle.lists.specs.Tests.{cond};
ghost use Rattle.lists.specs.Folds.{any};
ghost use Rattle.digits.specs.Digits.{negative_sign, halves};
ghost use Rattle.values.specs.Values.{not_zero, stored_sign, stored, null_byte, null_value};
ghost use Rattle.definition.specs.declared.Format.TheVariants.{Packed};

use definition::Format;

// The signs with which packed bytes are stored.
const POSITIVE: u8 = 0xF;

const NEGATIVE: u8 = 0xD;

fn negative_sign(half: u8) -> bool
    ensures { result ≡ negative_sign half }
{
    half == 0xB || half == 0xD
}

// Whether a half byte is not zero.
fn any_not_zero(bytes: &[u8]) -> bool
    ensures { result ≡ any not_zero (halves bytes.now) }
{
    bytes.iter().any(|byte| *byte != 0)
}

// The sign half byte with which packed bytes are stored.
#[tactic(auto, using(crate::specs::Laws::any_digits), unfolding(crate::specs::Values::below_zero))]
fn stored_sign(value: &[u8]) -> u8
    ensures { result ≡ stored_sign value.now }
{
    let Some((last, front)) = value.split_last() else {
        return POSITIVE;
    };
    if negative_sign(*last % 16) && (*last / 16 != 0 || any_not_zero(front)) {
        NEGATIVE
    } else {
        POSITIVE
    }
}

#[tactic(auto, using(crate::specs::Laws::stored_sign_below), unfolding(crate::specs::Values::stored))]
fn put_sign(value: &mut [u8])
    ensures { value.new ≡ stored Packed value.old }
{
    let sign = stored_sign(value);
    if let Some(last) = value.last_mut() {
        *last = *last / 16 * 16 + sign;
    }
}

// Puts a value into stored form where it lies.
#[tactic(auto, unfolding(crate::specs::Values::stored))]
fn put_form(format: Format, value: &mut [u8])
    ensures { value.new ≡ stored format value.old }
{
    match format {
        Format::Alphanumeric => {}
        Format::Binary => {}
        Format::Unpacked => {}
        Format::Packed => put_sign(value),
    }
}

// Writes the stored form of a value. Where the lengths differ nothing is written.
#[tactic(auto, using(slices::specs::Laws::copied_whole))]
pub fn put_stored<'a, 'b>(format: Format, value: &'a [u8], to: &'b mut [u8])
    ensures { to.new ≡ cond (eqb (length value.now) (length to.old)) (stored format value.now) to.old }
{
    if value.len() != to.len() {
        return;
    }
    slices::copy(value, to);
    put_form(format, to);
}

fn null_byte(format: Format) -> u8
    ensures { result ≡ null_byte format }
{
    match format {
        Format::Alphanumeric => b' ',
        Format::Binary => 0,
        Format::Unpacked => b'0',
        Format::Packed => 0,
    }
}

// Writes the null value of the format.
#[tactic(auto, using(crate::specs::Laws::null_form))]
pub fn put_null(format: Format, to: &mut [u8])
    ensures { to.new ≡ null_value format (length to.old) }
{
    to.fill(null_byte(format));
    put_form(format, to);
}
