// The format buffer: "names divided by commas, ended by a period, nothing after, at least one name" (document 01), or the period alone, which
// names no field (document 02, No. 5). An element is a name of two bytes and the byte after it, so elements begin at the indices 0, 3, 6, ..
// Any bytes may come in, and a field may be named any number of times: nothing here grows with the buffer.
#![tactic(auto)]

ghost use Rattle.std.specs.Prelude.{◌≡◌};
ghost use Rattle.elements.specs.Elements.{form, period_alone, field_named, names_valid, format_valid, element, named_twice, length_of, needed_within};

use definition::{File, MAX_FIELDS, Name};

const COMMA: u8 = b',';

const PERIOD: u8 = b'.';

// The bytes of an element.
pub const ELEMENT: usize = 3;

// The place of the field with the name, among those in use.
fn field_named(f: File, name: Name) -> Option<usize>
    ensures { result ≡ field_named f name }
{
    let n = definition::field_count(f);
    f.fields[..n]
        .iter()
        .position(|g| definition::same_name(g.name, name))
}

// The place of the field that the element at a byte names. Callers step through a buffer with it, from 0 by `ELEMENT`.
#[tactic(auto, using(crate::proofs::Steps::element_name, crate::proofs::Steps::element_none))]
pub fn element(f: File, format: &[u8], at: usize) -> Option<usize>
    ensures { result ≡ element f format.now at }
{
    if format.len().saturating_sub(at) < ELEMENT {
        return None;
    }
    let name = Name {
        first: format[at],
        second: format[at + 1],
    };
    field_named(f, name)
}

// Whether the bytes have the form of names.
#[tactic(auto, using(crate::proofs::Steps::form_more, crate::proofs::Steps::form_last, crate::proofs::Steps::form_short))]
fn form(format: &[u8]) -> bool
    ensures { result ≡ form format.now }
{
    let n = format.len();
    let mut i = 0;
    // `while`: where it ends is used behind it.
    while ELEMENT < n - i {
        if format[i + 2] != COMMA {
            return false;
        }
        i += ELEMENT;
    }
    // What is left is the last element, or too few bytes for one.
    n - i == ELEMENT && format[i + 2] == PERIOD
}

// Whether the names have their form, and each is a field's.
fn names_valid(f: File, format: &[u8]) -> bool
    ensures { result ≡ names_valid f format.now }
{
    if !form(format) {
        return false;
    }
    for i in (0..format.len()).step_by(ELEMENT) {
        if element(f, format, i).is_none() {
            return false;
        }
    }
    true
}

// Whether the buffer is the period alone.
#[tactic(auto, using(lists::specs::Tests::eqbs_lengths))]
fn period_alone(format: &[u8]) -> bool
    ensures { result ≡ period_alone format.now }
{
    matches!(format, [PERIOD])
}

// Whether the buffer is the period alone, or names fields. The period behind names and a comma is no buffer of its own: `form` refuses it.
#[tactic(auto, unfolding(crate::specs::Elements::format_valid))]
pub fn format_valid(f: File, format: &[u8]) -> bool
    ensures { result ≡ format_valid f format.now }
{
    period_alone(format) || names_valid(f, format)
}

// Whether a field is named twice: a flag for each place says whether its field was named before.
pub fn named_twice(f: File, format: &[u8]) -> bool
    ensures { result ≡ named_twice f format.now }
{
    let mut seen = [false; MAX_FIELDS];
    for i in (0..format.len()).step_by(ELEMENT) {
        if let Some(k) = element(f, format, i) {
            if seen[k] {
                return true;
            }
            seen[k] = true;
        }
    }
    false
}

// The length of the field at a place that was found; 0 where none was.
fn length_of(f: File, found: Option<usize>) -> usize
    ensures { result ≡ length_of f found }
{
    found.map_or(0, |k| records::field_length(f, k))
}

// The bytes that the values of the named fields take, one after another, where they fit into the room. The sum never passes the room, so it
// cannot overflow however often a field is named.
pub fn needed_within(f: File, format: &[u8], room: usize) -> Option<usize>
    ensures { result ≡ needed_within f format.now room }
{
    let mut sum: usize = 0;
    for i in (0..format.len()).step_by(ELEMENT) {
        let length = length_of(f, element(f, format, i));
        if room - sum < length {
            return None;
        }
        sum += length;
    }
    Some(sum)
}
