// What is sought in the part of the store that belongs to one file: the lowest record from an ISN on, and a value in another record.
#![tactic(auto)]

ghost use Rattle.std.specs.Prelude.{◌≡◌, ◌+◌, ◌*◌, ◌≤◌, ◌<◌, length};
ghost use Rattle.lists.specs.Folds.{any};
ghost use Rattle.lists.specs.Numbers.{from_to};
ghost use Rattle.store.specs.Store.{recorded};
ghost use Rattle.search.specs.Search.{first_of, held, has_field, lowest, elsewhere};

use definition::File;

// The first slot with a record, of those from `from` to `last`.
#[tactic(auto, using(lists::specs::Numbers::from_to_more, lists::specs::Numbers::from_to_none, store::specs::Slots::recorded_here, store::specs::Slots::slot_room))]
fn first_record(part: &[u8], size: usize, from: usize, last: usize) -> Option<u16>
    requires le_size { 1 ≤ size }
    requires le_from { 1 ≤ from }
    requires last_bound { last < 65536 }
    requires size_in_bounds { last * size ≤ length part.now }
    ensures { result ≡ first_of (recorded last size part.now) (from_to from last) }
{
    for isn in from..=last {
        if part[(isn - 1) * size] == 1 {
            return Some(isn as u16);
        }
    }
    None
}

// The lowest ISN at or above `from` that has a record (option `I`).
pub fn lowest(f: File, part: &[u8], from: u16) -> Option<u16>
    ensures { result ≡ lowest f part.now from }
{
    let size = records::slot_length(f);
    let last = store::slot_count(f, part.len());
    if from == 0 {
        return first_record(part, size, 1, last);
    }
    first_record(part, size, usize::from(from), last)
}

// Whether the slot that begins at `at` has a record with the value at an offset.
fn has_field(part: &[u8], at: usize, offset: usize, value: &[u8]) -> bool
    requires { at + 1 + offset + length value.now ≤ length part.now }
    ensures { result ≡ has_field part.now at offset value.now }
{
    let start = at + 1 + offset;
    part[at] == 1 && slices::same(&part[start..start + value.len()], value)
}

// Whether a slot other than `isn`, of those up to `last`, has a record with the value at an offset.
#[tactic(auto, using(lists::specs::Numbers::from_to_none, store::specs::Slots::slot_room))]
fn other_has(part: &[u8], size: usize, last: usize, isn: usize, offset: usize, value: &[u8]) -> bool
    requires last_bound { last < 65536 }
    requires size_in_bounds { last * size ≤ length part.now }
    requires value_bound { 1 + offset + length value.now ≤ size }
    ensures { result ≡ any (held last size part.now isn offset value.now) (from_to 1 last) }
{
    for other in 1..=last {
        if other != isn && has_field(part, (other - 1) * size, offset, value) {
            return true;
        }
    }
    false
}

// Whether a record of the file, at an ISN other than the given one, has the value in the field at a place.
pub fn elsewhere(f: File, part: &[u8], place: usize, isn: u16, value: &[u8]) -> bool
    ensures { result ≡ elsewhere f part.now place isn value.now }
{
    if definition::field_count(f) <= place {
        return false;
    }
    if value.len() != records::field_length(f, place) {
        return false;
    }
    let offset = records::field_offset(f, place);
    let size = records::slot_length(f);
    let last = store::slot_count(f, part.len());
    other_has(part, size, last, usize::from(isn), offset, value)
}
