// The store (document 01, 'Store'): one slot for each ISN, a byte that says whether there is a record, and the record.
// Callers lend the part of the store that belongs to one file. What a part lacks, being too short, has no record and is not written;
// what it has past the file's last slot is not touched.
#![tactic(auto)]

ghost use Rattle.std.specs.Prelude.{◌≡◌, ◌+◌, ◌*◌, ◌≤◌, ◌<◌, ◌∷◌, length};
ghost use Rattle.lists.specs.Tests.{within};
ghost use Rattle.lists.specs.Numbers.{from_to};
ghost use Rattle.lists.specs.Pieces.{patch};
ghost use Rattle.store.specs.Store.{cleared, slot_count, has_record, shown, put_record, empty, fresh};

use definition::File;

// How many of the file's slots lie whole within so many bytes.
pub fn slot_count(f: File, bytes: usize) -> usize
    ensures { result ≡ slot_count f bytes }
{
    usize::from(f.max_isn).min(bytes / records::slot_length(f))
}

// Whether the ISN has a slot, and its slot lies within so many bytes of the file's part.
fn slot_fits(f: File, bytes: usize, isn: u16) -> bool
    ensures { result ≡ within 1 (slot_count f bytes) isn }
{
    isn != 0 && usize::from(isn) <= slot_count(f, bytes)
}

#[tactic(auto, using(crate::specs::Slots::slot_inside), unfolding(crate::specs::Store::has_record, crate::specs::Store::slot_fits))]
pub fn has_record(f: File, part: &[u8], isn: u16) -> bool
    ensures { result ≡ has_record f part.now isn }
{
    slot_fits(f, part.len(), isn) && part[records::slot_offset(f, isn)] == 1
}

// The record of an ISN, as a part of what was lent; no bytes where there is none.
#[tactic(auto, using(crate::proofs::Laws::record_inside, crate::proofs::Laws::shown_record, crate::proofs::Laws::shown_none, lists::specs::Parts::part_take))]
pub fn record_part(f: File, part: &[u8], isn: u16) -> &[u8]
    ensures { result.now ≡ shown f part.now isn }
{
    if !has_record(f, part, isn) {
        return &part[..0];
    }
    let start = records::slot_offset(f, isn) + 1;
    &part[start..start + records::record_length(f)]
}

// Fills the slot that begins at `at`: 1, and then the bytes.
#[tactic(auto, using(slices::specs::Laws::copied_whole, lists::specs::Pieces::patch_set))]
fn fill(part: &mut [u8], at: usize, bytes: &[u8])
    requires { at + 1 + length bytes.now ≤ length part.old }
    ensures { part.new ≡ patch at (length bytes.now + 1) part.old (1 ∷ bytes.now) }
{
    part[at] = 1;
    let start = at + 1;
    slices::copy(bytes, &mut part[start..start + bytes.len()]);
}

// Puts a record at an ISN. A record of another length than the file's is not put.
#[tactic(auto, using(crate::specs::Slots::slot_inside), unfolding(crate::specs::Store::put_record, crate::specs::Store::slot_fits))]
pub fn put_record(f: File, part: &mut [u8], isn: u16, bytes: &[u8])
    ensures { part.new ≡ put_record f part.old isn bytes.now }
{
    if !slot_fits(f, part.len(), isn) {
        return;
    }
    if bytes.len() != records::record_length(f) {
        return;
    }
    let at = records::slot_offset(f, isn);
    fill(part, at, bytes);
}

// Makes an ISN empty; the bytes of its record stay.
#[tactic(auto, using(crate::specs::Slots::slot_inside), unfolding(crate::specs::Store::empty, crate::specs::Store::slot_fits))]
pub fn empty(f: File, part: &mut [u8], isn: u16)
    ensures { part.new ≡ empty f part.old isn }
{
    if !slot_fits(f, part.len(), isn) {
        return;
    }
    part[records::slot_offset(f, isn)] = 0;
}

#[tactic(auto, using(lists::specs::Numbers::from_to_more, lists::specs::Numbers::from_to_none))]
fn clear(part: &mut [u8], size: usize, last: usize)
    requires le_size { 1 ≤ size }
    requires last_bound { last < 65536 }
    requires size_in_bounds { last * size ≤ length part.old }
    ensures { part.new ≡ cleared size (from_to 1 last) part.old }
{
    for isn in 1..=last {
        part[(isn - 1) * size] = 0;
    }
}

// Makes every ISN of the file empty.
#[tactic(auto, using(crate::specs::Slots::count_room), unfolding(crate::specs::Store::fresh))]
pub fn fresh(f: File, part: &mut [u8])
    ensures { part.new ≡ fresh f part.old }
{
    let size = records::slot_length(f);
    let last = slot_count(f, part.len());
    clear(part, size, last);
}
