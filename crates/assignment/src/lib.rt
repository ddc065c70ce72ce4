// N1's ISN (document 01): "the first ISN after the one that N1 last gave in that file (0 when fresh), going round once, that has no record and
// no holder".
#![tactic(auto)]

ghost use Rattle.std.specs.Prelude.{◌≡◌, not, ◌&&◌, ◌-◌, ◌≤◌, ◌<◌, length};
ghost use Rattle.lists.specs.Folds.{any};
ghost use Rattle.lists.specs.Numbers.{numbers};
ghost use Rattle.entries.specs.Entries.{entries, is_of};
ghost use Rattle.search.specs.Search.{first_of};
ghost use Rattle.shares.specs.Chains.{free_isn};
ghost use Rattle.assignment.specs.Assignment.{recorded_at, free_at};

use definition::File;
use nucleus::Call;
use shares::Share;

// Whether the slot from `at` to `next` has a record; one that does not end within the `room` has none.
fn recorded_at(part: &[u8], room: usize, at: usize, next: usize) -> bool
    requires room_in_bounds { room ≤ length part.now }
    requires at_lt_next { at < next }
    ensures { result ≡ recorded_at room part.now at next }
{
    next <= room && part[at] == 1
}

// Whether somebody holds the ISN.
fn is_held(queue: &[u64], count: usize, file: u8, isn: u16) -> bool
    ensures { result ≡ any (is_of file isn) (entries queue.now count) }
{
    queue::holder(queue, count, file, isn).is_some()
}

// Whether the slot has no record, and nobody holds its ISN. An ISN that its holder has emptied is not free.
fn is_free(
    part: &[u8],
    room: usize,
    at: usize,
    next: usize,
    isn: usize,
    file: u8,
    queue: &[u64],
    count: usize,
) -> bool
    requires room_in_bounds { room ≤ length part.now }
    requires at_lt_next { at < next }
    requires isn_bound { isn < 65536 }
    ensures { result ≡ (not (recorded_at room part.now at next) && not (any (is_of file isn) (entries queue.now count))) }
{
    !recorded_at(part, room, at, next) && !is_held(queue, count, file, isn as u16)
}

// The first free ISN from `from` on and before `end`, in a part that has slots of a size in its first `room` bytes.
fn first_free(
    part: &[u8],
    room: usize,
    size: usize,
    from: usize,
    end: usize,
    file: u8,
    queue: &[u64],
    count: usize,
) -> Option<u16>
    requires room_in_bounds { room ≤ length part.now }
    requires le_size { 1 ≤ size }
    requires size_bound { size ≤ 4081 }
    requires le_from { 1 ≤ from }
    requires from_bound { from ≤ 65536 }
    requires end_bound { end ≤ 65536 }
    ensures { result ≡ first_of (free_at room size part.now file (entries queue.now count)) (numbers (end - from) from) }
{
    let mut at = (from - 1) * size;
    for isn in from..end {
        let next = at + size;
        if is_free(part, room, at, next, isn, file, queue, count) {
            return Some(isn as u16);
        }
        at = next;
    }
    None
}

// N1's ISN: the first free one after the mark, which is the ISN that it last gave, up to the highest, and then from 1 up to the mark's own.
// Going round takes no division and no remainder: each search compares with its end, and a slot is there if it ends within the room.
pub fn free_isn(call: Call, share: Share, queue: &[u64], f: File, part: &[u8]) -> Option<u16>
    ensures { result ≡ free_isn f part.now call share queue.now }
{
    let size = records::slot_length(f);
    let room = layout::file_size(f).min(part.len());
    let mark = usize::from(share.last_assigned);
    let after = mark + 1;
    let later = first_free(
        part,
        room,
        size,
        after,
        usize::from(f.max_isn) + 1,
        call.file,
        queue,
        share.count,
    );
    if let Some(isn) = later {
        return Some(isn);
    }
    first_free(part, room, size, 1, after, call.file, queue, share.count)
}
