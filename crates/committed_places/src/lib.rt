// The whole record of a file and an ISN as ended transactions left it, as a part of what is lent, uncopied (document 02, No. 8). It is no call: it has
// no user and no clock, and changes nothing. There are no bytes where L1 with option `C` gets 11, 12, 17 or 113.
#![tactic(auto)]

ghost use Rattle.std.specs.Prelude.{◌≡◌, ◌+◌, ◌*◌, ◌≤◌, length};
ghost use Rattle.lists.specs.Tests.{cond};
ghost use Rattle.records.specs.Records.{record_length, slot_offset};
ghost use Rattle.layout.specs.Layout.{store_size, place};
ghost use Rattle.store.specs.Store.{has_record};
ghost use Rattle.committed.specs.Committed.{image_inside, no_place, in_store, in_images, version_place, bytes_at};
ghost use Rattle.nucleus.specs.Nucleus.{nucleus};
ghost use Rattle.nucleus.specs.Committed.{committed_place};
ghost use Rattle.committed_places.specs.Places.{place_found};

use committed::{Place, Version};
use definition::{Definition, File};
use nucleus::State;

fn no_place() -> Place
    ensures { result ≡ no_place }
{
    Place {
        start: 0,
        length: 0,
        imaged: false,
    }
}

// The record of an ISN in its file's part, which begins at `start` in the store.
#[tactic(auto, using(store::proofs::Laws::record_inside))]
fn stored_place(f: File, start: usize, part: &[u8], isn: u16) -> Place
    requires { start + length part.now ≤ 18446744073709551615 }
    ensures { result ≡ cond (has_record f part.now isn) (in_store (start + (slot_offset f isn + 1)) (record_length f)) no_place }
{
    if !store::has_record(f, part, isn) {
        return no_place();
    }
    let first = records::slot_offset(f, isn) + 1;
    Place {
        start: start + first,
        length: records::record_length(f),
        imaged: false,
    }
}

// The record at the front of the i-th block of the image buffer.
fn imaged_place(f: File, images: &[u8], width: usize, i: usize) -> Place
    ensures { result ≡ cond (image_inside f (length images.now) width i) (in_images (i * width) (record_length f)) no_place }
{
    if !committed::image_inside(f, images.len(), width, i) {
        return no_place();
    }
    Place {
        start: i * width,
        length: records::record_length(f),
        imaged: true,
    }
}

#[tactic(auto, unfolding(committed::specs::Committed::version_place))]
fn version_place(
    f: File,
    start: usize,
    part: &[u8],
    images: &[u8],
    width: usize,
    version: Version,
    isn: u16,
) -> Place
    requires { start + length part.now ≤ 18446744073709551615 }
    ensures { result ≡ version_place f start part.now images.now width version isn }
{
    match version {
        Version::Stored => stored_place(f, start, part, isn),
        Version::Imaged(i) => imaged_place(f, images, width, i),
        Version::Absent => no_place(),
    }
}

// 17 and 113, on a store that is as long as the table asks.
fn place_found(
    d: Definition,
    count: usize,
    file: u8,
    isn: u16,
    store: &[u8],
    queue: &[u64],
    images: &[u8],
) -> Place
    requires { store_size d ≤ length store.now }
    ensures { result ≡ place_found d count file isn store.now queue.now images.now (place d file) }
{
    let Some(i) = layout::place(d, file) else {
        return no_place();
    };
    let f = definition::file_at(d, i);
    if !(1..=f.max_isn).contains(&isn) {
        return no_place();
    }
    let version = committed::committed_version(queue, count, file, isn);
    let width = layout::image_length(d);
    let start = layout::file_offset(d, i);
    let end = start + layout::file_size(f);
    version_place(f, start, &store[start..end], images, width, version, isn)
}

// Where the record lies, for any state, capacity and lent slices.
pub fn committed_place(
    state: State,
    capacity: usize,
    file: u8,
    isn: u16,
    store: &[u8],
    queue: &[u64],
    images: &[u8],
) -> Place
    ensures { result ≡ committed_place (nucleus state store.now queue.now images.now) file isn capacity }
{
    if usability::usable(state, capacity, store, queue, images).is_err() {
        return no_place();
    }
    place_found(
        state.definition,
        state.count,
        file,
        isn,
        store,
        queue,
        images,
    )
}

// The record itself: the part of the image buffer or of the store that lies there.
pub fn committed_part<'a>(
    state: State,
    capacity: usize,
    file: u8,
    isn: u16,
    store: &'a [u8],
    queue: &[u64],
    images: &'a [u8],
) -> &'a [u8]
    ensures { result.now ≡ bytes_at (committed_place (nucleus state store.now queue.now images.now) file isn capacity) store.now images.now }
{
    let place = committed_place(state, capacity, file, isn, store, queue, images);
    committed::part_at(place, store, images)
}
