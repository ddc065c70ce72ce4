// The static library: the functions of `towungbe` under their own names for C, C++ and Rust, each with the promise that it has there.
#![tactic(auto)]

ghost use Rattle.std.specs.Prelude.{◌≡◌};
ghost use Rattle.direct_calls.specs.Kept.{left, kept_reply, kept_call};
ghost use Rattle.direct_calls.specs.Places.{kept_place};
ghost use Rattle.kept_setup.specs.KeptSetup.{kept_nucleus, kept_made, kept_set_up, store_bytes, image_bytes};

use committed::Place;
use entries::Entry;
use kept_states::{ControlBlock, KeptState};

// One call. Its answer is put into the block; the response's number is returned too.
#[unsafe(no_mangle)]
pub extern "C" fn towungbe_call(
    state: &mut KeptState,
    block: &mut ControlBlock,
    capacity: usize,
    store: &mut [u8],
    queue: &mut [Entry],
    images: &mut [u8],
    format: &[u8],
    buffer: &mut [u8],
) -> u32
    ensures { kept_reply (left state.new block.new result) store.new queue.new images.new buffer.new
        ≡ kept_call capacity state.old block.old store.old queue.old images.old format.now buffer.old }
{
    towungbe::towungbe_call(state, block, capacity, store, queue, images, format, buffer)
}

// Sets a nucleus up, and returns the response's number. Where it is refused no table is kept, so that every call answers 12.
#[unsafe(no_mangle)]
pub extern "C" fn towungbe_set_up(
    state: &mut KeptState,
    capacity: usize,
    table: &[u8],
    store: &mut [u8],
    queue: &[Entry],
    images: &[u8],
) -> u32
    ensures { kept_made (kept_nucleus state.new result) store.new ≡ kept_set_up capacity store.old queue.now images.now table.now }
{
    towungbe::towungbe_set_up(state, capacity, table, store, queue, images)
}

// The bytes of the store that set-up asks for with a table; 0 for one that it refuses as invalid.
#[unsafe(no_mangle)]
pub extern "C" fn towungbe_store_size(table: &[u8]) -> usize
    ensures { result ≡ store_bytes table.now }
{
    towungbe::towungbe_store_size(table)
}

// The bytes of the image buffer that set-up asks for with a table and a capacity; 0 for a table that it refuses as invalid, or a capacity that is
// not 1 to 256.
#[unsafe(no_mangle)]
pub extern "C" fn towungbe_image_size(table: &[u8], capacity: usize) -> usize
    ensures { result ≡ image_bytes capacity table.now }
{
    towungbe::towungbe_image_size(table, capacity)
}

// Where the record of a file and an ISN lies as ended transactions left it: in the image buffer or in the store, or nowhere. It is no call, and
// changes nothing but the place.
#[unsafe(no_mangle)]
pub extern "C" fn towungbe_committed_place(
    state: &KeptState,
    capacity: usize,
    file: u8,
    isn: u16,
    store: &[u8],
    queue: &[Entry],
    images: &[u8],
    place: &mut Place,
)
    ensures { place.new ≡ kept_place capacity state.now file isn store.now queue.now images.now }
{
    towungbe::towungbe_committed_place(state, capacity, file, isn, store, queue, images, place);
}
