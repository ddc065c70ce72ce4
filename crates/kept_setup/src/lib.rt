// Set-up with the state as a caller keeps it, and the bytes that a table asks for.
#![tactic(auto)]

ghost use Rattle.std.specs.Prelude.{List, ◌≡◌, length, ◌*◌, ◌≤◌};
ghost use Rattle.layout.specs.Layout.{image_length};
ghost use Rattle.nucleus.specs.Nucleus.{max_capacity};
ghost use Rattle.entries.specs.declared.Entry.{Entry};
ghost use Rattle.kept_setup.specs.KeptSetup.{kept_made, kept_set_up, store_bytes, image_bytes};

use definition::Definition;
use kept_states::KeptState;
use nucleus::MAX_CAPACITY;

// What set-up gives: the state, and the response's number.
#[derive(Clone, Copy)]
pub struct KeptNucleus {
    pub state: KeptState,
    pub response: u32,
}

// Sets a nucleus up on what is lent. Of the queue only the number of its entries is looked at.
pub fn kept_set_up(
    capacity: usize,
    table: &[u8],
    store: &mut [u8],
    entries: usize,
    images: &[u8],
) -> KeptNucleus
    ensures { (queue : List Entry) → length queue ≡ entries → kept_made result store.new ≡ kept_set_up capacity store.old queue images.now table.now }
{
    let made = setup::set_up_for(table, capacity, store, entries, images);
    let state = kept_states::frozen(made.state);
    let number = response_numbers::number(made.response);
    KeptNucleus {
        state,
        response: u32::from(number),
    }
}

// The bytes of the store for a table; none for one that set-up refuses as invalid.
pub fn store_bytes(table: &[u8]) -> usize
    ensures { result ≡ store_bytes table.now }
{
    let read = reading::read(table);
    let Some(at) = read.end else {
        return 0;
    };
    if at != table.len() {
        return 0;
    }
    layout::store_size(read.definition)
}

fn image_room(d: Definition, capacity: usize) -> usize
    requires { capacity ≤ max_capacity }
    ensures { result ≡ capacity * image_length d }
{
    capacity * layout::image_length(d)
}

// The bytes of the image buffer for a table and a capacity; none for a table that set-up refuses as invalid, or a capacity that no queue may have.
pub fn image_bytes(table: &[u8], capacity: usize) -> usize
    ensures { result ≡ image_bytes capacity table.now }
{
    if MAX_CAPACITY < capacity {
        return 0;
    }
    let read = reading::read(table);
    let Some(at) = read.end else {
        return 0;
    };
    if at != table.len() {
        return 0;
    }
    image_room(read.definition, capacity)
}
