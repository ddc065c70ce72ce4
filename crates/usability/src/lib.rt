// Whether a call may use the kept state and what it is lent: document 01's 11 and 12, and 12 before 11 where the kept table is invalid.
#![tactic(auto)]

ghost use Rattle.std.specs.Prelude.{◌≡◌};
ghost use Rattle.nucleus.specs.Nucleus.{nucleus};
ghost use Rattle.nucleus.specs.WellMade.{too_short};
ghost use Rattle.nucleus.specs.Rows.{first_cause, rows_usable};
ghost use Rattle.shares.specs.Shares.{verdict};
ghost use Rattle.usability.specs.Sizes.{too_short_for};

use definition::Definition;
use nucleus::{MAX_CAPACITY, Response, State};

// A lent buffer is too short, or the capacity is not one that a queue may have. Of the queue only the number of its entries is looked at.
#[tactic(auto, using(lists::specs::Tests::less_is), unfolding(crate::specs::Sizes::too_short_for))]
pub fn too_short_for(
    d: Definition,
    capacity: usize,
    store: &[u8],
    entries: usize,
    images: &[u8],
) -> bool
    ensures { result ≡ too_short_for d capacity store.now entries images.now }
{
    !(1..=MAX_CAPACITY).contains(&capacity)
        || entries < capacity
        || store.len() < layout::store_size(d)
        || !slices::blocks_fit(capacity, layout::image_length(d), images.len())
}

#[tactic(auto, using(crate::specs::Sizes::too_short_is))]
fn too_short(d: Definition, capacity: usize, store: &[u8], queue: &[u64], images: &[u8]) -> bool
    ensures { result ≡ too_short d capacity store.now queue.now images.now }
{
    too_short_for(d, capacity, store, queue.len(), images)
}

// The table first, since sizes mean nothing where it is invalid; then the sizes; then the parts of the state.
pub fn usable(
    state: State,
    capacity: usize,
    store: &[u8],
    queue: &[u64],
    images: &[u8],
) -> Result<(), Response>
    ensures { result ≡ verdict (first_cause (rows_usable capacity (nucleus state store.now queue.now images.now))) }
{
    let d = state.definition;
    if !validity::valid(d) {
        return Err(Response::StateInvalid);
    }
    if too_short(d, capacity, store, queue, images) {
        return Err(Response::BufferTooShort);
    }
    if state.count <= capacity
        && !repeats::repeated(queue, state.count)
        && entry_tables::entries_made(d, state.users, queue, state.count)
        && well_made::users_made(state.users, state.clock)
        && assigned_isns::assigned_made(d, state.last_assigned)
        && well_made::data_made(state.et_data)
        && waiters_made::waiters_made(state.users, state.wait_queue, queue, state.count)
    {
        Ok(())
    } else {
        Err(Response::StateInvalid)
    }
}
