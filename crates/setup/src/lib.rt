// Set-up (document 01, 'Files and their definition'): a definition table is read, and the lent store made empty for it.
#![tactic(auto)]

ghost use Rattle.std.specs.Prelude.{◌≡◌, List, ℕ, ◌≤◌, ◌<◌, length};
ghost use Rattle.lists.specs.Numbers.{numbers};
ghost use Rattle.definition.specs.Table.{file_at, file_count, no_definition};
ghost use Rattle.layout.specs.Layout.{store_size};
ghost use Rattle.store.specs.Store.{fresh, file_part, with_part};
ghost use Rattle.nucleus.specs.Nucleus.{nucleus, no_data, fresh_state};
ghost use Rattle.nucleus.specs.Step.{freshened, set_up};
ghost use Rattle.setup.specs.SetUp.{made, set_up_to};

use definition::{Definition, MAX_FILES};
use nucleus::{EtData, MAX_ET_DATA, MAX_USERS, Response, State, WaitQueue};

// What set-up answers, and the state that it gives. Where it refuses, the state has no table, so that every call on it answers 12.
#[derive(Clone, Copy)]
pub struct Nucleus {
    pub response: Response,
    pub state: State,
}

fn no_data() -> EtData
    ensures { result ≡ no_data }
{
    EtData {
        length: 0,
        bytes: [0; MAX_ET_DATA],
    }
}

// "the kept clock is 0, no user is open, there is no entry and no ET data: a fresh nucleus"; nobody waits.
fn fresh_state(definition: Definition) -> State
    ensures { result ≡ fresh_state definition }
{
    State {
        definition,
        clock: 0,
        users: [sessions::fresh_user(); MAX_USERS],
        et_data: [no_data(); MAX_USERS],
        last_assigned: [0; MAX_FILES],
        count: 0,
        wait_queue: WaitQueue {
            places: [0; MAX_USERS],
            waiting: 0,
        },
    }
}

// Makes every ISN of the file at a place empty.
fn freshen_file(d: Definition, i: usize, store: &mut [u8])
    requires i_bound { i < file_count d }
    requires d_in_bounds { store_size d ≤ length store.old }
    ensures { store.new ≡ with_part d i store.old (fresh (file_at d i) (file_part d i store.old)) }
{
    let f = d.files[i];
    let start = layout::file_offset(d, i);
    let end = layout::file_offset(d, i + 1);
    store::fresh(f, &mut store[start..end]);
}

// "Set-up puts 0 in every first byte of an ISN and writes nothing else lent".
fn freshen(d: Definition, store: &mut [u8])
    requires { store_size d ≤ length store.old }
    ensures { store.new ≡ freshened d (numbers (file_count d) 0) store.old }
{
    let n = definition::file_count(d);
    for i in 0..n {
        freshen_file(d, i, store);
    }
}

// "nothing set up".
fn refused(cause: Response) -> Nucleus
    ensures { result ≡ made cause (fresh_state no_definition) }
{
    Nucleus {
        response: cause,
        state: fresh_state(definition::no_definition()),
    }
}

// Sets a nucleus up on what is lent: any table, any capacity, any lengths. Of the queue only the number of its entries is looked at.
pub fn set_up_for(
    table: &[u8],
    capacity: usize,
    store: &mut [u8],
    entries: usize,
    images: &[u8],
) -> Nucleus
    ensures { (queue : List ℕ) → length queue ≡ entries → set_up_to result store.new queue images.now ≡ set_up capacity store.old queue images.now table.now }
{
    let read = reading::read(table);
    let Some(at) = read.end else {
        return refused(Response::DefinitionInvalid);
    };
    if at != table.len() {
        return refused(Response::DefinitionInvalid);
    }
    let d = read.definition;
    if usability::too_short_for(d, capacity, store, entries, images) {
        return refused(Response::BufferTooShort);
    }
    freshen(d, store);
    Nucleus {
        response: Response::Good,
        state: fresh_state(d),
    }
}

// The same with a queue itself.
pub fn set_up(
    table: &[u8],
    capacity: usize,
    store: &mut [u8],
    queue: &[u64],
    images: &[u8],
) -> Nucleus
    ensures { set_up_to result store.new queue.now images.now ≡ set_up capacity store.old queue.now images.now table.now }
{
    set_up_for(table, capacity, store, queue.len(), images)
}
