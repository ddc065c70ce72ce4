// One call with the hold queue as a caller has it, a lent list of entries. The call itself works on words, one for each entry: the entries go out
// into words, and what the call leaves of these comes back.
#![tactic(auto)]

ghost use Rattle.std.specs.Prelude.{◌≡◌, ◌≤◌, length};
ghost use Rattle.database.specs.Database.{database, fitting, reply, direct_call, direct_place};
ghost use Rattle.nucleus.specs.Nucleus.{nucleus, resulting};
ghost use Rattle.direct_calls.specs.DirectCalls.{packed_front, unpacked_front, on_words};
ghost use Rattle.direct_calls.specs.Kept.{kept_reply, kept_call};
ghost use Rattle.direct_calls.specs.Places.{place_on_words, kept_place};

use calls::Outcome;
use committed::Place;
use entries::Entry;
use kept_states::{ControlBlock, KeptState, Left};
use nucleus::{Call, MAX_CAPACITY, State};

// The entries that a call works on: the capacity, or none where that is more than a queue may have or than this one has. No call is served then.
#[tactic(auto, unfolding(database::specs::Database::fitting))]
fn fitting(capacity: usize, size: usize) -> usize
    ensures { result ≡ fitting capacity size }
{
    if MAX_CAPACITY < capacity || size < capacity {
        0
    } else {
        capacity
    }
}

// The first n entries, as words.
fn words_out(queue: &[Entry], words: &mut [u64], n: usize)
    requires { (n ≤ length queue.now) × (n ≤ length words.old) }
    ensures { words.new ≡ packed_front n queue.now words.old }
{
    for i in 0..n {
        words[i] = entries::pack(queue[i]);
    }
}

// The first n words, as entries.
fn words_in(queue: &mut [Entry], words: &[u64], n: usize)
    requires { (n ≤ length queue.old) × (n ≤ length words.now) }
    ensures { queue.new ≡ unpacked_front n words.now queue.old }
{
    for i in 0..n {
        queue[i] = entries::unpack(words[i]);
    }
}

// The call on the first n words.
fn on_words(
    state: State,
    n: usize,
    call: Call,
    store: &mut [u8],
    words: &mut [u64],
    images: &mut [u8],
    format: &[u8],
    buffer: &mut [u8],
) -> Outcome
    ensures { resulting result.answer (nucleus result.state store.new words.new images.new) buffer.new
        ≡ on_words n call format.now buffer.old (nucleus state store.old words.old images.old) }
{
    let end = n.min(words.len());
    calls::step(
        state,
        n,
        call,
        store,
        &mut words[..end],
        images,
        format,
        buffer,
    )
}

// One call, for any state, capacity, call and buffers.
pub fn direct_call(
    state: State,
    capacity: usize,
    call: Call,
    store: &mut [u8],
    queue: &mut [Entry],
    images: &mut [u8],
    format: &[u8],
    buffer: &mut [u8],
) -> Outcome
    ensures { reply result.answer (database result.state store.new queue.new images.new) buffer.new
        ≡ direct_call capacity call format.now buffer.old (database state store.old queue.old images.old) }
{
    let n = fitting(capacity, queue.len());
    let mut words = [0u64; MAX_CAPACITY];
    words_out(queue, &mut words, n);
    let r = on_words(state, n, call, store, &mut words, images, format, buffer);
    words_in(queue, &words, n);
    r
}

// The same for a state and a control block as a caller keeps them.
#[tactic(auto, unfolding(crate::specs::Kept::kept_call))]
pub fn kept_call(
    state: KeptState,
    capacity: usize,
    block: ControlBlock,
    store: &mut [u8],
    queue: &mut [Entry],
    images: &mut [u8],
    format: &[u8],
    buffer: &mut [u8],
) -> Left
    ensures { kept_reply result store.new queue.new images.new buffer.new
        ≡ kept_call capacity state block store.old queue.old images.old format.now buffer.old }
{
    let thawed = kept_states::thawed(state);
    let call = kept_states::call_of(block);
    let outcome = direct_call(thawed, capacity, call, store, queue, images, format, buffer);
    kept_states::left_by(state, block, outcome.answer, outcome.state)
}

// Where the record of a file and an ISN lies as ended transactions left it (document 02, No. 8), on the first n words.
fn place_on_words(
    state: State,
    n: usize,
    file: u8,
    isn: u16,
    store: &[u8],
    words: &[u64],
    images: &[u8],
) -> Place
    ensures { result ≡ place_on_words n state file isn store.now words.now images.now }
{
    let end = n.min(words.len());
    committed_places::committed_place(state, n, file, isn, store, &words[..end], images)
}

// Where the record lies, for any state, capacity and lent slices. It is no call, and changes nothing.
pub fn direct_place(
    state: State,
    capacity: usize,
    file: u8,
    isn: u16,
    store: &[u8],
    queue: &[Entry],
    images: &[u8],
) -> Place
    ensures { result ≡ direct_place capacity (database state store.now queue.now images.now) file isn }
{
    let n = fitting(capacity, queue.len());
    let mut words = [0u64; MAX_CAPACITY];
    words_out(queue, &mut words, n);
    place_on_words(state, n, file, isn, store, &words, images)
}

// The same for a state as a caller keeps it.
#[tactic(auto, unfolding(crate::specs::Places::kept_place))]
pub fn kept_place(
    state: KeptState,
    capacity: usize,
    file: u8,
    isn: u16,
    store: &[u8],
    queue: &[Entry],
    images: &[u8],
) -> Place
    ensures { result ≡ kept_place capacity state file isn store.now queue.now images.now }
{
    let thawed = kept_states::thawed(state);
    direct_place(thawed, capacity, file, isn, store, queue, images)
}
