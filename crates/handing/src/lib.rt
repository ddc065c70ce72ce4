// What is let go is handed over (document 02, No. 1: "the first in line gets the hold"), and the back-out that its user did not ask for.
#![tactic(auto)]

ghost use Rattle.std.specs.Prelude.{List, ◌≡◌, ℕ, ◌-◌, ◌<◌, length, get_or, set};
ghost use Rattle.layout.specs.Layout.{place, file_found};
ghost use Rattle.store.specs.Store.{has_record};
ghost use Rattle.entries.specs.Entries.{entries};
ghost use Rattle.nucleus.specs.Users.{fresh_user};
ghost use Rattle.nucleus.specs.Target.{part_in};
ghost use Rattle.nucleus.specs.Waiters.{taking, handed_on, handed};
ghost use Rattle.nucleus.specs.Clock.{forced_out};
ghost use Rattle.nucleus.specs.declared.EtData.{EtData};
ghost use Rattle.handing.specs.Parts.{nucleus_of};

use definition::Definition;
use entries::Entry;
use nucleus::{MAX_CAPACITY, MAX_USERS, User, WaitQueue};
use removal::Removal;

// The part of the state that a back-out and a hand-over may change.
#[derive(Clone, Copy, PartialEq, Eq)]
pub struct Standing {
    pub users: [User; MAX_USERS],
    // The entries in use in the hold queue.
    pub count: usize,
    pub wait_queue: WaitQueue,
}

// Where a user's number stands among the users; 0 reads as 1, as in the definitions.
fn place(number: u8) -> usize
    ensures { result ≡ number - 1 }
{
    usize::from(number.saturating_sub(1))
}

// The user of a number; one without a session where there is none.
pub fn user_at(users: [User; MAX_USERS], number: u8) -> User
    ensures { result ≡ get_or users (number - 1) fresh_user }
{
    match users.get(place(number)) {
        Some(user) => *user,
        None => sessions::fresh_user(),
    }
}

// The users with another value for one of them.
pub fn with_user(mut users: [User; MAX_USERS], number: u8, user: User) -> [User; MAX_USERS]
    ensures { result ≡ set users (number - 1) user }
{
    let to = place(number);
    if to < MAX_USERS {
        users[to] = user;
    }
    users
}

// Whether there is a record, in a store of any length.
pub fn record_there(d: Definition, file: u8, isn: u16, store: &[u8]) -> bool
    ensures { result ≡ has_record (file_found d (place d file)) (part_in d (place d file) store.now) isn }
{
    let Some(i) = layout::place(d, file) else {
        return false;
    };
    let f = definition::file_at(d, i);
    let start = layout::file_offset(d, i).min(store.len());
    let end = start + layout::file_size(f).min(store.len() - start);
    store::has_record(f, &store[start..end], isn)
}

// Gives the hold of a record to a user, who leaves the line; "A hold handed over opens a transaction then, where none is open".
#[tactic(auto, using(crate::specs::Laws::taken))]
fn take_hold(
    d: Definition,
    clock: u32,
    standing: Standing,
    user: u8,
    file: u8,
    isn: u16,
    store: &[u8],
    queue: &mut [u64],
) -> Standing
    requires { standing.count < length queue.old }
    ensures { (kept : List EtData) (assigned images : List ℕ)
        → taking user file isn (nucleus_of d clock standing kept assigned store.now queue.old images)
        ≡ nucleus_of d clock result kept assigned store.now queue.new images }
{
    let entry = Entry {
        user,
        file,
        isn,
        changed: false,
        existed: record_there(d, file, isn, store),
    };
    queue::append(queue, standing.count, entry);
    let before = user_at(standing.users, user);
    let holder = sessions::started(before, clock);
    let line = waiters::leave(standing.wait_queue, user);
    Standing {
        users: with_user(standing.users, user, holder),
        count: standing.count + 1,
        wait_queue: line,
    }
}

// Hands one record over, where somebody waits for it.
#[tactic(auto, using(crate::specs::Laws::nobody_gets, crate::specs::Laws::no_room))]
pub fn hand_on(
    d: Definition,
    clock: u32,
    standing: Standing,
    file: u8,
    isn: u16,
    store: &[u8],
    queue: &mut [u64],
) -> Standing
    ensures { (kept : List EtData) (assigned images : List ℕ)
        → handed_on file isn (nucleus_of d clock standing kept assigned store.now queue.old images)
        ≡ nucleus_of d clock result kept assigned store.now queue.new images }
{
    let Some((_, waiter)) = waiters::first_in_line(standing.wait_queue, file, isn) else {
        return standing;
    };
    if standing.count < queue.len() {
        return take_hold(d, clock, standing, waiter.user, file, isn, store, queue);
    }
    standing
}

// Hands over the records of the entries of the first n words, oldest first.
pub fn hand_over(
    d: Definition,
    clock: u32,
    standing: Standing,
    words: &[u64],
    n: usize,
    store: &[u8],
    queue: &mut [u64],
) -> Standing
    ensures { (kept : List EtData) (assigned images : List ℕ)
        → handed (entries words.now n) (nucleus_of d clock standing kept assigned store.now queue.old images)
        ≡ nucleus_of d clock result kept assigned store.now queue.new images }
{
    let last = n.min(words.len());
    let mut after = standing;
    for word in &words[..last] {
        if after.wait_queue.waiting == 0 {
            return after;
        }
        let e = entries::unpack(*word);
        after = hand_on(d, clock, after, e.file, e.isn, store, queue);
    }
    after
}

// Backs a user out who did not ask for it: he leaves the line too, and what his entries held is handed over.
pub fn force_out(
    d: Definition,
    clock: u32,
    standing: Standing,
    user: u8,
    store: &mut [u8],
    queue: &mut [u64],
    images: &mut [u8],
) -> Standing
    ensures { (kept : List EtData) (assigned : List ℕ)
        → forced_out user (nucleus_of d clock standing kept assigned store.old queue.old images.old)
        ≡ nucleus_of d clock result kept assigned store.new queue.new images.new }
{
    let mut words = [0u64; MAX_CAPACITY];
    let n = removal::pick_out(queue, standing.count, Removal::All { user }, &mut words);
    let width = layout::image_length(d);
    let count = release::back_out(d, width, user, store, queue, images, standing.count);
    let out = release::ended(user_at(standing.users, user));
    let left = Standing {
        users: with_user(standing.users, user, out),
        count,
        wait_queue: waiters::leave(standing.wait_queue, user),
    };
    hand_over(d, clock, left, &words, n, store, queue)
}
