// Whether the line of those who wait is well made (document 02, No. 1: "a waiter has a session and another holds his record").
#![tactic(auto)]

ghost use Rattle.std.specs.Prelude.{◌≡◌};
ghost use Rattle.lists.specs.Folds.{all};
ghost use Rattle.entries.specs.Entries.{entries};
ghost use Rattle.waiters_made.specs.Waiting.{waits_well, waiter_fits, waiters_fit};

use entries::Entry;
use nucleus::{MAX_USERS, User, WaitQueue};

// A waiter has one place, and another holds his record.
fn waits_well(w: Entry, places: &[u64], waiting: usize, queue: &[u64], count: usize) -> bool
    ensures { result ≡ waits_well (entries places.now waiting) (entries queue.now count) w }
{
    queue::held_by(places, waiting, w.user) == 1
        && hold_rows::other_holds(queue::holder(queue, count, w.file, w.isn), w.user)
}

// Users are looked at in their places: a call that took them would copy them all at each waiter.
fn waiters_fit(
    places: &[u64],
    waiting: usize,
    queue: &[u64],
    count: usize,
    users: [User; MAX_USERS],
) -> bool
    ensures { result ≡ all (waiter_fits users (entries places.now waiting) (entries queue.now count)) (entries places.now waiting) }
{
    let n = waiting.min(places.len());
    for word in &places[..n] {
        let w = entries::unpack(*word);
        let user = usize::from(w.user);
        if user < 1 {
            return false;
        }
        if MAX_USERS < user {
            return false;
        }
        if !users[user - 1].session {
            return false;
        }
        if !waits_well(w, places, waiting, queue, count) {
            return false;
        }
    }
    true
}

// No more wait than there are places, and each of them as he may.
pub fn waiters_made(users: [User; MAX_USERS], line: WaitQueue, queue: &[u64], count: usize) -> bool
    ensures { result ≡ waiters_fit users line (entries queue.now count) }
{
    line.waiting <= MAX_USERS && waiters_fit(&line.places, line.waiting, queue, count, users)
}
