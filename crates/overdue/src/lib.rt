// The clock (document 01, 'One call'): "each user, rising, whose transaction began more than his time limit ago is backed out and marked overdue".
// Document 02, No. 1: what each lets go is handed over before the next user's time is looked at.
#![tactic(auto)]

ghost use Rattle.std.specs.Prelude.{true, ◌≡◌, List, ℕ};
ghost use Rattle.nucleus.specs.Users.{with_overdue};
ghost use Rattle.nucleus.specs.Nucleus.{max_users, change_user};
ghost use Rattle.nucleus.specs.Clock.{forced_out, timed_out_from};
ghost use Rattle.nucleus.specs.declared.EtData.{EtData};
ghost use Rattle.handing.specs.Parts.{nucleus_of};

use definition::Definition;
use handing::Standing;
use nucleus::MAX_USERS;

// Backs out and marks a user whose time has passed. He is read again after the hand-over, for he is not what he was.
fn time_out(
    d: Definition,
    clock: u32,
    standing: Standing,
    user: u8,
    store: &mut [u8],
    queue: &mut [u64],
    images: &mut [u8],
) -> Standing
    ensures { (kept : List EtData) (assigned : List ℕ)
        → change_user user (with_overdue true) (forced_out user (nucleus_of d clock standing kept assigned store.old queue.old images.old))
        ≡ nucleus_of d clock result kept assigned store.new queue.new images.new }
{
    let mut left = handing::force_out(d, clock, standing, user, store, queue, images);
    let people = left.users;
    let marked = sessions::with_overdue(handing::user_at(people, user), true);
    left.users = handing::with_user(people, user, marked);
    left
}

// Backs out who is overdue at a clock, whatever else the state keeps. The definition is handed on only for a user who is.
pub fn pass(
    d: Definition,
    clock: u32,
    standing: Standing,
    store: &mut [u8],
    queue: &mut [u64],
    images: &mut [u8],
) -> Standing
    ensures { (kept : List EtData) (assigned : List ℕ)
        → timed_out_from max_users 1 (nucleus_of d clock standing kept assigned store.old queue.old images.old)
        ≡ nucleus_of d clock result kept assigned store.new queue.new images.new }
{
    let mut after = standing;
    for at in 0..MAX_USERS {
        if !sessions::is_due(after.users[at], clock) {
            continue;
        }
        after = time_out(d, clock, after, at as u8 + 1, store, queue, images);
    }
    after
}
