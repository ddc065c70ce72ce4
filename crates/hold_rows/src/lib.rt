// The rows of a hold (document 01): who holds (145, and 20 of document 02, No. 1), is there room (47, 70).
#![tactic(auto)]

ghost use Rattle.std.specs.Prelude.{not, ◌&&◌, ◌||◌, [], ◌∷◌, ◌≡◌, eqb};
ghost use Rattle.entries.specs.Entries.{entries};
ghost use Rattle.queue.specs.Queue.{holder};
ghost use Rattle.nucleus.specs.Commands.{option_W};
ghost use Rattle.nucleus.specs.Target.{is_holder, other_holds};
ghost use Rattle.nucleus.specs.Rows.{first_cause};
ghost use Rattle.shares.specs.Shares.{verdict};
ghost use Rattle.shares.specs.Chains.{at_limit, row_waits, row_other, rows_room};

use entries::Entry;
use nucleus::{Call, Response, WAIT};
use shares::Share;

// Whether the entry that a lookup found is another user's.
pub fn other_holds(found: Option<(usize, Entry)>, user: u8) -> bool
    ensures { result ≡ other_holds user found }
{
    found.is_some_and(|(_, entry)| entry.user != user)
}

// Whether it is the user's.
fn is_holder(found: Option<(usize, Entry)>, user: u8) -> bool
    ensures { result ≡ is_holder user found }
{
    found.is_some_and(|(_, entry)| entry.user == user)
}

// Whether the caller has an entry of the ISN.
pub fn held_by_caller(call: Call, queue: &[u64], count: usize, isn: u16) -> bool
    ensures { result ≡ is_holder call.user (holder (entries queue.now count) call.file isn) }
{
    is_holder(queue::holder(queue, count, call.file, isn), call.user)
}

// Whether the user is at or past his hold limit.
fn at_limit(call: Call, share: Share, queue: &[u64]) -> bool
    ensures { result ≡ at_limit call share queue.now }
{
    usize::from(share.user.hold_limit) <= queue::held_by(queue, share.count, call.user)
}

// Whether a caller whom another keeps from an ISN waits for it: with option `W`, where he is in the line or may join it.
fn waits(call: Call, share: Share, queue: &[u64]) -> bool
    ensures { result ≡ (eqb call.option option_W && (share.waits || not (at_limit call share queue.now))) }
{
    call.option == WAIT && (share.waits || !at_limit(call, share, queue))
}

// HI's and L4's rows of an ISN that another holds: who waits for it, who does not.
pub fn others(call: Call, share: Share, queue: &[u64], isn: u16) -> Result<(), Response>
    ensures { result ≡ verdict (first_cause (row_waits call share queue.now isn ∷ row_other call share queue.now isn ∷ [])) }
{
    if !other_holds(queue::holder(queue, share.count, call.file, isn), call.user) {
        return Ok(());
    }
    if waits(call, share, queue) {
        return Err(Response::Waiting);
    }
    Err(Response::HeldByAnother)
}

// The rows of a new entry: the user at or past his hold limit, the queue with `most` entries. Who has an entry already needs none.
pub fn room(call: Call, share: Share, queue: &[u64], most: usize, isn: u16) -> Result<(), Response>
    ensures { result ≡ verdict (first_cause (rows_room call share queue.now most isn)) }
{
    if held_by_caller(call, queue, share.count, isn) {
        return Ok(());
    }
    if at_limit(call, share, queue) {
        return Err(Response::HoldLimit);
    }
    if most <= share.count {
        return Err(Response::QueueFull);
    }
    Ok(())
}
