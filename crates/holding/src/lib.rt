// Hold: the entry and the transaction's start; HI (document 01).
#![tactic(auto)]

ghost use Rattle.std.specs.Prelude.{◌+◌, ◌≡◌, ltb};
ghost use Rattle.lists.specs.Tests.{cond};
ghost use Rattle.shares.specs.Outcomes.{hi_done, hi_queue};
ghost use Rattle.shares.specs.Chains.{held_share, held_queue};

use definition::File;
use entries::Entry;
use nucleus::Call;
use shares::{Done, Share};

// One more entry, where the queue has a place for it.
fn next_count(count: usize, places: usize) -> usize
    ensures { result ≡ cond (ltb count places) (count + 1) count }
{
    if count < places { count + 1 } else { count }
}

// Holds an ISN: a new entry, unless the caller has one, and the start of his transaction, unless he is in one.
#[tactic(auto, unfolding(shares::specs::Chains::held_share, shares::specs::Chains::held_queue))]
pub fn hold(
    call: Call,
    clock: u32,
    share: Share,
    queue: &mut [u64],
    isn: u16,
    existed: bool,
) -> Share
    ensures value { result ≡ held_share call share queue.old clock isn }
    ensures queue_after { queue.new ≡ held_queue call share queue.old isn existed }
{
    if hold_rows::held_by_caller(call, queue, share.count, isn) {
        return share;
    }
    let entry = Entry {
        user: call.user,
        file: call.file,
        isn,
        changed: false,
        existed,
    };
    let count = next_count(share.count, queue.len());
    queue::append(queue, share.count, entry);
    Share {
        user: sessions::started(share.user, clock),
        count,
        ..share
    }
}

// HI.
#[tactic(auto, unfolding(shares::specs::Chains::hi_cause))]
pub fn hi(
    call: Call,
    most: usize,
    clock: u32,
    share: Share,
    f: File,
    part: &[u8],
    queue: &mut [u64],
) -> Done
    ensures value { result ≡ hi_done call share queue.old most clock }
    ensures queue_after { queue.new ≡ hi_queue call share queue.old most f part.now }
{
    if let Err(cause) = hold_rows::others(call, share, queue, call.isn) {
        return shares::refused(cause, share);
    }
    if let Err(cause) = hold_rows::room(call, share, queue, most, call.isn) {
        return shares::refused(cause, share);
    }
    let existed = store::has_record(f, part, call.isn);
    let held = hold(call, clock, share, queue, call.isn, existed);
    shares::good(call.isn, 0, 0, held)
}
