// ET: a transaction ends, and its changes stay. PE, which may come before it: the transaction is ready, and waits for ET or BT.
#![tactic(auto)]

ghost use Rattle.std.specs.Prelude.{◌+◌, ◌≤◌, min, ◌≡◌, eqb, length};
ghost use Rattle.std.proofs.lemmas.List.Edits.{sets};
ghost use Rattle.lists.specs.Tests.{cond};
ghost use Rattle.nucleus.specs.Users.{max_sequence, counted, made_ready};
ghost use Rattle.nucleus.specs.Nucleus.{max_et_data};
ghost use Rattle.shares.specs.Outcomes.{et_done, et_queue, et_images, pe_done};

use nucleus::{Call, EtData, MAX_ET_DATA, MAX_SEQUENCE, Response, User};
use removal::Removal;
use shares::{Done, Share};

// The sequence after one more ET: "it stops at 4294967295".
fn next_sequence(sequence: u32) -> u32
    ensures { result ≡ min (sequence + 1) max_sequence }
{
    if sequence == MAX_SEQUENCE {
        return sequence;
    }
    sequence + 1
}

fn counted(mut user: User, sequence: u32) -> User
    ensures { result ≡ counted sequence user }
{
    user.sequence = sequence;
    user
}

// The data that a record buffer brings; an empty one leaves the old data.
fn data_brought(held: EtData, buffer: &[u8]) -> EtData
    requires { length buffer.now ≤ max_et_data }
    ensures { result ≡ cond (eqb (length buffer.now) 0) held (record { length = length buffer.now; bytes = sets held.bytes 0 buffer.now }) }
{
    let n = buffer.len();
    if n == 0 {
        return held;
    }
    let mut bytes = held.bytes;
    bytes[..n].copy_from_slice(buffer);
    EtData {
        length: n as u8,
        bytes,
    }
}

// ET: the caller's entries go, and the changes stay.
pub fn et(
    call: Call,
    share: Share,
    queue: &mut [u64],
    images: &mut [u8],
    width: usize,
    buffer: &[u8],
) -> Done
    ensures value { result ≡ et_done call share queue.old images.old width buffer.now }
    ensures queue_after { queue.new ≡ et_queue call share queue.old images.old width buffer.now }
    ensures images_after { images.new ≡ et_images call share queue.old images.old width buffer.now }
{
    if MAX_ET_DATA < buffer.len() {
        return shares::refused(Response::RecordLength, share);
    }
    let which = Removal::All { user: call.user };
    let count = release::let_go(share.count, queue, images, width, which);
    let gone = share.count - count;
    let sequence = next_sequence(share.user.sequence);
    let after = Share {
        user: release::ended(counted(share.user, sequence)),
        et_data: data_brought(share.et_data, buffer),
        count,
        ..share
    };
    shares::good(0, gone, sequence, after)
}

fn made_ready(mut user: User) -> User
    ensures { result ≡ made_ready user }
{
    user.transaction.ready = true;
    user
}

// PE: the caller's transaction, which is open, is ready.
pub fn pe(mut share: Share) -> Done
    ensures { result ≡ pe_done share }
{
    share.user = made_ready(share.user);
    shares::good(0, 0, 0, share)
}
