// RI: entries that are not changed go out of hold.
#![tactic(auto)]

ghost use Rattle.std.specs.Prelude.{◌≡◌};
ghost use Rattle.nucleus.specs.Responses.{good};
ghost use Rattle.shares.specs.Shares.{share_with_count, done};
ghost use Rattle.shares.specs.Chains.{left_count, left_queue, left_images, gone};
ghost use Rattle.shares.specs.Outcomes.{ri_done, ri_queue, ri_images};

use nucleus::{Call, Response};
use removal::Removal;
use shares::{Done, Share};

// Drops entries; answers how many went.
#[tactic(auto, using(removal::specs::Laws::remove_count_most))]
fn dropped(
    isn: u16,
    share: Share,
    queue: &mut [u64],
    images: &mut [u8],
    width: usize,
    which: Removal,
) -> Done
    ensures value { result ≡ done (good isn (gone share queue.old images.old width which) 0) (share_with_count (left_count share queue.old images.old width which) share) }
    ensures queue_after { queue.new ≡ left_queue share queue.old images.old width which }
    ensures images_after { images.new ≡ left_images share queue.old images.old width which }
{
    let left = release::let_go(share.count, queue, images, width, which);
    let gone = share.count - left;
    let kept = Share {
        count: left,
        ..share
    };
    shares::good(isn, gone, 0, kept)
}

// RI: the caller's unchanged entry, or for ISN 0 all of his unchanged ones.
#[tactic(auto, unfolding(shares::specs::Chains::ri_cause))]
pub fn ri(call: Call, share: Share, queue: &mut [u64], images: &mut [u8], width: usize) -> Done
    ensures value { result ≡ ri_done call share queue.old images.old width }
    ensures queue_after { queue.new ≡ ri_queue call share queue.old images.old width }
    ensures images_after { images.new ≡ ri_images call share queue.old images.old width }
{
    if call.isn == 0 {
        let which = Removal::Unchanged { user: call.user };
        return dropped(call.isn, share, queue, images, width, which);
    }
    let Some((_, entry)) = queue::holder(queue, share.count, call.file, call.isn) else {
        return shares::refused(Response::NotHeld, share);
    };
    if entry.user != call.user {
        return shares::refused(Response::NotHeld, share);
    }
    if entry.changed {
        return shares::refused(Response::AlreadyChanged, share);
    }
    let which = Removal::One {
        file: call.file,
        isn: call.isn,
    };
    dropped(call.isn, share, queue, images, width, which)
}
