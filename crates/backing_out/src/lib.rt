// BT: a transaction is backed out.
#![tactic(auto)]

ghost use Rattle.std.specs.Prelude.{◌≡◌};
ghost use Rattle.removal.specs.declared.Removal.TheVariants.{All};
ghost use Rattle.hold.specs.Hold.{restore};
ghost use Rattle.shares.specs.Chains.{left_queue, left_images};
ghost use Rattle.shares.specs.Outcomes.{bt_done};

use definition::Definition;
use nucleus::Call;
use shares::{Done, Share};

// BT: the caller is backed out.
#[tactic(auto, using(removal::specs::Laws::remove_count_most))]
pub fn bt(
    call: Call,
    d: Definition,
    width: usize,
    mut share: Share,
    store: &mut [u8],
    queue: &mut [u64],
    images: &mut [u8],
) -> Done
    ensures value { result ≡ bt_done call share queue.old images.old width }
    ensures store_after { store.new ≡ restore d width call.user queue.old images.old share.count store.old }
    ensures queue_after { queue.new ≡ left_queue share queue.old images.old width (All call.user) }
    ensures images_after { images.new ≡ left_images share queue.old images.old width (All call.user) }
{
    let count = release::back_out(d, width, call.user, store, queue, images, share.count);
    let gone = share.count - count;
    share.user = release::ended(share.user);
    share.count = count;
    shares::good(0, gone, 0, share)
}
