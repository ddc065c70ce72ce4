// The image of a change (document 01): whoever changes an ISN holds it, and before the first change of his entry the record there is kept as its
// image.
#![tactic(auto)]

ghost use Rattle.std.specs.Prelude.{◌≡◌};
ghost use Rattle.store.specs.Store.{has_record, record_of};
ghost use Rattle.shares.specs.Chains.{held_share, imaged_queue, imaged_images};

use definition::File;
use nucleus::Call;
use shares::Share;

// Holds an ISN, and keeps the content as the image of its entry at the entry's first change, if a record existed.
#[tactic(auto, unfolding(shares::specs::Chains::imaged_queue, shares::specs::Chains::imaged_images))]
fn keep(
    call: Call,
    clock: u32,
    share: Share,
    queue: &mut [u64],
    images: &mut [u8],
    width: usize,
    isn: u16,
    existed: bool,
    content: &[u8],
) -> Share
    ensures value { result ≡ held_share call share queue.old clock isn }
    ensures queue_after { queue.new ≡ imaged_queue call share queue.old clock isn existed }
    ensures images_after { images.new ≡ imaged_images call share queue.old clock isn existed width content.now images.old }
{
    let held = holding::hold(call, clock, share, queue, isn, existed);
    if let Some((at, _)) = queue::holder(queue, held.count, call.file, isn) {
        changes::first_change(queue, images, width, at, existed, content);
    }
    held
}

// Holds an ISN, and keeps the record there, if there is one, as the image of its entry at the entry's first change.
#[tactic(auto, using(crate::specs::Laws::image_shown))]
pub fn keep_record(
    call: Call,
    width: usize,
    clock: u32,
    share: Share,
    f: File,
    part: &[u8],
    queue: &mut [u64],
    images: &mut [u8],
    isn: u16,
) -> Share
    ensures value { result ≡ held_share call share queue.old clock isn }
    ensures queue_after { queue.new ≡ imaged_queue call share queue.old clock isn (has_record f part.now isn) }
    ensures images_after { images.new ≡ imaged_images call share queue.old clock isn (has_record f part.now isn) width (record_of f part.now isn) images.old }
{
    let existed = store::has_record(f, part, isn);
    let old = store::record_part(f, part, isn);
    keep(call, clock, share, queue, images, width, isn, existed, old)
}
