// E1 empties an ISN (document 01). It needs the user's hold; option `H` takes it. Before the first change of an entry the record is kept as its
// image.
#![tactic(auto)]

ghost use Rattle.std.specs.Prelude.{◌≡◌};
ghost use Rattle.shares.specs.Chains.{e1_cause};
ghost use Rattle.shares.specs.Outcomes.{erased_part, changed_done, changed_queue, changed_images};

use definition::File;
use nucleus::Call;
use shares::{Done, Share};

#[tactic(auto, using(change_rows::specs::Laws::e1_cause_is))]
pub fn e1(
    call: Call,
    most: usize,
    width: usize,
    clock: u32,
    share: Share,
    f: File,
    part: &mut [u8],
    queue: &mut [u64],
    images: &mut [u8],
) -> Done
    ensures value { result ≡ changed_done (e1_cause call share queue.old f part.old most) f part.old call.isn call share queue.old clock }
    ensures part_after { part.new ≡ erased_part (e1_cause call share queue.old f part.old most) f part.old call.isn }
    ensures queue_after { queue.new ≡ changed_queue (e1_cause call share queue.old f part.old most) f part.old call.isn call share queue.old clock }
    ensures images_after { images.new ≡ changed_images (e1_cause call share queue.old f part.old most) f part.old call.isn call share queue.old clock width images.old }
{
    if let Err(cause) = change_rows::changeable(call, most, share, f, part, queue) {
        return shares::refused(cause, share);
    }
    let held = keeping::keep_record(call, width, clock, share, f, part, queue, images, call.isn);
    store::empty(f, part, call.isn);
    shares::good(call.isn, 0, 0, held)
}
