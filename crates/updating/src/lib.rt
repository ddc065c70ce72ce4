// A1 replaces the named fields of a record (document 01). It needs the user's hold; option `H` takes it. Before the first change of an entry the
// record is kept as its image.
#![tactic(auto)]

ghost use Rattle.std.specs.Prelude.{◌≡◌};
ghost use Rattle.shares.specs.Chains.{replaced, a1_cause};
ghost use Rattle.shares.specs.Outcomes.{put_part, changed_done, changed_queue, changed_images};

use definition::File;
use nucleus::Call;
use shares::{Done, Share};

#[tactic(auto, using(update_rows::specs::Laws::a1_cause_is, update_rows::specs::Laws::amend_there, amendment::specs::Laws::amended_record), unfolding(shares::specs::Chains::replaced))]
pub fn a1(
    call: Call,
    most: usize,
    width: usize,
    clock: u32,
    share: Share,
    f: File,
    part: &mut [u8],
    queue: &mut [u64],
    images: &mut [u8],
    format: &[u8],
    buffer: &[u8],
) -> Done
    ensures value { result ≡ changed_done (a1_cause f part.old call share queue.old images.old width most format.now buffer.now) f part.old call.isn call share queue.old clock }
    ensures part_after { part.new ≡ put_part (a1_cause f part.old call share queue.old images.old width most format.now buffer.now) f part.old call.isn (replaced f part.old format.now buffer.now call.isn) }
    ensures queue_after { queue.new ≡ changed_queue (a1_cause f part.old call share queue.old images.old width most format.now buffer.now) f part.old call.isn call share queue.old clock }
    ensures images_after { images.new ≡ changed_images (a1_cause f part.old call share queue.old images.old width most format.now buffer.now) f part.old call.isn call share queue.old clock width images.old }
{
    if let Err(cause) = update_rows::amendable(
        call, most, width, share, f, part, queue, images, format, buffer,
    ) {
        return shares::refused(cause, share);
    }
    let held = keeping::keep_record(call, width, clock, share, f, part, queue, images, call.isn);
    amendment::amend(f, part, call.isn, format, buffer);
    shares::good(call.isn, 0, 0, held)
}
