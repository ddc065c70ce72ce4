// N1 and N2 add a record (document 01): N2 at the given ISN, N1 at one that it finds. The record is made in a place of its own, judged there,
// and then put into the store.
#![tactic(auto)]

ghost use Rattle.std.specs.Prelude.{◌≡◌, ◌≤◌};
ghost use Rattle.records.specs.Records.{record_length};
ghost use Rattle.nucleus.specs.Responses.{good};
ghost use Rattle.nucleus.specs.Target.{isn_in};
ghost use Rattle.shares.specs.Shares.{share_with_assigned, done, done_unless};
ghost use Rattle.shares.specs.Chains.{held_share, added, n1_cause, n2_cause, free_isn};
ghost use Rattle.shares.specs.Outcomes.{put_part, changed_done, assigned_done, changed_queue, changed_images};
ghost use Rattle.adding.specs.Adding.{last_cause};

use definition::{File, MAX_RECORD_LENGTH};
use nucleus::{Call, Response};
use shares::{Done, Share};

// Adds a record at an ISN, with the caller's entry there and the image of what was there, after the rows 47, 70 and 198. `assigned` is the ISN
// that N1 gave last from then on.
#[tactic(auto, using(new_records::specs::Laws::new_length_most))]
fn add_at(
    call: Call,
    most: usize,
    width: usize,
    clock: u32,
    share: Share,
    f: File,
    part: &mut [u8],
    queue: &mut [u64],
    images: &mut [u8],
    format: &[u8],
    buffer: &[u8],
    isn: u16,
    assigned: u16,
) -> Done
    requires { record_length f ≤ 512 }
    ensures value { result ≡ done_unless (last_cause f part.old call share queue.old images.old width most format.now buffer.now isn) share (done (good isn 0 0) (share_with_assigned assigned (held_share call share queue.old clock isn))) }
    ensures part_after { part.new ≡ put_part (last_cause f part.old call share queue.old images.old width most format.now buffer.now isn) f part.old isn (added f part.old format.now buffer.now isn) }
    ensures queue_after { queue.new ≡ changed_queue (last_cause f part.old call share queue.old images.old width most format.now buffer.now isn) f part.old isn call share queue.old clock }
    ensures images_after { images.new ≡ changed_images (last_cause f part.old call share queue.old images.old width most format.now buffer.now isn) f part.old isn call share queue.old clock width images.old }
{
    if let Err(cause) = hold_rows::room(call, share, queue, most, isn) {
        return shares::refused(cause, share);
    }
    let mut scratch = [0u8; MAX_RECORD_LENGTH];
    let n = new_records::new_record(f, part, isn, format, buffer, &mut scratch);
    let made = &scratch[..n];
    if uniqueness::taken(
        call, share, queue, images, width, f, part, false, format, isn, made,
    ) {
        return shares::refused(Response::ValueTaken, share);
    }
    let mut held = keeping::keep_record(call, width, clock, share, f, part, queue, images, isn);
    store::put_record(f, part, isn, made);
    held.last_assigned = assigned;
    shares::good(isn, 0, 0, held)
}

// N1: a record at an ISN that it finds, and keeps as the one that it last gave.
#[tactic(auto, using(crate::specs::Laws::record_small, crate::specs::Laws::n1_full, crate::specs::Laws::n1_ends))]
pub fn n1(
    call: Call,
    most: usize,
    width: usize,
    clock: u32,
    share: Share,
    f: File,
    part: &mut [u8],
    queue: &mut [u64],
    images: &mut [u8],
    format: &[u8],
    buffer: &[u8],
) -> Done
    ensures value { result ≡ assigned_done (n1_cause f part.old call share queue.old images.old width most format.now buffer.now (free_isn f part.old call share queue.old)) f part.old (isn_in (free_isn f part.old call share queue.old)) call share queue.old clock }
    ensures part_after { part.new ≡ put_part (n1_cause f part.old call share queue.old images.old width most format.now buffer.now (free_isn f part.old call share queue.old)) f part.old (isn_in (free_isn f part.old call share queue.old)) (added f part.old format.now buffer.now (isn_in (free_isn f part.old call share queue.old))) }
    ensures queue_after { queue.new ≡ changed_queue (n1_cause f part.old call share queue.old images.old width most format.now buffer.now (free_isn f part.old call share queue.old)) f part.old (isn_in (free_isn f part.old call share queue.old)) call share queue.old clock }
    ensures images_after { images.new ≡ changed_images (n1_cause f part.old call share queue.old images.old width most format.now buffer.now (free_isn f part.old call share queue.old)) f part.old (isn_in (free_isn f part.old call share queue.old)) call share queue.old clock width images.old }
{
    if let Err(cause) = formats::storable(f, format, buffer) {
        return shares::refused(cause, share);
    }
    let Some(isn) = assignment::free_isn(call, share, queue, f, part) else {
        return shares::refused(Response::FileFull, share);
    };
    add_at(
        call, most, width, clock, share, f, part, queue, images, format, buffer, isn, isn,
    )
}

// N2: a record at the given ISN.
#[tactic(auto, using(crate::specs::Laws::record_small, crate::specs::Laws::n2_other, crate::specs::Laws::n2_there, crate::specs::Laws::n2_ends, crate::specs::Laws::assigned_kept))]
pub fn n2(
    call: Call,
    most: usize,
    width: usize,
    clock: u32,
    share: Share,
    f: File,
    part: &mut [u8],
    queue: &mut [u64],
    images: &mut [u8],
    format: &[u8],
    buffer: &[u8],
) -> Done
    ensures value { result ≡ changed_done (n2_cause f part.old call share queue.old images.old width most format.now buffer.now) f part.old call.isn call share queue.old clock }
    ensures part_after { part.new ≡ put_part (n2_cause f part.old call share queue.old images.old width most format.now buffer.now) f part.old call.isn (added f part.old format.now buffer.now call.isn) }
    ensures queue_after { queue.new ≡ changed_queue (n2_cause f part.old call share queue.old images.old width most format.now buffer.now) f part.old call.isn call share queue.old clock }
    ensures images_after { images.new ≡ changed_images (n2_cause f part.old call share queue.old images.old width most format.now buffer.now) f part.old call.isn call share queue.old clock width images.old }
{
    if let Err(cause) = formats::storable(f, format, buffer) {
        return shares::refused(cause, share);
    }
    let found = queue::holder(queue, share.count, call.file, call.isn);
    if hold_rows::other_holds(found, call.user) {
        return shares::refused(Response::HeldByAnother, share);
    }
    if store::has_record(f, part, call.isn) {
        return shares::refused(Response::Presence, share);
    }
    add_at(
        call,
        most,
        width,
        clock,
        share,
        f,
        part,
        queue,
        images,
        format,
        buffer,
        call.isn,
        share.last_assigned,
    )
}
