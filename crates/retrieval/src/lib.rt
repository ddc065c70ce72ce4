// L1 reads; L4 holds and reads (document 01). What is read comes as a part of the store, or with option `C` of L1 (document 02, No. 8) of the image
// buffer where an open transaction changed it.
#![tactic(auto)]

ghost use Rattle.std.specs.Prelude.{◌≡◌, ◌∷◌, ◌≤◌, length};
ghost use Rattle.elements.specs.Elements.{length_needed};
ghost use Rattle.fields.specs.Fields.{read_fields};
ghost use Rattle.records.specs.Records.{record_length};
ghost use Rattle.nucleus.specs.Rows.{first_cause};
ghost use Rattle.shares.specs.Shares.{verdict};
ghost use Rattle.shares.specs.Chains.{sought, row_waits, row_other, row_there, rows_room, version_at};
ghost use Rattle.shares.specs.Outcomes.{l1_done, l1_buffer, l4_done, l4_queue, l4_buffer};
ghost use Rattle.retrieval.specs.Retrieval.{read_target};

use committed::Version;
use definition::File;
use nucleus::{AT_OR_ABOVE, COMMITTED, Call, Response};
use shares::{Done, Share};

// The ISN to read: the given one, or with option `I` the lowest at or above it that has a record.
#[tactic(auto, unfolding(shares::specs::Chains::sought))]
fn sought(call: Call, f: File, part: &[u8]) -> Option<u16>
    ensures { result ≡ sought call f part.now }
{
    if call.option == AT_OR_ABOVE {
        search::lowest(f, part, call.isn)
    } else {
        Some(call.isn)
    }
}

// 41, 53 and 3, and the ISN to read.
#[tactic(auto, unfolding(crate::specs::Retrieval::read_target))]
fn read_target(
    call: Call,
    f: File,
    part: &[u8],
    format: &[u8],
    buffer: &[u8],
) -> Result<u16, Response>
    ensures { result ≡ read_target call f part.now format.now buffer.now }
{
    formats::readable(f, format, buffer)?;
    sought(call, f, part).ok_or(Response::NotFound)
}

// Writes the named fields of a record at the front of the record buffer and answers how many bytes those are.
#[tactic(auto, unfolding(fields::specs::Fields::fits))]
fn read(f: File, content: &[u8], format: &[u8], buffer: &mut [u8]) -> usize
    requires f_in_bounds { record_length f ≤ length content.now }
    requires format_in_bounds { length_needed f format.now ≤ length buffer.old }
    ensures value { result ≡ length_needed f format.now }
    ensures buffer_after { buffer.new ≡ read_fields f format.now content.now buffer.old }
{
    fields::read_fields(f, format, content, buffer)
}

// The version of a record that L1 reads: the store's, or with option `C` the one that ended transactions left.
#[tactic(auto, unfolding(shares::specs::Chains::version_at))]
fn version_at(call: Call, share: Share, queue: &[u64], isn: u16) -> Version
    ensures { result ≡ version_at call share queue.now isn }
{
    if call.option == COMMITTED {
        committed::committed_version(queue, share.count, call.file, isn)
    } else {
        Version::Stored
    }
}

// L1 looks at no hold, but for the images of changed entries with option `C`.
#[tactic(auto, using(crate::proofs::Causes::l1_refused, crate::specs::Laws::target_room, committed::specs::Laws::version_length), unfolding(shares::specs::Outcomes::version_buffer))]
pub fn l1<'a>(
    call: Call,
    share: Share,
    width: usize,
    f: File,
    part: &'a [u8],
    queue: &[u64],
    images: &'a [u8],
    format: &[u8],
    buffer: &mut [u8],
) -> Done
    ensures value { result ≡ l1_done call share f part.now format.now buffer.old queue.now images.now width }
    ensures buffer_after { buffer.new ≡ l1_buffer call share f part.now format.now buffer.old queue.now images.now width }
{
    let isn = match read_target(call, f, part, format, buffer) {
        Ok(isn) => isn,
        Err(cause) => return shares::refused(cause, share),
    };
    let version = version_at(call, share, queue, isn);
    if !committed::version_there(f, part, images, width, version, isn) {
        return shares::refused(Response::Presence, share);
    }
    let content = committed::version_part(f, part, images, width, version, isn);
    let quantity = read(f, content, format, buffer);
    shares::good(isn, quantity, 0, share)
}

// L4's rows of an ISN that it has: 20, 145, 113, 47 and 70.
fn holdable(
    call: Call,
    most: usize,
    share: Share,
    f: File,
    part: &[u8],
    queue: &[u64],
    isn: u16,
) -> Result<(), Response>
    ensures { result ≡ verdict (first_cause (row_waits call share queue.now isn ∷ row_other call share queue.now isn ∷ row_there f part.now isn ∷ rows_room call share queue.now most isn)) }
{
    hold_rows::others(call, share, queue, isn)?;
    if !store::has_record(f, part, isn) {
        return Err(Response::Presence);
    }
    hold_rows::room(call, share, queue, most, isn)
}

// L4 holds the ISN and reads.
#[tactic(auto, using(crate::proofs::Causes::l4_refused, crate::proofs::Causes::l4_left, crate::proofs::Causes::held_there, crate::specs::Laws::target_sought, crate::specs::Laws::target_room, store::proofs::Laws::shown_length), unfolding(shares::specs::Outcomes::read_buffer))]
pub fn l4(
    call: Call,
    most: usize,
    clock: u32,
    share: Share,
    f: File,
    part: &[u8],
    queue: &mut [u64],
    format: &[u8],
    buffer: &mut [u8],
) -> Done
    ensures value { result ≡ l4_done call share f part.now format.now buffer.old queue.old most clock }
    ensures queue_after { queue.new ≡ l4_queue call share f part.now format.now buffer.old queue.old most }
    ensures buffer_after { buffer.new ≡ l4_buffer call share f part.now format.now buffer.old queue.old most }
{
    let isn = match read_target(call, f, part, format, buffer) {
        Ok(isn) => isn,
        Err(cause) => return shares::refused(cause, share),
    };
    if let Err(cause) = holdable(call, most, share, f, part, queue, isn) {
        return shares::refused(cause, share);
    }
    // A record is there.
    let held = holding::hold(call, clock, share, queue, isn, true);
    let content = store::record_part(f, part, isn);
    let quantity = read(f, content, format, buffer);
    shares::good(isn, quantity, 0, held)
}
