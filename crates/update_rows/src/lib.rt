// A1's rows (document 01): those of a record that is to be made, those of a change, and 198, with the record that it makes judged before it is in
// the store.
#![tactic(auto)]

ghost use Rattle.std.specs.Prelude.{◌≡◌, true, ◌≤◌, length};
ghost use Rattle.records.specs.Records.{record_length};
ghost use Rattle.fields.specs.Fields.{write_fields};
ghost use Rattle.store.specs.Store.{has_record};
ghost use Rattle.nucleus.specs.Rows.{first_cause};
ghost use Rattle.shares.specs.Shares.{verdict};
ghost use Rattle.shares.specs.Chains.{replaced, taken};
ghost use Rattle.update_rows.specs.UpdateRows.{rows_amended};

use definition::{File, MAX_RECORD_LENGTH};
use nucleus::{Call, Response};
use shares::Share;

// Makes a record over a copy of the old one, with the named fields replaced.
#[tactic(auto, using(slices::specs::Laws::copied_whole))]
fn replace(f: File, old: &[u8], format: &[u8], buffer: &[u8], content: &mut [u8])
    requires { length content.old ≡ length old.now }
    ensures { content.new ≡ write_fields f format.now buffer.now old.now }
{
    slices::copy(old, content);
    fields::write_fields(f, format, buffer, content);
}

// Whether a unique value of the record that A1 makes, in stored form at the front of `scratch`, is taken.
#[tactic(auto, using(store::proofs::Laws::shown_length))]
fn taken_in(
    call: Call,
    width: usize,
    share: Share,
    f: File,
    part: &[u8],
    queue: &[u64],
    images: &[u8],
    format: &[u8],
    buffer: &[u8],
    scratch: &mut [u8],
) -> bool
    requires f_in_bounds { record_length f ≤ length scratch.old }
    requires isn_value { has_record f part.now call.isn ≡ true }
    ensures { result ≡ taken f part.now call share queue.now images.now width true format.now call.isn (replaced f part.now format.now buffer.now call.isn) }
{
    let old = store::record_part(f, part, call.isn);
    let n = old.len();
    replace(f, old, format, buffer, &mut scratch[..n]);
    let content = &scratch[..n];
    uniqueness::taken(
        call, share, queue, images, width, f, part, true, format, call.isn, content,
    )
}

// 198, judged on the record before it is in the store.
fn value_taken(
    call: Call,
    width: usize,
    share: Share,
    f: File,
    part: &[u8],
    queue: &[u64],
    images: &[u8],
    format: &[u8],
    buffer: &[u8],
) -> bool
    requires f_bound { record_length f ≤ 512 }
    requires isn_value { has_record f part.now call.isn ≡ true }
    ensures { result ≡ taken f part.now call share queue.now images.now width true format.now call.isn (replaced f part.now format.now buffer.now call.isn) }
{
    let mut scratch = [0u8; MAX_RECORD_LENGTH];
    taken_in(
        call,
        width,
        share,
        f,
        part,
        queue,
        images,
        format,
        buffer,
        &mut scratch,
    )
}

#[tactic(auto, using(change_rows::specs::Laws::change_there))]
pub fn amendable(
    call: Call,
    most: usize,
    width: usize,
    share: Share,
    f: File,
    part: &[u8],
    queue: &[u64],
    images: &[u8],
    format: &[u8],
    buffer: &[u8],
) -> Result<(), Response>
    ensures { result ≡ verdict (first_cause (rows_amended f part.now call share queue.now most images.now width format.now buffer.now)) }
{
    formats::storable(f, format, buffer)?;
    change_rows::changeable(call, most, share, f, part, queue)?;
    if value_taken(call, width, share, f, part, queue, images, format, buffer) {
        return Err(Response::ValueTaken);
    }
    Ok(())
}
