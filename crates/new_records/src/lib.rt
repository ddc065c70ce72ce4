// The record that N1 or N2 adds, made in a place of its own before it is judged (document 01): "unnamed fields are null".
#![tactic(auto)]

ghost use Rattle.std.specs.Prelude.{◌≡◌, length};
ghost use Rattle.fields.specs.Fields.{write_fields};
ghost use Rattle.nulls.specs.Nulls.{null_record};
ghost use Rattle.store.specs.Store.{record_of};
ghost use Rattle.new_records.specs.NewRecords.{new_length, with_new};

use definition::File;

// What lies behind the first byte of an ISN's slot, as much of it as the part has.
#[tactic(auto, using(lists::specs::Parts::part_least))]
fn slot_bytes(f: File, part: &[u8], isn: u16) -> &[u8]
    ensures { result.now ≡ record_of f part.now isn }
{
    let start = (records::slot_offset(f, isn) + 1).min(part.len());
    let end = start + records::record_length(f).min(part.len() - start);
    &part[start..end]
}

// Makes a record over a copy of the old bytes: null but for the named fields.
#[tactic(auto, using(slices::specs::Laws::copied_whole))]
fn make(f: File, old: &[u8], format: &[u8], buffer: &[u8], content: &mut [u8])
    requires { length content.old ≡ length old.now }
    ensures { content.new ≡ write_fields f format.now buffer.now (null_record f old.now) }
{
    slices::copy(old, content);
    nulls::put_nulls(f, content);
    fields::write_fields(f, format, buffer, content);
}

// Makes the record to be added at an ISN at the front of `scratch`, and answers how many bytes it has. A place that is too short gets as much of
// it as it has room for.
#[tactic(auto, unfolding(crate::specs::NewRecords::new_length, crate::specs::NewRecords::with_new))]
pub fn new_record(
    f: File,
    part: &[u8],
    isn: u16,
    format: &[u8],
    buffer: &[u8],
    scratch: &mut [u8],
) -> usize
    ensures value { result ≡ new_length f part.now isn (length scratch.old) }
    ensures scratch_after { scratch.new ≡ with_new f part.now format.now buffer.now isn scratch.old }
{
    let old = slot_bytes(f, part, isn);
    let n = old.len().min(scratch.len());
    make(f, &old[..n], format, buffer, &mut scratch[..n]);
    n
}
