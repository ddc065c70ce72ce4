// A1 replaces the named fields of a record where it lies: the slot of one ISN, a part of the store starting in its middle, is lent on to be written.
#![tactic(auto)]

ghost use Rattle.std.specs.Prelude.{◌≡◌};
ghost use Rattle.amendment.specs.Amendment.{amended};

use definition::File;

// Puts the values into the named fields of the record of an ISN, in its file's part of the store; changes nothing where the ISN has no record.
pub fn amend(f: File, part: &mut [u8], isn: u16, format: &[u8], values: &[u8])
    ensures { part.new ≡ amended f part.old isn format.now values.now }
{
    if !store::has_record(f, part, isn) {
        return;
    }
    let start = records::slot_offset(f, isn) + 1;
    let end = start + records::record_length(f);
    fields::write_fields(f, format, values, &mut part[start..end]);
}
