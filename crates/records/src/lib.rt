// Where the fields of a record and the slots of a file lie. Every size fits: of any kept file a record has at most 16 * 255 bytes.
#![tactic(auto)]

ghost use Rattle.std.specs.Prelude.{◌≡◌};
ghost use Rattle.definition.specs.Table.{field_at};
ghost use Rattle.records.specs.Records.{field_length, field_offset, record_length, slot_length, slot_offset};

use definition::{File, MAX_FIELDS};

// The length of the field at a place; 0 where there is no such place.
pub fn field_length(f: File, k: usize) -> usize
    ensures { result ≡ field_length (field_at f k) }
{
    let g = definition::field_at(f, k);
    usize::from(g.length)
}

// Where the k-th field of a file, from 0, begins in its record; past the last field, the record's length. Always sixteen turns: these are
// unrolled, and then no file is copied.
pub fn field_offset(f: File, k: usize) -> usize
    ensures { result ≡ field_offset f k }
{
    let n = k.min(definition::field_count(f));
    let mut sum: usize = 0;
    for i in 0..MAX_FIELDS {
        if i < n {
            sum += usize::from(f.fields[i].length);
        }
    }
    sum
}

pub fn record_length(f: File) -> usize
    ensures { result ≡ record_length f }
{
    field_offset(f, MAX_FIELDS)
}

// The bytes of one ISN: one that says whether there is a record, then the record.
pub fn slot_length(f: File) -> usize
    ensures { result ≡ slot_length f }
{
    record_length(f) + 1
}

// Where the slot of an ISN begins in its file.
pub fn slot_offset(f: File, isn: u16) -> usize
    ensures { result ≡ slot_offset f isn }
{
    if isn == 0 {
        return 0;
    }
    usize::from(isn - 1) * slot_length(f)
}
