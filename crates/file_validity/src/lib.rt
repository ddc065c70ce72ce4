// Whether one file of a kept definition breaks a rule of document 01: any value, also one that nobody read from bytes.
#![tactic(auto)]

ghost use Rattle.std.specs.Prelude.{◌≡◌, ◌&&◌, leb};
ghost use Rattle.lists.specs.Tests.{within};
ghost use Rattle.lists.specs.Folds.{sound};
ghost use Rattle.definition.specs.Table.{max_length, max_record_length, fields_of, named_alike};
ghost use Rattle.records.specs.Records.{record_length};
ghost use Rattle.file_validity.specs.FileValidity.{name_valid, field_valid, file_valid};
ghost use Rattle.file_validity.specs.Keys.{name_number};

use definition::{
    Field, File, Format, MAX_ALPHANUMERIC, MAX_BINARY, MAX_FIELDS, MAX_ISN_LIMIT, MAX_NUMBER,
    MAX_PACKED, MAX_RECORD_LENGTH, MAX_UNPACKED, Name,
};

fn within(lo: usize, hi: usize, n: usize) -> bool
    ensures { result ≡ within lo hi n }
{
    (lo..=hi).contains(&n)
}

// The greatest length of a field of the format.
fn max_length(format: Format) -> u8
    ensures { result ≡ max_length format }
{
    match format {
        Format::Alphanumeric => MAX_ALPHANUMERIC,
        Format::Binary => MAX_BINARY,
        Format::Unpacked => MAX_UNPACKED,
        Format::Packed => MAX_PACKED,
    }
}

#[tactic(auto, unfolding(crate::specs::FileValidity::name_valid))]
fn name_valid(n: Name) -> bool
    ensures { result ≡ name_valid n }
{
    matches!(n.first, b'A'..=b'Z') && matches!(n.second, b'A'..=b'Z' | b'0'..=b'9')
}

#[tactic(auto, unfolding(crate::specs::FileValidity::field_valid))]
fn field_valid(f: Field) -> bool
    ensures { result ≡ field_valid f }
{
    name_valid(f.name) && within(1, usize::from(max_length(f.format)), usize::from(f.length))
}

// A name as one number.
fn name_number(n: Name) -> u16
    ensures { result ≡ name_number n }
{
    u16::from_be_bytes([n.first, n.second])
}

// Whether the fields are valid, no name stands twice, and they have no more bytes together than a record may. Their names are noted as they are
// passed, so that no call in the loop takes the file.
fn fields_valid(f: File) -> bool
    ensures { result ≡ (sound field_valid named_alike (fields_of f) && leb (record_length f) max_record_length) }
{
    let n = definition::field_count(f);
    let mut names = [0u16; MAX_FIELDS];
    let mut length: usize = 0;
    for (i, field) in f.fields[..n].iter().enumerate() {
        if !field_valid(*field) {
            return false;
        }
        let name = name_number(field.name);
        if membership::among(&names[..i], name) {
            return false;
        }
        names[i] = name;
        length += usize::from(field.length);
    }
    length <= MAX_RECORD_LENGTH
}

#[tactic(auto, unfolding(crate::specs::FileValidity::file_valid))]
pub fn file_valid(f: File) -> bool
    ensures { result ≡ file_valid f }
{
    within(1, MAX_NUMBER, usize::from(f.number))
        && within(1, MAX_ISN_LIMIT, usize::from(f.max_isn))
        && within(1, MAX_FIELDS, usize::from(f.count))
        && fields_valid(f)
}
