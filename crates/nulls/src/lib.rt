// A record of null values: what an added record has in the fields that are not named.
#![tactic(auto)]

ghost use Rattle.std.specs.Prelude.{◌≡◌, ◌+◌, ◌≤◌, length};
ghost use Rattle.std.proofs.lemmas.List.Edits.{sets};
ghost use Rattle.values.specs.Values.{null_value};
ghost use Rattle.nulls.specs.Nulls.{null_record};

use definition::{File, Format};

// Puts the null value of a format into so many bytes of the record.
#[tactic(auto, using(lists::specs::Parts::patched_sets, values::specs::Laws::null_length))]
fn null_at(kind: Format, size: usize, content: &mut [u8], start: usize)
    requires { start + size ≤ length content.old }
    ensures { content.new ≡ sets content.old start (null_value kind size) }
{
    values::put_null(kind, &mut content[start..start + size]);
}

// Fills the record with null values; changes nothing where it is shorter than the file's.
pub fn put_nulls(f: File, content: &mut [u8])
    ensures { content.new ≡ null_record f content.old }
{
    if content.len() < records::record_length(f) {
        return;
    }
    for k in 0..definition::field_count(f) {
        let g = definition::field_at(f, k);
        null_at(
            g.format,
            usize::from(g.length),
            content,
            records::field_offset(f, k),
        );
    }
}
