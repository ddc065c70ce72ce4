// Unique values (document 01, the row of response 198): a value is taken where another record of the file has it in that field, or an image
// of another user's changed entry does, so that a value that was given up stays taken until its transaction ends.
#![tactic(auto)]

ghost use Rattle.std.specs.Prelude.{◌≡◌, eqb};
ghost use Rattle.lists.specs.Folds.{any};
ghost use Rattle.definition.specs.Table.{field_at, is_unique};
ghost use Rattle.elements.specs.Elements.{places};
ghost use Rattle.shares.specs.Chains.{taken};
ghost use Rattle.uniqueness.specs.Uniqueness.{is_judged, value_taken, field_taken, some_taken};

use definition::{FieldOption, File};
use elements::ELEMENT;
use nucleus::Call;
use shares::Share;

// Whether the format buffer names the field at a place.
#[tactic(auto, using(elements::proofs::Steps::places_step, elements::proofs::Steps::places_end))]
fn is_named(f: File, format: &[u8], k: usize) -> bool
    ensures { result ≡ any (eqb k) (places f format.now) }
{
    for i in (0..format.len()).step_by(ELEMENT) {
        if elements::element(f, format, i) == Some(k) {
            return true;
        }
    }
    false
}

fn is_unique(f: File, k: usize) -> bool
    ensures { result ≡ is_unique (field_at f k).option }
{
    definition::field_at(f, k).option == FieldOption::Unique
}

// N1 and N2 judge every unique field, A1 those that the format buffer names.
fn is_judged(f: File, named: bool, format: &[u8], k: usize) -> bool
    ensures { result ≡ is_judged f named format.now k }
{
    is_unique(f, k) && (!named || is_named(f, format, k))
}

// Whether another record of the file has the value in the field at a place, or an image that counts.
fn value_taken(
    f: File,
    part: &[u8],
    queue: &[u64],
    images: &[u8],
    count: usize,
    width: usize,
    user: u8,
    file: u8,
    isn: u16,
    k: usize,
    value: &[u8],
) -> bool
    ensures { result ≡ value_taken f part.now queue.now images.now count width user file isn k value.now }
{
    let offset = records::field_offset(f, k);
    search::elsewhere(f, part, k, isn, value)
        || images::image_has(queue, images, count, width, user, file, offset, value)
}

// Whether the field at a place is judged, and its value in the new record is taken.
#[tactic(auto, using(lists::specs::Parts::part_least))]
fn field_taken(
    f: File,
    part: &[u8],
    queue: &[u64],
    images: &[u8],
    count: usize,
    width: usize,
    user: u8,
    file: u8,
    named: bool,
    format: &[u8],
    isn: u16,
    content: &[u8],
    k: usize,
) -> bool
    ensures { result ≡ field_taken f part.now queue.now images.now count width user file named format.now isn content.now k }
{
    if !is_judged(f, named, format, k) {
        return false;
    }
    // The record may be shorter than the file's.
    let start = records::field_offset(f, k).min(content.len());
    let end = start + records::field_length(f, k).min(content.len() - start);
    value_taken(
        f,
        part,
        queue,
        images,
        count,
        width,
        user,
        file,
        isn,
        k,
        &content[start..end],
    )
}

// Whether the value of a field that is judged is taken.
#[tactic(auto, using(lists::specs::Numbers::before_more, lists::specs::Numbers::before_none))]
fn some_taken(
    f: File,
    part: &[u8],
    queue: &[u64],
    images: &[u8],
    count: usize,
    width: usize,
    user: u8,
    file: u8,
    named: bool,
    format: &[u8],
    isn: u16,
    content: &[u8],
) -> bool
    ensures { result ≡ some_taken f part.now queue.now images.now count width user file named format.now isn content.now }
{
    for k in 0..definition::field_count(f) {
        if field_taken(
            f, part, queue, images, count, width, user, file, named, format, isn, content, k,
        ) {
            return true;
        }
    }
    false
}

// Whether a unique value of the record that the caller makes at an ISN is taken. `named`: only the fields that the format buffer names.
#[tactic(auto, unfolding(shares::specs::Chains::taken))]
pub fn taken(
    call: Call,
    share: Share,
    queue: &[u64],
    images: &[u8],
    width: usize,
    f: File,
    part: &[u8],
    named: bool,
    format: &[u8],
    isn: u16,
    content: &[u8],
) -> bool
    ensures { result ≡ taken f part.now call share queue.now images.now width named format.now isn content.now }
{
    some_taken(
        f,
        part,
        queue,
        images,
        share.count,
        width,
        call.user,
        call.file,
        named,
        format,
        isn,
        content,
    )
}
