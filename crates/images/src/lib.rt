// The before-images beside the hold queue: a lent buffer with one image of `width` bytes for each entry, in the queue's order, that moves with
// its entry.
#![tactic(auto)]

ghost use Rattle.std.specs.Prelude.{◌≡◌, ◌*◌, take, drop};
ghost use Rattle.entries.specs.Entries.{entries};
ghost use Rattle.images.specs.Images.{counts, has_at, hold_of, taken_by, image_has};

use entries::Entry;

// Whether the bytes stand in `s` at an offset.
#[tactic(auto, using(lists::specs::Parts::part_least))]
fn has_at(s: &[u8], offset: usize, value: &[u8]) -> bool
    ensures { result ≡ has_at offset value.now s.now }
{
    let start = offset.min(s.len());
    let end = start + value.len().min(s.len() - start);
    slices::same(&s[start..end], value)
}

// Whether the bytes stand in the i-th image at an offset.
#[tactic(auto, using(lists::specs::Parts::part_least))]
fn image_has_at(images: &[u8], i: usize, width: usize, offset: usize, value: &[u8]) -> bool
    ensures { result ≡ has_at offset value.now (take width (drop (i * width) images.now)) }
{
    if !slices::blocks_fit(i, width, images.len()) {
        return has_at(&images[..0], offset, value);
    }
    let start = i * width;
    let end = start + width.min(images.len() - start);
    has_at(&images[start..end], offset, value)
}

// Whether an entry's image counts against a unique value of the user: one of another user's changed entries in the file, and a record was
// there before.
fn counts(e: Entry, user: u8, file: u8) -> bool
    ensures { result ≡ counts user file e }
{
    e.user != user && e.file == file && e.changed && e.existed
}

// Whether the i-th image counts and has the bytes at an offset.
fn taken_by(
    e: Entry,
    images: &[u8],
    i: usize,
    width: usize,
    user: u8,
    file: u8,
    offset: usize,
    value: &[u8],
) -> bool
    ensures { result ≡ taken_by user file offset value.now (hold_of e (take width (drop (i * width) images.now))) }
{
    counts(e, user, file) && image_has_at(images, i, width, offset, value)
}

// Whether an image that counts has the bytes at an offset.
pub fn image_has(
    queue: &[u64],
    images: &[u8],
    count: usize,
    width: usize,
    user: u8,
    file: u8,
    offset: usize,
    value: &[u8],
) -> bool
    ensures { result ≡ image_has (entries queue.now count) images.now width user file offset value.now }
{
    let n = count.min(queue.len());
    for (i, word) in queue[..n].iter().enumerate() {
        if taken_by(
            entries::unpack(*word),
            images,
            i,
            width,
            user,
            file,
            offset,
            value,
        ) {
            return true;
        }
    }
    false
}
