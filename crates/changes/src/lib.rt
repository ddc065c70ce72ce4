// The first change of an entry: it counts as changed from then on, and the record that it changes is kept as its image.
#![tactic(auto)]

ghost use Rattle.std.specs.Prelude.{◌≡◌, ◌+◌, ◌*◌, ◌<◌, leb, length};
ghost use Rattle.changes.specs.Changes.{change, keep_image, first_change_queue, first_change_images};

use entries::Entry;

// The entry at a place is changed from now on; `existed` says whether a record was there before.
#[tactic(auto, unfolding(crate::specs::Changes::change))]
fn change(queue: &mut [u64], at: usize, existed: bool)
    requires { at < length queue.old }
    ensures { queue.new ≡ change queue.old at existed }
{
    let e = entries::unpack(queue[at]);
    queue[at] = entries::pack(Entry {
        changed: true,
        existed,
        ..e
    });
}

// Whether the block at a place, of `width` bytes like those before it, ends within `length` bytes.
fn fits_at(at: usize, width: usize, length: usize) -> bool
    ensures { result ≡ leb ((at + 1) * width) length }
{
    width == 0 || at < length / width
}

// Keeps a record's bytes as the image of the entry at a place; changes nothing where they do not fit.
#[tactic(auto, using(slices::specs::Laws::copied_whole, lists::specs::Parts::patched_sets), unfolding(crate::specs::Changes::keep_image))]
fn keep_image(images: &mut [u8], width: usize, at: usize, content: &[u8])
    ensures { images.new ≡ keep_image images.old width at content.now }
{
    let n = content.len();
    if width < n {
        return;
    }
    if !fits_at(at, width, images.len()) {
        return;
    }
    let start = at * width;
    slices::copy(content, &mut images[start..start + n]);
}

// What the first change of the entry at a place does to queue and images: the entry is changed from now on, and where there is a record it is
// kept as the entry's image. A later change keeps the old image.
#[tactic(auto, unfolding(crate::specs::Changes::first_change_queue, crate::specs::Changes::first_change_images, crate::specs::Changes::settled))]
pub fn first_change(
    queue: &mut [u64],
    images: &mut [u8],
    width: usize,
    at: usize,
    existed: bool,
    content: &[u8],
)
    ensures queue_after { queue.new ≡ first_change_queue queue.old at existed }
    ensures images_after { images.new ≡ first_change_images queue.old images.old width at existed content.now }
{
    if queue.len() <= at {
        return;
    }
    let e = entries::unpack(queue[at]);
    if e.changed {
        return;
    }
    change(queue, at, existed);
    if existed {
        keep_image(images, width, at, content);
    }
}
