// Entries leave the hold queue: what stays moves to the front, each entry with its image.
#![tactic(auto)]

ghost use Rattle.std.specs.Prelude.{◌≡◌, ◌+◌, ◌*◌, ◌≤◌, ◌<◌, length, drop, get_or, set};
ghost use Rattle.std.proofs.Math.Seq.{paste};
ghost use Rattle.std.proofs.lemmas.List.Edits.{sets};
ghost use Rattle.removal.specs.Removal.{goes, remove_queue, remove_images, remove_count, picked_out};

use entries::Entry;

// Which entries a removal takes.
#[derive(Clone, Copy)]
pub enum Removal {
    // The one of a file and ISN.
    One { file: u8, isn: u16 },
    // A user's unchanged ones.
    Unchanged { user: u8 },
    // All of a user.
    All { user: u8 },
}

fn goes(which: Removal, e: Entry) -> bool
    ensures { result ≡ goes which e }
{
    match which {
        Removal::One { file, isn } => e.file == file && e.isn == isn,
        Removal::Unchanged { user } => e.user == user && !e.changed,
        Removal::All { user } => e.user == user,
    }
}

// An entry and its image come to an earlier place, or stay where they are.
fn move_entry(queue: &mut [u64], images: &mut [u8], width: usize, from: usize, to: usize)
    requires { (to ≤ from) × (from < length queue.old) × ((from + 1) * width ≤ length images.old) }
    ensures queue_after { queue.new ≡ set queue.old to (get_or queue.old from 0) }
    ensures images_after { images.new ≡ paste images.old (to * width) (drop (from * width) images.old) width }
{
    if from == to {
        return;
    }
    queue[to] = queue[from];
    let start = from * width;
    images.copy_within(start..start + width, to * width);
}

// Removes entries with their images and closes the gaps; answers how many entries are left. Nothing changes where the queue or the images
// are too short for `count` entries.
pub fn remove(
    queue: &mut [u64],
    images: &mut [u8],
    count: usize,
    width: usize,
    which: Removal,
) -> usize
    ensures value { result ≡ remove_count queue.old images.old count width which }
    ensures queue_after { queue.new ≡ remove_queue queue.old images.old count width which }
    ensures images_after { images.new ≡ remove_images queue.old images.old count width which }
{
    if count > queue.len() {
        return count;
    }
    if !slices::blocks_fit(count, width, images.len()) {
        return count;
    }
    let mut kept: usize = 0;
    for i in 0..count {
        if !goes(which, entries::unpack(queue[i])) {
            move_entry(queue, images, width, i, kept);
            kept += 1;
        }
    }
    kept
}

// Copies the words of the entries that a removal takes, oldest first, as many as `out` has places for; answers how many.
pub fn pick_out(queue: &[u64], count: usize, which: Removal, out: &mut [u64]) -> usize
    ensures value { result ≡ length (picked_out queue.now count which (length out.old)) }
    ensures out_after { out.new ≡ sets out.old 0 (picked_out queue.now count which (length out.old)) }
{
    let n = count.min(queue.len());
    let mut written: usize = 0;
    for word in &queue[..n] {
        if written == out.len() {
            return written;
        }
        if goes(which, entries::unpack(*word)) {
            out[written] = *word;
            written += 1;
        }
    }
    written
}
