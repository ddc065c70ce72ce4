// The back-out's part in the store: what a user's changed entries keep is put back. That his entries go is for `removal`.
#![tactic(auto)]

ghost use Rattle.std.specs.Prelude.{◌≡◌, map, ℕ, ◌-◌, ◌*◌, ◌≤◌, length, get_or};
ghost use Rattle.lists.specs.Pieces.{piece, patch};
ghost use Rattle.definition.specs.Table.{file_count, files_of};
ghost use Rattle.layout.specs.Layout.{file_offset, store_size};
ghost use Rattle.entries.specs.Entries.{entries};
ghost use Rattle.hold.specs.Hold.{put_back_in, restored, restore};
ghost use Rattle.hold.specs.Tables.{file_number, seek_number, undone_at};

use definition::{Definition, File, MAX_FILES};
use entries::Entry;

// A start for each place, and the store's end.
const STARTS: usize = MAX_FILES + 1;

// The number of the file at each place, used or not.
fn file_numbers(d: Definition) -> [u8; MAX_FILES]
    ensures { result ≡ map file_number d.files }
{
    let mut numbers = [0u8; MAX_FILES];
    for (i, file) in d.files.iter().enumerate() {
        numbers[i] = file.number;
    }
    numbers
}

// Where each file in use begins in the store; behind the last, where the store ends.
fn file_starts(d: Definition) -> [usize; STARTS]
    ensures { (k : ℕ) → k ≤ file_count d → get_or result k 0 ≡ file_offset d k }
{
    let n = definition::file_count(d);
    let mut starts = [0usize; STARTS];
    let mut sum: usize = 0;
    for i in 0..n {
        sum += layout::file_size(d.files[i]);
        starts[i + 1] = sum;
    }
    starts
}

// The place of a file's number.
fn place(numbers: &[u8], number: u8) -> Option<usize>
    ensures { result ≡ seek_number number numbers.now 0 }
{
    for (i, other) in numbers.iter().enumerate() {
        if *other == number {
            return Some(i);
        }
    }
    None
}

// The place of the file in which an entry is undone: nowhere, where it is not the user's or not changed.
fn undone_at(numbers: &[u8], user: u8, e: Entry) -> Option<usize>
    ensures { result ≡ undone_at numbers.now user e }
{
    if e.user != user {
        return None;
    }
    if !e.changed {
        return None;
    }
    place(numbers, e.file)
}

// One entry's record as it was before the entry's first change, in its file's part of the store.
fn put_back_in(f: File, e: Entry, image: &[u8], part: &mut [u8])
    ensures { part.new ≡ put_back_in f e image.now part.old }
{
    if e.existed {
        let n = records::record_length(f).min(image.len());
        store::put_record(f, part, e.isn, &image[..n]);
        return;
    }
    store::empty(f, part, e.isn);
}

// The same in the store, where the file's part is from `start` to `end`.
fn put_back(f: File, start: usize, end: usize, e: Entry, image: &[u8], store: &mut [u8])
    requires start_le_end { start ≤ end }
    requires end_in_bounds { end ≤ length store.old }
    ensures { store.new ≡ patch start (end - start) store.old (put_back_in f e image.now (piece start (end - start) store.old)) }
{
    put_back_in(f, e, image, &mut store[start..end]);
}

// The same of a user's changed entries, oldest first, by tables that are made once: a call in the loop that took the definition would copy it.
fn put_back_all(
    d: Definition,
    numbers: &[u8],
    starts: &[usize],
    width: usize,
    user: u8,
    queue: &[u64],
    images: &[u8],
    count: usize,
    store: &mut [u8],
)
    requires numbers_value { numbers.now ≡ map file_number (files_of d) }
    requires starts_len { length starts.now ≡ 17 }
    requires by_index { (k : ℕ) → k ≤ file_count d → get_or starts.now k 0 ≡ file_offset d k }
    requires width_in_bounds { count * width ≤ length images.now }
    requires d_in_bounds { store_size d ≤ length store.old }
    ensures { store.new ≡ restored d width user (entries queue.now count) images.now store.old }
{
    let n = count.min(queue.len());
    for i in 0..n {
        let e = entries::unpack(queue[i]);
        let at = i * width;
        let found = undone_at(numbers, user, e);
        let Some(k) = found else {
            continue;
        };
        let f = d.files[k];
        let start = starts[k];
        let end = starts[k + 1];
        put_back(f, start, end, e, &images[at..at + width], store);
    }
}

// Puts back what a user's changed entries keep, oldest first; changes nothing where there are fewer images than entries or the store is too short.
pub fn restore(
    d: Definition,
    width: usize,
    user: u8,
    queue: &[u64],
    images: &[u8],
    count: usize,
    store: &mut [u8],
)
    ensures { store.new ≡ restore d width user queue.now images.now count store.old }
{
    if !slices::blocks_fit(count, width, images.len()) {
        return;
    }
    let n = definition::file_count(d);
    let starts = file_starts(d);
    if store.len() < starts[n] {
        return;
    }
    let numbers = file_numbers(d);
    put_back_all(
        d,
        &numbers[..n],
        &starts,
        width,
        user,
        queue,
        images,
        count,
        store,
    );
}
