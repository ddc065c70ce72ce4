// The hold queue: a lent slice with one entry in each word, oldest first. The first `count` words are in use; a count past the slice's
// length counts as its length.
#![tactic(auto)]

ghost use Rattle.std.specs.Prelude.{◌≡◌};
ghost use Rattle.entries.specs.Entries.{is_of, entries};
ghost use Rattle.queue.specs.Queue.{holder, held_by, append};

use entries::Entry;

fn is_of(e: Entry, file: u8, isn: u16) -> bool
    ensures { result ≡ is_of file isn e }
{
    e.file == file && e.isn == isn
}

// The first entry of the file and ISN.
pub fn holder(queue: &[u64], count: usize, file: u8, isn: u16) -> Option<(usize, Entry)>
    ensures { result ≡ holder (entries queue.now count) file isn }
{
    let n = count.min(queue.len());
    for (i, word) in queue[..n].iter().enumerate() {
        let e = entries::unpack(*word);
        if is_of(e, file, isn) {
            return Some((i, e));
        }
    }
    None
}

// How many entries the user has, in all files. A loop: `filter(..).count()` takes three times as long.
pub fn held_by(queue: &[u64], count: usize, user: u8) -> usize
    ensures { result ≡ held_by (entries queue.now count) user }
{
    let n = count.min(queue.len());
    let mut sum: usize = 0;
    for word in &queue[..n] {
        if entries::unpack(*word).user == user {
            sum += 1;
        }
    }
    sum
}

// A new entry, the youngest, where there is room.
#[tactic(auto, using(crate::specs::Laws::append_full), unfolding(crate::specs::Queue::append))]
pub fn append(queue: &mut [u64], count: usize, e: Entry)
    ensures { queue.new ≡ append queue.old count e }
{
    if count < queue.len() {
        queue[count] = entries::pack(e);
    }
}
