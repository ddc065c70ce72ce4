// Whether a hold queue has a file and ISN in two entries. A table with a bit for each makes it quick: an entry is looked for among those before
// it only where its bit is set.
#![tactic(auto)]

ghost use Rattle.std.specs.Prelude.{◌≡◌, true, ◌<◌};
ghost use Rattle.lists.specs.Folds.{any};
ghost use Rattle.entries.specs.Entries.{is_of, entries};
ghost use Rattle.repeats.specs.Marks.{key, marked, set_mark, all_marked};
ghost use Rattle.repeats.specs.Repeats.{repeated};

use entries::Entry;

// A bit of a table of 4096 for each file and ISN. Some share one, so a bit that is set says only that it is worth looking; a table with a bit for each
// would take longer to clear than most queues to pass.
#[tactic(auto, unfolding(crate::specs::Marks::key))]
fn key(e: Entry) -> usize
    ensures { result ≡ key e }
{
    (usize::from(e.file) * 259 + usize::from(e.isn)) % 4096
}

#[tactic(auto, unfolding(crate::specs::Marks::marked))]
fn marked(table: &[u64; 64], k: usize) -> bool
    requires { k < 4096 }
    ensures { result ≡ marked table.now k }
{
    (table[k / 64] >> (k % 64)) % 2 == 1
}

fn set_mark(table: &mut [u64; 64], k: usize)
    requires { k < 4096 }
    ensures { table.new ≡ set_mark table.old k }
{
    table[k / 64] |= 1u64 << (k % 64);
}

// Whether one of the first `count` entries, which are all marked, is of the file and ISN of `e`. It is looked for only where the table has
// its mark.
#[tactic(auto, using(crate::specs::Marks::key_small, crate::specs::Marks::unmarked_none))]
fn held_before(queue: &[u64], count: usize, table: &[u64; 64], e: Entry) -> bool
    requires { all_marked table.now (entries queue.now count) ≡ true }
    ensures { result ≡ any (is_of e.file e.isn) (entries queue.now count) }
{
    marked(table, key(e)) && queue::holder(queue, count, e.file, e.isn).is_some()
}

// Whether some file and ISN stand in two entries.
pub fn repeated(queue: &[u64], count: usize) -> bool
    ensures { result ≡ repeated (entries queue.now count) }
{
    let n = count.min(queue.len());
    let mut table = [0u64; 64];
    for (i, word) in queue[..n].iter().enumerate() {
        let e = entries::unpack(*word);
        if held_before(queue, i, &table, e) {
            return true;
        }
        set_mark(&mut table, key(e));
    }
    false
}
