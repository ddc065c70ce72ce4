// Whether the entries of the hold queue are well made (document 01, below the table of responses): their ISNs are judged by a table that is made once.
#![tactic(auto)]

ghost use Rattle.std.specs.Prelude.{◌≡◌, length, get_or};
ghost use Rattle.lists.specs.Tests.{within};
ghost use Rattle.lists.specs.Folds.{all};
ghost use Rattle.entries.specs.Entries.{entries};
ghost use Rattle.entry_tables.specs.Tables.{highest_isns, entry_fits};

use definition::{Definition, MAX_NUMBER};
use entries::Entry;
use nucleus::{MAX_USERS, User};

// A place for each file number, from 0.
const NUMBERS: usize = MAX_NUMBER + 1;

// The highest ISN by file number, 0 for none. From the last file on down, so that the first of a number decides.
fn highest_isns(d: Definition) -> [u16; NUMBERS]
    ensures { result ≡ highest_isns d }
{
    let mut table = [0u16; NUMBERS];
    for i in (0..definition::file_count(d)).rev() {
        let number = usize::from(d.files[i].number);
        if number < NUMBERS {
            table[number] = d.files[i].max_isn;
        }
    }
    table
}

fn within_file(e: Entry, highest: &[u16; NUMBERS]) -> bool
    requires { length highest.now ≡ 17 }
    ensures { result ≡ within 1 (get_or highest.now e.file 0) e.isn }
{
    let file = usize::from(e.file);
    file < NUMBERS && e.isn != 0 && e.isn <= highest[file]
}

// Users are looked at in their places: a call that took them would copy them all at each entry.
fn entries_fit(
    queue: &[u64],
    count: usize,
    highest: &[u16; NUMBERS],
    users: [User; MAX_USERS],
) -> bool
    requires { length highest.now ≡ 17 }
    ensures { result ≡ all (entry_fits highest.now users) (entries queue.now count) }
{
    let n = count.min(queue.len());
    for word in &queue[..n] {
        let e = entries::unpack(*word);
        if !within_file(e, highest) {
            return false;
        }
        let user = usize::from(e.user);
        if user < 1 {
            return false;
        }
        if MAX_USERS < user {
            return false;
        }
        if !users[user - 1].transaction.active {
            return false;
        }
    }
    true
}

// Every entry is within its file and of a user in a transaction: by the table, which says so of a valid definition (`entries_judged`).
pub fn entries_made(d: Definition, users: [User; MAX_USERS], queue: &[u64], count: usize) -> bool
    ensures { result ≡ all (entry_fits (highest_isns d) users) (entries queue.now count) }
{
    let highest = highest_isns(d);
    entries_fit(queue, count, &highest, users)
}
