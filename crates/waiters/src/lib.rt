// The line of those who wait for a record that another holds (document 02, No. 1): who is in it, joining and leaving.
#![tactic(auto)]

ghost use Rattle.std.specs.Prelude.{◌≡◌};
ghost use Rattle.lists.specs.Folds.{any};
ghost use Rattle.entries.specs.Entries.{entries};
ghost use Rattle.nucleus.specs.Waiters.{in_line, first_in_line, by_l4, same_place, keeps_place, left_line, line_left_by, joined_line};

use entries::Entry;
use nucleus::{Call, Command, MAX_USERS, WaitQueue};
use removal::Removal;

// Whether the user waits.
#[tactic(auto, using(crate::specs::Laws::any_held))]
pub fn in_line(line: WaitQueue, user: u8) -> bool
    ensures { result ≡ in_line line user }
{
    queue::held_by(&line.places, line.waiting, user) > 0
}

// The first who waits for the file and ISN.
pub fn first_in_line(line: WaitQueue, file: u8, isn: u16) -> Option<(usize, Entry)>
    ensures { result ≡ first_in_line line file isn }
{
    queue::holder(&line.places, line.waiting, file, isn)
}

fn by_l4(command: Command) -> bool
    ensures { result ≡ by_l4 command }
{
    command == Command::L4
}

// Whether a place in the line is the one that the call would get.
fn same_place(command: Command, call: Call, e: Entry) -> bool
    ensures { result ≡ same_place command call e }
{
    e.user == call.user && e.file == call.file && e.isn == call.isn && e.changed == by_l4(command)
}

fn has_place(command: Command, call: Call, places: &[u64], waiting: usize) -> bool
    ensures { result ≡ any (same_place command call) (entries places.now waiting) }
{
    let n = waiting.min(places.len());
    places[..n]
        .iter()
        .any(|word| same_place(command, call, entries::unpack(*word)))
}

// "The same command, option, file and ISN again while he waits keeps his place".
pub fn keeps_place(command: Command, call: Call, line: WaitQueue) -> bool
    ensures { result ≡ keeps_place command call line }
{
    options::waits(command, call.option) && has_place(command, call, &line.places, line.waiting)
}

// The line without the user.
#[tactic(auto, unfolding(nucleus::specs::Waiters::left_line))]
pub fn leave(line: WaitQueue, user: u8) -> WaitQueue
    ensures { result ≡ left_line user line }
{
    let mut places = line.places;
    let waiting = removal::remove(&mut places, &mut [], line.waiting, 0, Removal::All { user });
    WaitQueue { places, waiting }
}

// The line that a call finds: whoever makes another call than the one that he waits by leaves it.
#[tactic(auto, unfolding(nucleus::specs::Waiters::line_left_by))]
pub fn leave_by(command: Command, call: Call, line: WaitQueue) -> WaitQueue
    ensures { result ≡ line_left_by command call line }
{
    if keeps_place(command, call, line) {
        line
    } else {
        leave(line, call.user)
    }
}

// The line with the caller at its end, unless he is in it.
#[tactic(auto, unfolding(nucleus::specs::Waiters::joined_line))]
pub fn join(command: Command, call: Call, line: WaitQueue) -> WaitQueue
    ensures { result ≡ joined_line command call line }
{
    if in_line(line, call.user) || line.waiting >= MAX_USERS {
        return line;
    }
    let e = Entry {
        user: call.user,
        file: call.file,
        isn: call.isn,
        changed: by_l4(command),
        existed: false,
    };
    let mut places = line.places;
    queue::append(&mut places, line.waiting, e);
    WaitQueue {
        places,
        waiting: line.waiting + 1,
    }
}
