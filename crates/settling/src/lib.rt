// The line after a command (document 02, No. 1): who is answered 20 joins it, and what RI, ET or BT let go is handed over.
#![tactic(auto)]

ghost use Rattle.std.specs.Prelude.{List, ◌≡◌, ℕ, length};
ghost use Rattle.std.proofs.lemmas.List.Edits.{sets};
ghost use Rattle.entries.specs.Entries.{entries};
ghost use Rattle.nucleus.specs.Commands.{one_of, letting_go};
ghost use Rattle.nucleus.specs.Responses.{number};
ghost use Rattle.nucleus.specs.Waiters.{lets_go};
ghost use Rattle.nucleus.specs.declared.EtData.{EtData};
ghost use Rattle.handing.specs.Parts.{nucleus_of};
ghost use Rattle.settling.specs.Settling.{going_words, lined_by};

use definition::Definition;
use handing::Standing;
use nucleus::{Call, Command, Response};
use removal::Removal;

// Who waits is answered this.
const WAITING: u16 = 20;

const GOOD: u16 = 0;

fn lets_go(command: Command) -> bool
    ensures { result ≡ one_of letting_go command }
{
    matches!(command, Command::Ri | Command::Et | Command::Bt)
}

// What a command that lets go removes: RI what it drops, ET and BT all of the caller.
fn removal_of(command: Command, call: Call) -> Removal
    ensures { result ≡ lets_go command call }
{
    if command != Command::Ri {
        return Removal::All { user: call.user };
    }
    if call.isn == 0 {
        return Removal::Unchanged { user: call.user };
    }
    Removal::One {
        file: call.file,
        isn: call.isn,
    }
}

// Before a command: the words of the entries that it may let go, oldest first, at the front of `out`, as many as it has places. Answers how many.
pub fn let_go(command: Command, call: Call, queue: &[u64], count: usize, out: &mut [u64]) -> usize
    ensures value { result ≡ length (going_words command call queue.now count (length out.old)) }
    ensures out_after { out.new ≡ sets out.old 0 (going_words command call queue.now count (length out.old)) }
{
    if !lets_go(command) {
        return 0;
    }
    removal::pick_out(queue, count, removal_of(command, call), out)
}

// After it: whatever else the state keeps. The first n words are of the entries that it lets go where it is good.
#[tactic(auto, using(crate::specs::Laws::lined_waiting, crate::specs::Laws::lined_refused, crate::specs::Laws::lined_kept, crate::specs::Laws::lined_handed))]
pub fn settle(
    command: Command,
    call: Call,
    response: Response,
    d: Definition,
    clock: u32,
    standing: Standing,
    words: &[u64],
    n: usize,
    store: &[u8],
    queue: &mut [u64],
) -> Standing
    ensures { (kept : List EtData) (assigned images : List ℕ)
        → lined_by (entries words.now n) command call (number response) (nucleus_of d clock standing kept assigned store.now queue.old images)
        ≡ nucleus_of d clock result kept assigned store.now queue.new images }
{
    let number = response_numbers::number(response);
    if number == WAITING {
        return Standing {
            wait_queue: waiters::join(command, call, standing.wait_queue),
            ..standing
        };
    }
    if number != GOOD || !lets_go(command) {
        return standing;
    }
    handing::hand_over(d, clock, standing, words, n, store, queue)
}
