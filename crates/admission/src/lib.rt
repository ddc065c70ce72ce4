// What comes before a command that is understood (document 01, 'Responses'; document 02, No. 1): the line that the caller leaves, the clock with its
// back-outs, 9, the session that opens, 211, 29, 212.
#![tactic(auto)]

ghost use Rattle.std.specs.Prelude.{List, ◌≡◌, ℕ};
ghost use Rattle.nucleus.specs.Waiters.{left_by};
ghost use Rattle.nucleus.specs.Clock.{clocked};
ghost use Rattle.nucleus.specs.Step.{admitted_user};
ghost use Rattle.nucleus.specs.declared.EtData.{EtData};
ghost use Rattle.handing.specs.Parts.{nucleus_of};
ghost use Rattle.access.specs.Access.{admission_of};

use definition::Definition;
use handing::Standing;
use nucleus::{Call, Command, Response};

// Whether the call is let in, and what the clock, a back-out and the session that opened left.
#[derive(Clone, Copy, PartialEq, Eq)]
pub struct Admitted {
    pub verdict: Result<(), Response>,
    pub clock: u32,
    pub standing: Standing,
}

// The caller leaves the line before the clock's back-outs, so that none hands him a hold; "The same command, option, file and ISN again while he
// waits keeps his place". Whatever else the state keeps.
pub fn admit(
    command: Command,
    call: Call,
    d: Definition,
    clock: u32,
    mut standing: Standing,
    store: &mut [u8],
    queue: &mut [u64],
    images: &mut [u8],
) -> Admitted
    ensures { (kept : List EtData) (assigned : List ℕ)
        → admitted_user command call
        (clocked call.clock (left_by command call (nucleus_of d clock standing kept assigned store.old queue.old images.old)))
        ≡ admission_of result.verdict command (nucleus_of d result.clock result.standing kept assigned store.new queue.new images.new) }
{
    standing.wait_queue = waiters::leave_by(command, call, standing.wait_queue);
    let now = clock.max(call.clock);
    let passed = overdue::pass(d, now, standing, store, queue, images);
    let entered = access::admit_user(command, call, d, now, passed, store, queue, images);
    Admitted {
        verdict: entered.verdict,
        clock: now,
        standing: entered.standing,
    }
}
