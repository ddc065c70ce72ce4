// Whether a caller is let in, after the clock (document 01, 'Responses'): 9, the session that opens, 211, 29, 212.
#![tactic(auto)]

ghost use Rattle.std.specs.Prelude.{◌&&◌, not, List, ◌≡◌, ℕ};
ghost use Rattle.nucleus.specs.Commands.{one_of, on_session, serving_ready, setting_ready, serving_access_only};
ghost use Rattle.nucleus.specs.Users.{is_active, is_ready};
ghost use Rattle.nucleus.specs.Step.{admitted_user};
ghost use Rattle.nucleus.specs.declared.EtData.{EtData};
ghost use Rattle.handing.specs.Parts.{nucleus_of};
ghost use Rattle.shares.specs.Shares.{verdict};
ghost use Rattle.access.specs.Access.{session_cause, admission_of};

use definition::Definition;
use handing::Standing;
use nucleus::{Call, Command, Response, User};

// OP and CL, which open or close a session.
fn on_session(command: Command) -> bool
    ensures { result ≡ one_of on_session command }
{
    matches!(command, Command::Op | Command::Cl)
}

// What a user whose transaction is ready may call.
fn serves_ready(command: Command) -> bool
    ensures { result ≡ one_of serving_ready command }
{
    matches!(command, Command::Et | Command::Bt)
}

// PE.
fn sets_ready(command: Command) -> bool
    ensures { result ≡ one_of setting_ready command }
{
    matches!(command, Command::Pe)
}

// What an access-only user may call.
fn serves_access_only(command: Command) -> bool
    ensures { result ≡ one_of serving_access_only command }
{
    matches!(
        command,
        Command::L1 | Command::Re | Command::Op | Command::Cl
    )
}

// "OP or CL in a transaction".
fn session_in_transaction(command: Command, user: User) -> bool
    ensures { result ≡ (one_of on_session command && is_active user) }
{
    on_session(command) && user.transaction.active
}

// "another call while ready".
fn ready_refused(command: Command, user: User) -> bool
    ensures { result ≡ (is_ready user && not (one_of serving_ready command)) }
{
    user.transaction.ready && !serves_ready(command)
}

// "access-only user, call not OP, CL, L1, RE".
fn access_refused(command: Command, user: User) -> bool
    ensures { result ≡ (user.access_only && not (one_of serving_access_only command)) }
{
    user.access_only && !serves_access_only(command)
}

// "PE without a transaction".
fn transaction_missing(command: Command, user: User) -> bool
    ensures { result ≡ (one_of setting_ready command && not (is_active user)) }
{
    sets_ready(command) && !user.transaction.active
}

// 211, 29 and 212, of a user whose session is open.
fn judge(command: Command, user: User) -> Result<(), Response>
    ensures { result ≡ verdict (session_cause command user) }
{
    if ready_refused(command, user) {
        return Err(Response::TransactionReady);
    }
    if access_refused(command, user) {
        return Err(Response::AccessOnly);
    }
    if transaction_missing(command, user) {
        return Err(Response::NoTransaction);
    }
    Ok(())
}

// Whether a caller is let in, and what is left then.
#[derive(Clone, Copy)]
pub struct Entered {
    pub verdict: Result<(), Response>,
    pub standing: Standing,
}

// 9, the session that opens, and 211, 29 and 212, after the clock; whatever else the state keeps.
pub fn admit_user(
    command: Command,
    call: Call,
    d: Definition,
    clock: u32,
    mut standing: Standing,
    store: &mut [u8],
    queue: &mut [u64],
    images: &mut [u8],
) -> Entered
    ensures { (kept : List EtData) (assigned : List ℕ)
        → admitted_user command call (nucleus_of d clock standing kept assigned store.old queue.old images.old)
        ≡ admission_of result.verdict command (nucleus_of d clock result.standing kept assigned store.new queue.new images.new) }
{
    let users = standing.users;
    let user = handing::user_at(users, call.user);
    if user.overdue {
        let cleared = sessions::with_overdue(user, false);
        standing.users = handing::with_user(users, call.user, cleared);
        return Entered {
            verdict: Err(Response::BackedOut),
            standing,
        };
    }
    if session_in_transaction(command, user) {
        let out = handing::force_out(d, clock, standing, call.user, store, queue, images);
        return Entered {
            verdict: Err(Response::BackedOut),
            standing: out,
        };
    }
    let session = sessions::opened(user);
    let verdict = judge(command, session);
    standing.users = handing::with_user(users, call.user, session);
    Entered { verdict, standing }
}
