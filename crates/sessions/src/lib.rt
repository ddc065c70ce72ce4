// Sessions: one that opens by itself, who is due, the clock's mark, and a transaction's start.
#![tactic(auto)]

ghost use Rattle.std.specs.Prelude.{◌≡◌};
ghost use Rattle.nucleus.specs.Users.{opened, fresh_user, is_due, with_overdue, started};

use nucleus::{Transaction, User};

// "A user with no session gets one".
pub fn opened(user: User) -> User
    ensures { result ≡ opened user }
{
    if user.session {
        return user;
    }
    User::opening()
}

// "no user is open".
pub fn fresh_user() -> User
    ensures { result ≡ fresh_user }
{
    let mut user = User::opening();
    user.session = false;
    user
}

// Whether the user's transaction began more than his time limit ago. One that is ready waits for him.
pub fn is_due(user: User, clock: u32) -> bool
    ensures { result ≡ is_due clock user }
{
    let t = user.transaction;
    t.active && !t.ready && t.begun <= clock && u32::from(user.time_limit) < clock - t.begun
}

// Marked as overdue, or the mark cleared.
pub fn with_overdue(mut user: User, overdue: bool) -> User
    ensures { result ≡ with_overdue overdue user }
{
    user.overdue = overdue;
    user
}

// "A transaction opens at the user's first new hold".
pub fn started(mut user: User, clock: u32) -> User
    ensures { result ≡ started clock user }
{
    if user.transaction.active {
        return user;
    }
    user.transaction = Transaction {
        active: true,
        begun: clock,
        ready: false,
    };
    user
}
