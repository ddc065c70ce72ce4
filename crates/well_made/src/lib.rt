// Whether the parts of a kept state are well made (document 01, below the table of responses), each part by itself: users, ET data.
#![tactic(auto)]

ghost use Rattle.std.specs.Prelude.{◌≡◌};
ghost use Rattle.lists.specs.Folds.{all};
ghost use Rattle.nucleus.specs.WellMade.{user_made, data_made};

use nucleus::{EtData, MAX_ET_DATA, MAX_USERS, User};

fn user_made(u: User, clock: u32) -> bool
    ensures { result ≡ user_made clock u }
{
    let t = u.transaction;
    if !t.active {
        return !t.ready;
    }
    u.session && t.begun <= clock
}

// Whoever is in a transaction has a session, and it did not begin after the clock; whoever is in none is not ready.
pub fn users_made(users: [User; MAX_USERS], clock: u32) -> bool
    ensures { result ≡ all (user_made clock) users }
{
    users.iter().all(|u| user_made(*u, clock))
}

pub fn data_made(et_data: [EtData; MAX_USERS]) -> bool
    ensures { result ≡ all data_made et_data }
{
    et_data
        .iter()
        .all(|data| usize::from(data.length) <= MAX_ET_DATA)
}
