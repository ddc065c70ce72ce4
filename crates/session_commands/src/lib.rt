// The commands that open and close a session: OP, CL.
#![tactic(auto)]

ghost use Rattle.std.specs.Prelude.{◌≡◌};
ghost use Rattle.nucleus.specs.Users.{or_default, set_session};
ghost use Rattle.shares.specs.Outcomes.{op_done, cl_done};

use nucleus::{ACCESS_ONLY, Call, User};
use shares::{Done, Share};

// A limit that a call gives; 0 stands for the default.
fn or_default(default: u16, limit: u16) -> u16
    ensures { result ≡ or_default default limit }
{
    if limit == 0 { default } else { limit }
}

// What OP makes of a user.
fn set_session(mut user: User, holds: u16, time: u16, access_only: bool) -> User
    ensures { result ≡ set_session holds time access_only user }
{
    user.hold_limit = or_default(User::HOLD_LIMIT, holds);
    user.time_limit = or_default(User::TIME_LIMIT, time);
    user.sequence = User::SEQUENCE;
    user.access_only = access_only;
    user
}

// OP.
pub fn op(call: Call, mut share: Share) -> Done
    ensures { result ≡ op_done call share }
{
    let access_only = call.option == ACCESS_ONLY;
    share.user = set_session(share.user, call.isn, call.limit, access_only);
    shares::good(0, 0, 0, share)
}

// CL.
pub fn cl(mut share: Share) -> Done
    ensures { result ≡ cl_done share }
{
    let sequence = share.user.sequence;
    share.user.session = false;
    shares::good(0, 0, sequence, share)
}
