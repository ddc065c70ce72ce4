// The rows of a change at the call's ISN (document 01), which A1 and E1 both have.
#![tactic(auto)]

ghost use Rattle.std.specs.Prelude.{◌≡◌};
ghost use Rattle.nucleus.specs.Rows.{first_cause};
ghost use Rattle.shares.specs.Shares.{verdict};
ghost use Rattle.change_rows.specs.ChangeRows.{rows_changed};

use definition::File;
use nucleus::{Call, Response, TAKE_HOLD};
use shares::Share;

// The rows of a change at the call's ISN: 145, 113, 144, 47 and 70.
pub fn changeable(
    call: Call,
    most: usize,
    share: Share,
    f: File,
    part: &[u8],
    queue: &[u64],
) -> Result<(), Response>
    ensures { result ≡ verdict (first_cause (rows_changed f part.now call share queue.now most)) }
{
    let found = queue::holder(queue, share.count, call.file, call.isn);
    if hold_rows::other_holds(found, call.user) {
        return Err(Response::HeldByAnother);
    }
    if !store::has_record(f, part, call.isn) {
        return Err(Response::Presence);
    }
    if call.option == TAKE_HOLD {
        return hold_rows::room(call, share, queue, most, call.isn);
    }
    // Past 145 an entry is the caller's, and then there is no new one.
    let Some(_) = found else {
        return Err(Response::NotHeld);
    };
    Ok(())
}
