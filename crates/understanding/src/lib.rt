// What a call's own arguments say (document 01, 'Responses'): the command and the user, 22 and 72; and 113 of the ISN that a call about a file
// gives.
#![tactic(auto)]

ghost use Rattle.std.specs.Prelude.{◌≡◌};
ghost use Rattle.nucleus.specs.Commands.{direct_commands, one_of, at_given_isn};
ghost use Rattle.understanding.specs.Understanding.{understood_as, isn_refused};

use nucleus::{Call, Command, MAX_USERS, Response};

// The command of a call, or the cause that refuses it.
#[tactic(auto, unfolding(crate::specs::Understanding::understood_as, nucleus::specs::Rows::rows_understood))]
pub fn understand(call: Call) -> Result<Command, Response>
    ensures { result ≡ understood_as direct_commands call }
{
    let command = codes::command_of(call.command).ok_or(Response::CommandUnknown)?;
    if !options::has_option(command, call.option) {
        return Err(Response::CommandUnknown);
    }
    if !(1..=MAX_USERS).contains(&usize::from(call.user)) {
        return Err(Response::UserUnknown);
    }
    Ok(command)
}

// Commands about the ISN that the call gives.
fn at_given_isn(command: Command) -> bool
    ensures { result ≡ one_of at_given_isn command }
{
    matches!(
        command,
        Command::Hi
            | Command::Ri
            | Command::L1
            | Command::L4
            | Command::A1
            | Command::E1
            | Command::N2
    )
}

// 113, first: the ISN that the call gives is not one of its file's. N1 is given none, and option `I` may be given any.
pub fn isn_refused(command: Command, call: Call, max_isn: u16) -> bool
    ensures { result ≡ isn_refused command call max_isn }
{
    !options::seeks(command, call.option)
        && at_given_isn(command)
        && !(1..=max_isn).contains(&call.isn)
}
