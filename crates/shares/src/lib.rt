// What a command is handed of the state, and what it gives back: only the outermost function has the whole state.
#![tactic(auto)]

ghost use Rattle.std.specs.Prelude.{◌≡◌};
ghost use Rattle.nucleus.specs.Responses.{refused, good};
ghost use Rattle.shares.specs.Shares.{done};

use nucleus::{Answer, EtData, Response, User};

// The parts of the state that a command reads and may change.
#[derive(Clone, Copy, PartialEq, Eq)]
pub struct Share {
    // The caller.
    pub user: User,
    pub et_data: EtData,
    // The ISN that N1 last gave in the call's file.
    pub last_assigned: u16,
    // The entries in use in the hold queue.
    pub count: usize,
    // The caller is in the line, which he is by this very call. No command changes it.
    pub waits: bool,
}

// What a command answers, and its share afterwards.
#[derive(Clone, Copy, PartialEq, Eq)]
pub struct Done {
    pub answer: Answer,
    pub share: Share,
}

// A refusal leaves the share as it was.
pub fn refused(cause: Response, share: Share) -> Done
    ensures { result ≡ done (refused cause) share }
{
    Done {
        answer: Answer {
            response: cause,
            isn: 0,
            quantity: 0,
            sequence: 0,
        },
        share,
    }
}

// The answer of a command that no row refuses.
pub fn good(isn: u16, quantity: usize, sequence: u32, share: Share) -> Done
    ensures { result ≡ done (good isn quantity sequence) share }
{
    Done {
        answer: Answer {
            response: Response::Good,
            isn,
            quantity,
            sequence,
        },
        share,
    }
}
