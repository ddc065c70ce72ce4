// The state and the control block of a call as a caller in another language keeps them, in plain numbers, and from them to the nucleus's own and
// back.
#![tactic(auto)]

ghost use Rattle.std.specs.Prelude.{◌≡◌};
ghost use Rattle.kept_states.specs.KeptStates.{thawed_table, thawed, frozen, with_kept_table, call_of, answered, left_by};

use definition::{Definition, MAX_FILES};
use kept_tables::KeptFile;
use nucleus::{Answer, Call, EtData, MAX_USERS, State, User, WaitQueue};

// What the nucleus keeps between calls: the definition table, of whose files the first `count` are in use; the clock, the users and their ET
// data, user 1 first; the ISN that N1 last gave in each file; the entries in use in the hold queue; and who waits.
#[repr(C)]
#[derive(Clone, Copy)]
pub struct KeptState {
    pub count: u8,
    pub files: [KeptFile; MAX_FILES],
    pub clock: u32,
    pub users: [User; MAX_USERS],
    pub et_data: [EtData; MAX_USERS],
    pub last_assigned: [u16; MAX_FILES],
    pub entries: usize,
    pub wait_queue: WaitQueue,
}

// A call's arguments, which it leaves as they are, and what it answers.
#[repr(C)]
#[derive(Clone, Copy)]
pub struct ControlBlock {
    pub command: [u8; 2],
    pub option: u8,
    pub user: u8,
    pub file: u8,
    pub isn: u16,
    pub limit: u16,
    pub clock: u32,
    pub response: u16,
    pub answered_isn: u16,
    pub sequence: u32,
    pub quantity: usize,
}

// What a call leaves of both, and the response's number.
#[derive(Clone, Copy)]
pub struct Left {
    pub state: KeptState,
    pub block: ControlBlock,
    pub response: u32,
}

// A table with a byte in use that numbers no format or option is none, so that every call on it answers 12.
#[tactic(auto, unfolding(crate::specs::KeptStates::thawed_table))]
fn thawed_table(count: u8, files: [KeptFile; MAX_FILES]) -> Definition
    ensures { result ≡ thawed_table count files }
{
    if !kept_tables::files_known(count, files) {
        return definition::no_definition();
    }
    Definition {
        count,
        files: kept_tables::thawed_files(count, files),
    }
}

#[tactic(auto, unfolding(crate::specs::KeptStates::thawed))]
pub fn thawed(k: KeptState) -> State
    ensures { result ≡ thawed k }
{
    let KeptState {
        files,
        users,
        et_data,
        last_assigned,
        ..
    } = k;
    State {
        definition: thawed_table(k.count, files),
        clock: k.clock,
        users,
        et_data,
        last_assigned,
        count: k.entries,
        wait_queue: k.wait_queue,
    }
}

#[tactic(auto, unfolding(crate::specs::KeptStates::frozen))]
pub fn frozen(s: State) -> KeptState
    ensures { result ≡ frozen s }
{
    let State {
        users,
        et_data,
        last_assigned,
        ..
    } = s;
    let files = kept_tables::frozen_files(s.definition.files);
    KeptState {
        count: s.definition.count,
        files,
        clock: s.clock,
        users,
        et_data,
        last_assigned,
        entries: s.count,
        wait_queue: s.wait_queue,
    }
}

// The state that a call left, with the table as it is kept: no call changes that.
#[tactic(auto, unfolding(crate::specs::KeptStates::with_kept_table))]
fn with_kept_table(k: KeptState, s: State) -> KeptState
    ensures { result ≡ with_kept_table k s }
{
    let State {
        clock,
        users,
        et_data,
        last_assigned,
        count,
        wait_queue,
        definition: _,
    } = s;
    KeptState {
        clock,
        users,
        et_data,
        last_assigned,
        entries: count,
        wait_queue,
        ..k
    }
}

#[tactic(auto, unfolding(crate::specs::KeptStates::call_of))]
pub fn call_of(b: ControlBlock) -> Call
    ensures { result ≡ call_of b }
{
    let command = b.command;
    Call {
        command,
        option: b.option,
        user: b.user,
        file: b.file,
        isn: b.isn,
        limit: b.limit,
        clock: b.clock,
    }
}

#[tactic(auto, unfolding(crate::specs::KeptStates::answered))]
fn answered(b: ControlBlock, answer: Answer, response: u16) -> ControlBlock
    ensures { result ≡ answered response answer b }
{
    ControlBlock {
        response,
        answered_isn: answer.isn,
        sequence: answer.sequence,
        quantity: answer.quantity,
        ..b
    }
}

#[tactic(auto, unfolding(crate::specs::KeptStates::left_by))]
pub fn left_by(k: KeptState, b: ControlBlock, answer: Answer, after: State) -> Left
    ensures { result ≡ left_by k b answer after }
{
    let number = response_numbers::number(answer.response);
    Left {
        state: with_kept_table(k, after),
        block: answered(b, answer, number),
        response: u32::from(number),
    }
}
