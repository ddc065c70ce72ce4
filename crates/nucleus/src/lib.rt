// The nucleus (document 01): what it keeps between calls, a call, and what a call answers. What a call does is said in specs/; the crates above
// have the code that is proved to do it.
#![tactic(auto)]

ghost use Rattle.std.specs.Prelude.{◌≡◌};
ghost use Rattle.nucleus.specs.Users.{opening};

use definition::{Definition, MAX_FILES};

pub const MAX_USERS: usize = 32;

// The most entries that a hold queue may have.
pub const MAX_CAPACITY: usize = 256;

pub const MAX_ET_DATA: usize = 64;

// The greatest sequence number; it is not passed.
pub const MAX_SEQUENCE: u32 = 4294967295;

// The thirteen commands in the order of the table of commands, and behind them the later ones.
#[derive(Clone, Copy, PartialEq, Eq)]
pub enum Command {
    Hi,
    Ri,
    L1,
    L4,
    A1,
    E1,
    N1,
    N2,
    Et,
    Bt,
    Re,
    Op,
    Cl,
    Pe,
}

pub const COMMANDS: usize = 13;

pub const LATER_COMMANDS: usize = 1;

pub const DIRECT_COMMANDS: usize = COMMANDS + LATER_COMMANDS;

// The options of a call.
pub const BLANK: u8 = b' ';

// L1 and L4: the lowest ISN at or above the given one.
pub const AT_OR_ABOVE: u8 = b'I';

// A1 and E1: take the hold.
pub const TAKE_HOLD: u8 = b'H';

// OP: access-only.
pub const ACCESS_ONLY: u8 = b'A';

// L1: the record as ended transactions left it.
pub const COMMITTED: u8 = b'C';

// HI and L4: wait in line for a record that another holds.
pub const WAIT: u8 = b'W';

// A call's arguments, but for its two buffers.
#[derive(Clone, Copy, PartialEq, Eq)]
pub struct Call {
    pub command: [u8; 2],
    pub option: u8,
    pub user: u8,
    pub file: u8,
    pub isn: u16,
    pub limit: u16,
    // In seconds.
    pub clock: u32,
}

// The causes of document 01's response table, in its order; `number` in specs/Responses.antt gives the number of each.
#[derive(Clone, Copy, PartialEq, Eq)]
pub enum Response {
    Good,
    DefinitionInvalid,
    BufferTooShort,
    StateInvalid,
    CommandUnknown,
    UserUnknown,
    BackedOut,
    TransactionReady,
    AccessOnly,
    NoTransaction,
    FileUnknown,
    IsnInvalid,
    FormatInvalid,
    FieldTwice,
    RecordLength,
    ValueInvalid,
    NotFound,
    Waiting,
    HeldByAnother,
    Presence,
    NotHeld,
    AlreadyChanged,
    FileFull,
    HoldLimit,
    QueueFull,
    ValueTaken,
}

#[derive(Clone, Copy, PartialEq, Eq)]
pub struct Answer {
    pub response: Response,
    pub isn: u16,
    pub quantity: usize,
    pub sequence: u32,
}

// All that is kept for a user's transaction: whether he is in one, the clock at which it began, and whether PE set it ready, so that it waits for
// ET or BT alone.
#[repr(C)]
#[derive(Clone, Copy, PartialEq, Eq)]
pub struct Transaction {
    pub begun: u32,
    pub active: bool,
    pub ready: bool,
}

// A user's session and transaction. What belongs to an ended session or transaction keeps its last values and decides nothing.
#[repr(C)]
#[derive(Clone, Copy, PartialEq, Eq)]
pub struct User {
    pub sequence: u32,
    pub transaction: Transaction,
    pub hold_limit: u16,
    pub time_limit: u16,
    pub session: bool,
    pub access_only: bool,
    // Backed out by the clock, and not told yet.
    pub overdue: bool,
}

impl User {
    pub const HOLD_LIMIT: u16 = 64;

    pub const TIME_LIMIT: u16 = 900;

    pub const SEQUENCE: u32 = 0;

    // A user whose session opens.
    pub fn opening() -> User
        ensures { result ≡ opening }
    {
        User {
            session: true,
            hold_limit: User::HOLD_LIMIT,
            time_limit: User::TIME_LIMIT,
            sequence: User::SEQUENCE,
            access_only: false,
            transaction: Transaction {
                active: false,
                begun: 0,
                ready: false,
            },
            overdue: false,
        }
    }
}

// A user's ET data: the first `length` bytes.
#[repr(C)]
#[derive(Clone, Copy, PartialEq, Eq)]
pub struct EtData {
    pub length: u8,
    pub bytes: [u8; MAX_ET_DATA],
}

// Who waits for which record, oldest first (document 02, No. 1: the lines of all records in one): a small hold queue of its own, with a place for
// each user. An entry of it is a user, a file and an ISN; its `changed` says that he waits by L4, and not by HI.
#[repr(C)]
#[derive(Clone, Copy, PartialEq, Eq)]
pub struct WaitQueue {
    pub places: [u64; MAX_USERS],
    // The places in use.
    pub waiting: usize,
}

#[derive(Clone, Copy)]
pub struct State {
    pub definition: Definition,
    pub clock: u32,
    // User 1 first, as in `et_data`.
    pub users: [User; MAX_USERS],
    pub et_data: [EtData; MAX_USERS],
    // The ISN that N1 last gave in each file, by the file's place in the table.
    pub last_assigned: [u16; MAX_FILES],
    // The entries in use in the hold queue.
    pub count: usize,
    pub wait_queue: WaitQueue,
}
