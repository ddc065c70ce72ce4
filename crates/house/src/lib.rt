// The house call list (document 01) as `partycall` reads it: the items of a definition table, and the calls.
#![tactic(auto)]

ghost use Rattle.std.specs.Prelude.{◌≡◌, ◌+◌, ◌≤◌, ◌<◌, length, option_map, IfSome};
ghost use Rattle.house.specs.House.{rest_of_item, byte, pair, four, well_formed, arguments, call_of, sent_as, Lengths};

use nucleus::{COMMANDS, Call};

// The bytes of a call, its kind with them.
pub const CALL: usize = 65;

// The places of a call's parts.
const KIND: usize = 0;

const USER: usize = 1;

const OPTION: usize = 2;

const FILE: usize = 3;

const ISN: usize = 4;

const LIMIT: usize = 6;

const CLOCK: usize = 8;

const FORMAT_LENGTH: usize = 12;

const FORMAT: usize = 13;

const BUFFER_LENGTH: usize = 29;

const BUFFER: usize = 30;

const MAX_FORMAT: usize = 16;

// The most bytes of a record buffer in a list.
pub const MAX_BUFFER: usize = 35;

#[tactic(auto, unfolding(crate::specs::House::rest_of_item))]
pub fn rest_of_item(kind: u8) -> Option<usize>
    ensures { result ≡ rest_of_item kind }
{
    match kind {
        0 => Some(0),
        1 => Some(3),
        2 => Some(5),
        _ => None,
    }
}

// A call with its format and record buffer, as they lie in its bytes.
#[derive(Clone, Copy)]
pub struct Sent<'a> {
    pub call: Call,
    pub format: &'a [u8],
    pub buffer: &'a [u8],
}

// The high byte first.
fn pair(bytes: &[u8], at: usize) -> u16
    requires { at + 1 < length bytes.now }
    ensures { result ≡ pair bytes.now at }
{
    u16::from_be_bytes([bytes[at], bytes[at + 1]])
}

fn four(bytes: &[u8], at: usize) -> u32
    requires { at + 3 < length bytes.now }
    ensures { result ≡ four bytes.now at }
{
    u32::from(pair(bytes, at)) * 65536 + u32::from(pair(bytes, at + 2))
}

#[tactic(auto, unfolding(crate::specs::House::well_formed))]
fn well_formed(bytes: &[u8]) -> bool
    ensures { result ≡ well_formed bytes.now }
{
    CALL <= bytes.len()
        && (1..=COMMANDS).contains(&usize::from(bytes[KIND]))
        && usize::from(bytes[FORMAT_LENGTH]) <= MAX_FORMAT
        && usize::from(bytes[BUFFER_LENGTH]) <= MAX_BUFFER
}

fn arguments(bytes: &[u8]) -> Call
    requires in_bounds { 65 ≤ length bytes.now }
    requires bound { 1 ≤ byte bytes.now 0 }
    ensures { result ≡ arguments bytes.now }
{
    Call {
        command: codes::code_at(usize::from(bytes[KIND] - 1)),
        option: bytes[OPTION],
        user: bytes[USER],
        file: bytes[FILE],
        isn: pair(bytes, ISN),
        limit: pair(bytes, LIMIT),
        clock: four(bytes, CLOCK),
    }
}

// The call at the front of the bytes, where it is a good one.
pub fn read_call(bytes: &[u8]) -> Option<Sent<'_>>
    ensures result_value { option_map sent_as result ≡ call_of bytes.now }
    ensures lengths { IfSome result Lengths }
{
    if !well_formed(bytes) {
        return None;
    }
    let format_end = FORMAT + usize::from(bytes[FORMAT_LENGTH]);
    let buffer_end = BUFFER + usize::from(bytes[BUFFER_LENGTH]);
    Some(Sent {
        call: arguments(bytes),
        format: &bytes[FORMAT..format_end],
        buffer: &bytes[BUFFER..buffer_end],
    })
}
