// The table of commands (document 01, 'The house call list') and that of the later ones: a command by its two letters.
#![tactic(auto)]

ghost use Rattle.std.specs.Prelude.{◌≡◌};
ghost use Rattle.nucleus.specs.Commands.{direct_commands, code_at, command_of};
ghost use Rattle.codes.specs.Codes.{later_code_at, letters_at, command_at};

use nucleus::{COMMANDS, Command, DIRECT_COMMANDS, LATER_COMMANDS};

// The code of each command, at its place. Letters stand in this table and the next alone.
const CODES: [[u8; 2]; COMMANDS] = [
    *b"HI", *b"RI", *b"L1", *b"L4", *b"A1", *b"E1", *b"N1", *b"N2", *b"ET", *b"BT", *b"RE", *b"OP",
    *b"CL",
];

// The codes of the later commands, whose places are behind these. No kind of a house call list stands for one.
const LATER_CODES: [[u8; 2]; LATER_COMMANDS] = [*b"PE"];

// The code at a place of the table, from 0; zeros past its end.
pub fn code_at(place: usize) -> [u8; 2]
    ensures { result ≡ code_at place }
{
    if place < COMMANDS {
        return CODES[place];
    }
    [0; 2]
}

// The code at a place of the later table, from 0; zeros past its end.
fn later_code_at(place: usize) -> [u8; 2]
    ensures { result ≡ later_code_at place }
{
    if place < LATER_COMMANDS {
        return LATER_CODES[place];
    }
    [0; 2]
}

// The code at a place of both tables, one behind the other.
#[tactic(auto, using(crate::specs::Laws::letters_first, crate::specs::Laws::letters_later))]
fn letters_at(place: usize) -> [u8; 2]
    ensures { result ≡ letters_at place }
{
    if COMMANDS <= place {
        return later_code_at(place - COMMANDS);
    }
    code_at(place)
}

// The command at a place of both tables, from 0.
#[tactic(auto, unfolding(crate::specs::Codes::command_at))]
fn command_at(place: usize) -> Option<Command>
    ensures { result ≡ command_at place }
{
    match place {
        0 => Some(Command::Hi),
        1 => Some(Command::Ri),
        2 => Some(Command::L1),
        3 => Some(Command::L4),
        4 => Some(Command::A1),
        5 => Some(Command::E1),
        6 => Some(Command::N1),
        7 => Some(Command::N2),
        8 => Some(Command::Et),
        9 => Some(Command::Bt),
        10 => Some(Command::Re),
        11 => Some(Command::Op),
        12 => Some(Command::Cl),
        13 => Some(Command::Pe),
        _ => None,
    }
}

// The command with the letters, sought in one table after the other.
pub fn command_of(letters: [u8; 2]) -> Option<Command>
    ensures { result ≡ command_of direct_commands letters }
{
    for i in 0..DIRECT_COMMANDS {
        if letters_at(i) == letters {
            return command_at(i);
        }
    }
    None
}
