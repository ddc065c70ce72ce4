// The options named for each command (document 01, the commands).
#![tactic(auto)]

ghost use Rattle.std.specs.Prelude.{◌&&◌, ◌≡◌, eqb};
ghost use Rattle.nucleus.specs.Commands.{one_of, reading_values, reading_committed, changing_held, may_wait, has_option, option_I, option_W};
ghost use Rattle.options.specs.Options.{opening_only};

use nucleus::{ACCESS_ONLY, AT_OR_ABOVE, BLANK, COMMITTED, Command, TAKE_HOLD, WAIT};

// L1 and L4.
fn reads_values(command: Command) -> bool
    ensures { result ≡ one_of reading_values command }
{
    matches!(command, Command::L1 | Command::L4)
}

// A1 and E1, which need a hold.
fn changes_held(command: Command) -> bool
    ensures { result ≡ one_of changing_held command }
{
    matches!(command, Command::A1 | Command::E1)
}

// L1, which may read what ended transactions left.
fn reads_committed(command: Command) -> bool
    ensures { result ≡ one_of reading_committed command }
{
    matches!(command, Command::L1)
}

// HI and L4, which may wait for a record that another holds.
fn may_wait(command: Command) -> bool
    ensures { result ≡ one_of may_wait command }
{
    matches!(command, Command::Hi | Command::L4)
}

fn opens(command: Command) -> bool
    ensures { result ≡ one_of opening_only command }
{
    matches!(command, Command::Op)
}

// Whether the option is named for the command; a blank is none.
pub fn has_option(command: Command, option: u8) -> bool
    ensures { result ≡ has_option command option }
{
    match option {
        BLANK => true,
        AT_OR_ABOVE => reads_values(command),
        TAKE_HOLD => changes_held(command),
        ACCESS_ONLY => opens(command),
        COMMITTED => reads_committed(command),
        WAIT => may_wait(command),
        _ => false,
    }
}

// L1 and L4 with option `I`, which seek their ISN.
pub fn seeks(command: Command, option: u8) -> bool
    ensures { result ≡ (one_of reading_values command && eqb option option_I) }
{
    reads_values(command) && option == AT_OR_ABOVE
}

// HI and L4 with option `W`, which wait in line.
pub fn waits(command: Command, option: u8) -> bool
    ensures { result ≡ (one_of may_wait command && eqb option option_W) }
{
    may_wait(command) && option == WAIT
}
