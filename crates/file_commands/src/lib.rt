// Commands about a file (document 01: HI to N2), on that file and its part of the store.
#![tactic(auto)]

ghost use Rattle.std.specs.Prelude.{◌≡◌};
ghost use Rattle.file_commands.specs.FileCommands.{left, on_file};

use definition::File;
use nucleus::{Call, Command, Response};
use shares::{Done, Share};

// A command about a file, on that file and its part of the store. Commands about none have been served before.
pub fn on_file(
    command: Command,
    call: Call,
    most: usize,
    width: usize,
    clock: u32,
    share: Share,
    f: File,
    part: &mut [u8],
    queue: &mut [u64],
    images: &mut [u8],
    format: &[u8],
    buffer: &mut [u8],
) -> Done
    ensures { left result part.new queue.new images.new buffer.new
        ≡ on_file call most width clock share f part.old queue.old images.old format.now buffer.old command }
{
    match command {
        Command::Hi => holding::hi(call, most, clock, share, f, part, queue),
        Command::Ri => releasing::ri(call, share, queue, images, width),
        Command::L1 => { retrieval::l1(call, share, width, f, part, queue, images, format, buffer) }
        Command::L4 => { retrieval::l4(call, most, clock, share, f, part, queue, format, buffer) }
        Command::A1 => updating::a1(
            call, most, width, clock, share, f, part, queue, images, format, buffer,
        ),
        Command::E1 => deleting::e1(call, most, width, clock, share, f, part, queue, images),
        Command::N1 => adding::n1(
            call, most, width, clock, share, f, part, queue, images, format, buffer,
        ),
        Command::N2 => adding::n2(
            call, most, width, clock, share, f, part, queue, images, format, buffer,
        ),
        Command::Et | Command::Bt | Command::Re | Command::Op | Command::Cl | Command::Pe => {
            shares::refused(Response::CommandUnknown, share)
        }
    }
}
