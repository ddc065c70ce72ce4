// One call (document 01, 'One call'): every check in the table's order, the clock, and the command. The state comes and goes by value, here
// alone; store, hold queue, image buffer, format and record buffer are lent, and may be longer than is needed.
#![tactic(auto)]

ghost use Rattle.std.specs.Prelude.{true, ◌≡◌, ◌≤◌, length};
ghost use Rattle.layout.specs.Layout.{store_size, place};
ghost use Rattle.nucleus.specs.Responses.{refused};
ghost use Rattle.validity.specs.Validity.{valid};
ghost use Rattle.nucleus.specs.Nucleus.{nucleus, request, resulting};
ghost use Rattle.nucleus.specs.Target.{assigned_in};
ghost use Rattle.nucleus.specs.Step.{perform, step};
ghost use Rattle.shares.specs.Shares.{assigned_with};
ghost use Rattle.calls.specs.Outcome.{outcome};
ghost use Rattle.calls.specs.StepLaws.{served_lined};
ghost use Rattle.file_commands.specs.FileCommands.{left};
ghost use Rattle.calls.specs.Commands.{in_file, performed};
ghost use Rattle.nucleus.specs.declared.Command.TheVariants.{Ri};

use definition::{Definition, MAX_FILES};
use handing::Standing;
use nucleus::{Answer, Call, Command, MAX_CAPACITY, Response, State};
use shares::{Done, Share};

// What a call answers, and the state that it leaves.
#[derive(Clone, Copy)]
pub struct Outcome {
    pub answer: Answer,
    pub state: State,
}

// 17 and 113, and then the command on the file that was found.
fn in_file(
    command: Command,
    call: Call,
    most: usize,
    clock: u32,
    share: Share,
    d: Definition,
    found: Option<usize>,
    store: &mut [u8],
    queue: &mut [u64],
    images: &mut [u8],
    format: &[u8],
    buffer: &mut [u8],
) -> Done
    requires found_value { found ≡ place d call.file }
    requires d_in_bounds { store_size d ≤ length store.old }
    ensures { left result store.new queue.new images.new buffer.new
        ≡ in_file call most clock share d store.old queue.old images.old format.now buffer.old found command }
{
    let Some(i) = found else {
        return shares::refused(Response::FileUnknown, share);
    };
    let f = definition::file_at(d, i);
    if understanding::isn_refused(command, call, f.max_isn) {
        return shares::refused(Response::IsnInvalid, share);
    }
    let width = layout::image_length(d);
    let start = layout::file_offset(d, i);
    let end = start + layout::file_size(f);
    file_commands::on_file(
        command,
        call,
        most,
        width,
        clock,
        share,
        f,
        &mut store[start..end],
        queue,
        images,
        format,
        buffer,
    )
}

// RI of ISN 0 is about all files, and looks at none.
fn ri(
    call: Call,
    most: usize,
    clock: u32,
    share: Share,
    d: Definition,
    found: Option<usize>,
    store: &mut [u8],
    queue: &mut [u64],
    images: &mut [u8],
    format: &[u8],
    buffer: &mut [u8],
) -> Done
    requires found_value { found ≡ place d call.file }
    requires d_in_bounds { store_size d ≤ length store.old }
    ensures { left result store.new queue.new images.new buffer.new
        ≡ performed call most clock share d store.old queue.old images.old format.now buffer.old Ri }
{
    if call.isn == 0 {
        return releasing::ri(call, share, queue, images, layout::image_length(d));
    }
    in_file(
        Command::Ri,
        call,
        most,
        clock,
        share,
        d,
        found,
        store,
        queue,
        images,
        format,
        buffer,
    )
}

// Any command past 212. `found` is the place of the call's file, which only commands about a file look at.
fn perform(
    command: Command,
    call: Call,
    most: usize,
    clock: u32,
    share: Share,
    d: Definition,
    found: Option<usize>,
    store: &mut [u8],
    queue: &mut [u64],
    images: &mut [u8],
    format: &[u8],
    buffer: &mut [u8],
) -> Done
    requires found_value { found ≡ place d call.file }
    requires d_in_bounds { store_size d ≤ length store.old }
    ensures { left result store.new queue.new images.new buffer.new
        ≡ performed call most clock share d store.old queue.old images.old format.now buffer.old command }
{
    match command {
        Command::Et => ending::et(call, share, queue, images, layout::image_length(d), buffer),
        Command::Bt => backing_out::bt(
            call,
            d,
            layout::image_length(d),
            share,
            store,
            queue,
            images,
        ),
        Command::Re => user_data::re(share, buffer),
        Command::Op => session_commands::op(call, share),
        Command::Cl => session_commands::cl(share),
        Command::Pe => ending::pe(share),
        Command::Ri => ri(
            call, most, clock, share, d, found, store, queue, images, format, buffer,
        ),
        Command::Hi
        | Command::L1
        | Command::L4
        | Command::A1
        | Command::E1
        | Command::N1
        | Command::N2 => in_file(
            command, call, most, clock, share, d, found, store, queue, images, format, buffer,
        ),
    }
}

fn refused(cause: Response, state: State) -> Outcome
    ensures { result ≡ outcome (refused cause) state }
{
    Outcome {
        answer: Answer {
            response: cause,
            isn: 0,
            quantity: 0,
            sequence: 0,
        },
        state,
    }
}

// The ISN that N1 last gave in the file that was found.
fn assigned_in(assigned: [u16; MAX_FILES], found: Option<usize>) -> u16
    ensures { result ≡ assigned_in assigned found }
{
    found.and_then(|i| assigned.get(i)).copied().unwrap_or(0)
}

fn assigned_with(mut assigned: [u16; MAX_FILES], found: Option<usize>, isn: u16) -> [u16; MAX_FILES]
    ensures { result ≡ assigned_with assigned found isn }
{
    if let Some(i) = found
        && i < MAX_FILES
    {
        assigned[i] = isn;
    }
    assigned
}

// A command past 212: the caller's share of the state goes to it, and what it leaves of that goes back.
fn serve(
    command: Command,
    mut state: State,
    capacity: usize,
    call: Call,
    store: &mut [u8],
    queue: &mut [u64],
    images: &mut [u8],
    format: &[u8],
    buffer: &mut [u8],
) -> Outcome
    requires le_user { (1 ≤ call.user) × (call.user ≤ 32) }
    requires definition_value { valid state.definition ≡ true }
    requires definition_in_bounds { (store_size state.definition ≤ length store.old) × (capacity ≤ length queue.old) }
    ensures { resulting result.answer (nucleus result.state store.new queue.new images.new) buffer.new
        ≡ perform (request capacity command call format.now buffer.old) (nucleus state store.old queue.old images.old) }
{
    let d = state.definition;
    let at = usize::from(call.user - 1);
    let found = layout::place(d, call.file);
    let share = Share {
        user: state.users[at],
        et_data: state.et_data[at],
        last_assigned: assigned_in(state.last_assigned, found),
        count: state.count,
        waits: waiters::in_line(state.wait_queue, call.user),
    };
    let done = perform(
        command,
        call,
        capacity,
        state.clock,
        share,
        d,
        found,
        store,
        queue,
        images,
        format,
        buffer,
    );
    let after = done.share;
    state.users[at] = after.user;
    state.et_data[at] = after.et_data;
    state.last_assigned = assigned_with(state.last_assigned, found, after.last_assigned);
    state.count = after.count;
    Outcome {
        answer: done.answer,
        state,
    }
}

// A command past 212, and the line after it.
fn serve_lined(
    command: Command,
    state: State,
    capacity: usize,
    call: Call,
    store: &mut [u8],
    queue: &mut [u64],
    images: &mut [u8],
    format: &[u8],
    buffer: &mut [u8],
) -> Outcome
    requires le_user { (1 ≤ call.user) × (call.user ≤ 32) }
    requires definition_value { valid state.definition ≡ true }
    requires definition_in_bounds { (store_size state.definition ≤ length store.old) × (capacity ≤ length queue.old) }
    ensures { resulting result.answer (nucleus result.state store.new queue.new images.new) buffer.new
        ≡ served_lined (request capacity command call format.now buffer.old) (nucleus state store.old queue.old images.old) }
{
    let mut words = [0u64; MAX_CAPACITY];
    let n = settling::let_go(command, call, queue, state.count, &mut words);
    let mut outcome = serve(
        command, state, capacity, call, store, queue, images, format, buffer,
    );
    let after = outcome.state;
    let users = after.users;
    let standing = Standing {
        users,
        count: after.count,
        wait_queue: after.wait_queue,
    };
    let left = settling::settle(
        command,
        call,
        outcome.answer.response,
        after.definition,
        after.clock,
        standing,
        &words,
        n,
        store,
        queue,
    );
    let left_users = left.users;
    outcome.state.users = left_users;
    outcome.state.count = left.count;
    outcome.state.wait_queue = left.wait_queue;
    outcome
}

// One call, for any state, capacity, call and buffers.
pub fn step(
    mut state: State,
    capacity: usize,
    call: Call,
    store: &mut [u8],
    queue: &mut [u64],
    images: &mut [u8],
    format: &[u8],
    buffer: &mut [u8],
) -> Outcome
    ensures { resulting result.answer (nucleus result.state store.new queue.new images.new) buffer.new
        ≡ step capacity call format.now buffer.old (nucleus state store.old queue.old images.old) }
{
    if let Err(cause) = usability::usable(state, capacity, store, queue, images) {
        return refused(cause, state);
    }
    let command = match understanding::understand(call) {
        Ok(command) => command,
        Err(cause) => return refused(cause, state),
    };
    let users = state.users;
    let standing = Standing {
        users,
        count: state.count,
        wait_queue: state.wait_queue,
    };
    let admitted = admission::admit(
        command,
        call,
        state.definition,
        state.clock,
        standing,
        store,
        queue,
        images,
    );
    let left = admitted.standing;
    state.clock = admitted.clock;
    let left_users = left.users;
    state.users = left_users;
    state.count = left.count;
    state.wait_queue = left.wait_queue;
    if let Err(cause) = admitted.verdict {
        return refused(cause, state);
    }
    serve_lined(
        command, state, capacity, call, store, queue, images, format, buffer,
    )
}
