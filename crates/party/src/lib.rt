// The loop of `partycall` (document 01, 'The house call list'): a definition table and then one call after another are read, and for each call its
// line is printed. What has to be decided is decided below; here it is read and written. Nothing is held but the table and one call.
#![tactic(auto)]

ghost use Rattle.std.specs.Prelude.{◌≡◌, ◌-◌, ◌^◌, ◌≤◌, ◌<◌, ◌∷◌, ◌++◌, [], length, IfOk, OnOk, IfSome, IsNone};
ghost use Rattle.std.specs.Io.KnownBytes.{Appends};
ghost use Rattle.lines.specs.Lines.{Within};
ghost use Rattle.nucleus.specs.Nucleus.{nucleus};
ghost use Rattle.nucleus.specs.Step.{step};
ghost use Rattle.nucleus.specs.Line.{line_of};
ghost use Rattle.output.specs.Output.{bad, capacity, newline, output};
ghost use Rattle.party.specs.Serving.{Filled, ItemRead, NoItem, TableFound, CallPrinted, lines_of, OneServed};

use house::MAX_BUFFER;
use nucleus::{Answer, Call, State};
use std::io;
use std::io::{Read, Write};

// 16 files of 16 fields, and the end: a longer table breaks a rule (house, `table_most`).
const MAX_TABLE: usize = 1601;

// "It has a store of 32768 bytes and H 64"; an image takes at most 512 bytes.
const STORE: usize = 32768;

const CAPACITY: usize = 64;

const IMAGES: usize = 32768;

// A line has at most 84 bytes, and two for each of a record buffer (lines, `line_most`); then comes its end.
const LINE: usize = 155;

fn print_bad<W: Write>(out: &mut W) -> io::Result<()>
    ensures { OnOk result (Appends (W.contents out.old) (W.contents out.new) bad) }
{
    out.write_all(b"bad\n")
}

// Reads until the buffer is full or the input ends; answers how many bytes came.
fn read_full<R: Read>(input: &mut R, buffer: &mut [u8]) -> io::Result<usize>
    ensures within { IfOk result (λ n. Within n buffer.new) }
    ensures bytes { IfOk result (λ n. Filled (R.remaining input.old) (R.remaining input.new) n buffer.new) }
{
    let mut done = 0;
    while done < buffer.len() {
        let n = input.read(&mut buffer[done..])?;
        if n == 0 {
            break;
        }
        done += n;
    }
    Ok(done)
}

// The next item, read to a place of the table; answers the place behind it, or none where it is cut, unknown or finds no room.
fn read_item<R: Read>(input: &mut R, table: &mut [u8], at: usize) -> io::Result<Option<usize>>
    ensures within { IfOk result (λ r. IfSome r (λ next. (at < next) × (next ≤ length table.old))) }
    ensures item { IfOk result (λ r. IfSome r (λ next. IfSome (R.remaining input.old) (λ xs. ItemRead xs (R.remaining input.new) at next table.old table.new))) }
    ensures none { IfOk result (λ r. IsNone r → IfSome (R.remaining input.old) (λ xs. NoItem xs (length table.old - at))) }
{
    if table.len() <= at {
        return Ok(None);
    }
    let body = at + 1;
    if read_full(input, &mut table[at..body])? != 1 {
        return Ok(None);
    }
    let Some(n) = house::rest_of_item(table[at]) else {
        return Ok(None);
    };
    if table.len() - body < n {
        return Ok(None);
    }
    let end = body + n;
    if read_full(input, &mut table[body..end])? != n {
        return Ok(None);
    }
    Ok(Some(end))
}

// The items up to the end, which is one of a single byte; answers the table's length, or none where it has no end.
fn read_table<R: Read>(input: &mut R, table: &mut [u8]) -> io::Result<Option<usize>>
    ensures within { IfOk result (λ r. IfSome r (λ n. Within n table.new)) }
    ensures found { 1601 ≤ length table.old → IfOk result (λ r. IfSome (R.remaining input.old) (λ xs. TableFound xs (R.remaining input.new) r table.new)) }
{
    let mut at = 0;
    while at < table.len() {
        let Some(next) = read_item(input, table, at)? else {
            return Ok(None);
        };
        if next == at + 1 {
            return Ok(Some(next));
        }
        at = next;
    }
    Ok(None)
}

// A line and its end go out by one call of the system.
fn print_line<W: Write>(out: &mut W, call: Call, answer: Answer, buffer: &[u8]) -> io::Result<()>
    requires { length buffer.now ≤ 35 }
    ensures { OnOk result (Appends (W.contents out.old) (W.contents out.new) (line_of call answer buffer.now ++ newline ∷ [])) }
{
    let mut line = [0u8; LINE];
    let n = lines::line(call, answer, buffer, &mut line);
    line[n] = b'\n';
    out.write_all(&line[..n + 1])
}

fn call_and_print<W: Write>(
    out: &mut W,
    call: Call,
    state: State,
    store: &mut [u8],
    queue: &mut [u64],
    images: &mut [u8],
    format: &[u8],
    buffer: &mut [u8],
) -> io::Result<State>
    requires { length buffer.old ≤ 35 }
    ensures { IfOk result (λ next. CallPrinted call buffer.old (step capacity call format.now buffer.old (nucleus state store.old queue.old images.old))
        (W.contents out.old) (W.contents out.new) (nucleus next store.new queue.new images.new)) }
{
    let outcome = calls::step(state, CAPACITY, call, store, queue, images, format, buffer);
    print_line(out, call, outcome.answer, buffer)?;
    Ok(outcome.state)
}

// The next call, where there is one.
fn serve_one<R: Read, W: Write>(
    input: &mut R,
    out: &mut W,
    state: State,
    store: &mut [u8],
    queue: &mut [u64],
    images: &mut [u8],
) -> io::Result<Option<State>>
    ensures { IfOk result (λ next. IfSome (R.remaining input.old) (λ xs. OneServed xs (R.remaining input.new) (W.contents out.old) (W.contents out.new)
        (nucleus state store.old queue.old images.old) next store.new queue.new images.new)) }
{
    let mut bytes = [0u8; house::CALL];
    let n = read_full(input, &mut bytes)?;
    if n == 0 {
        return Ok(None);
    }
    let Some(sent) = house::read_call(&bytes[..n]) else {
        print_bad(out)?;
        return Ok(None);
    };
    let mut copy = [0u8; MAX_BUFFER];
    let buffer = &mut copy[..sent.buffer.len()];
    buffer.copy_from_slice(sent.buffer);
    let next = call_and_print(
        out,
        sent.call,
        state,
        store,
        queue,
        images,
        sent.format,
        buffer,
    )?;
    Ok(Some(next))
}

// The calls to the end of the input. No list has more calls than the loop, but a loop has to end, and nothing says that the input does.
fn serve<R: Read, W: Write>(
    input: &mut R,
    out: &mut W,
    mut state: State,
    store: &mut [u8],
    queue: &mut [u64],
    images: &mut [u8],
) -> io::Result<()>
    ensures { OnOk result (IfSome (R.remaining input.old) (λ xs. length xs < 2 ^ 64 → Appends (W.contents out.old) (W.contents out.new)
        (lines_of xs (nucleus state store.old queue.old images.old)))) }
{
    for _ in 0..u64::MAX {
        match serve_one(input, out, state, store, queue, images)? {
            Some(next) => state = next,
            None => return Ok(()),
        }
    }
    Ok(())
}

// Reads a table and calls to the end of the input, and prints what document 01 says: for an input whose bytes are known, `output` of them, behind what
// the writer holds. An error is of a read or a write that failed, and then no more is read or printed.
pub fn run<R: Read, W: Write>(input: &mut R, out: &mut W) -> io::Result<()>
    ensures { OnOk result (IfSome (R.remaining input.old) (λ xs. length xs < 2 ^ 64 → Appends (W.contents out.old) (W.contents out.new) (output xs))) }
{
    let mut table = [0u8; MAX_TABLE];
    let Some(length) = read_table(input, &mut table)? else {
        return print_bad(out);
    };
    let mut store = [0u8; STORE];
    let mut queue = [0u64; CAPACITY];
    let mut images = [0u8; IMAGES];
    let nucleus = setup::set_up(&table[..length], CAPACITY, &mut store, &queue, &images);
    if response_numbers::number(nucleus.response) != 0 {
        return print_bad(out);
    }
    serve(
        input,
        out,
        nucleus.state,
        &mut store,
        &mut queue,
        &mut images,
    )
}
