// What `partycall` prints for a call (document 01, 'The house call list'): a line, in a lent buffer.
#![tactic(auto)]

ghost use Rattle.std.specs.Prelude.{◌≡◌, ◌&&◌, not, ◌∷◌, ◌++◌, ◌+◌, ◌*◌, ◌≤◌, ◌<◌, eqb, length};
ghost use Rattle.std.specs.Prelude.{Some};
ghost use Rattle.nucleus.specs.Commands.{direct_commands, command_of};
ghost use Rattle.nucleus.specs.Line.{digit, decimal, hexadecimal, shows, numbers_part, line_of};
ghost use Rattle.lines.specs.Lines.{Within, Put, Front, put_length, put_front};

use nucleus::{Answer, Call, Command};

// As ASCII, to `F`.
fn digit(d: u8) -> u8
    requires { d < 16 }
    ensures { result ≡ digit d }
{
    if d < 10 { b'0' + d } else { b'A' - 10 + d }
}

// A number's digits at a place of `out`, the most significant first; answers the place behind them, as the next ones do.
fn put_decimal(n: u64, at: usize, out: &mut [u8]) -> usize
    requires { at + length (decimal n) ≤ length out.old }
    ensures { Put out.old at (decimal n) result out.new }
{
    if n < 10 {
        out[at] = digit(n as u8);
        return at + 1;
    }
    let last = put_decimal(n / 10, at, out);
    out[last] = digit((n % 10) as u8);
    last + 1
}

// A blank and a number.
fn put_next(n: u64, at: usize, out: &mut [u8]) -> usize
    requires { at + 21 ≤ length out.old }
    ensures { Put out.old at (32 ∷ decimal n) result out.new }
{
    out[at] = b' ';
    put_decimal(n, at + 1, out)
}

// Four numbers of at most twenty digits, and the blanks between them.
const NUMBERS: usize = 83;

fn put_numbers(answer: Answer, out: &mut [u8]) -> usize
    requires { 83 ≤ length out.old }
    ensures { Put out.old 0 (numbers_part answer) result out.new }
{
    let response = answer.response;
    let first = put_decimal(response_numbers::number(response) as u64, 0, out);
    let second = put_next(answer.isn as u64, first, out);
    let third = put_next(answer.quantity as u64, second, out);
    put_next(answer.sequence as u64, third, out)
}

// Two digits for each byte.
fn put_hexadecimal(bytes: &[u8], at: usize, out: &mut [u8]) -> usize
    requires { at + 2 * length bytes.now ≤ length out.old }
    ensures { Put out.old at (hexadecimal bytes.now) result out.new }
{
    let mut to = at;
    for byte in bytes {
        out[to] = digit(byte / 16);
        out[to + 1] = digit(byte % 16);
        to += 2;
    }
    to
}

// The commands that read.
fn reads(command: Command) -> bool
    ensures { result ≡ shows (Some command) }
{
    matches!(command, Command::L1 | Command::L4 | Command::Re)
}

// Whether the bytes that a call wrote stand in its line.
fn shows(letters: [u8; 2], quantity: usize) -> bool
    ensures { result ≡ (shows (command_of direct_commands letters) && not (eqb quantity 0)) }
{
    quantity != 0 && codes::command_of(letters).is_some_and(reads)
}

// Bytes at the front of `out`, or nothing where it is too short for them, as the next ones do.
fn put_front(new: &[u8], out: &mut [u8]) -> usize
    ensures { Front new.now out.old result out.new }
{
    let n = new.len();
    if out.len() < n {
        return 0;
    }
    slices::copy(new, &mut out[..n]);
    n
}

// Numbers, a blank and the digits of bytes.
fn put_both(numbers: &[u8], bytes: &[u8], out: &mut [u8]) -> usize
    ensures { Front (numbers.now ++ 32 ∷ hexadecimal bytes.now) out.old result out.new }
{
    let n = numbers.len();
    if out.len() <= n {
        return 0;
    }
    if (out.len() - n - 1) / 2 < bytes.len() {
        return 0;
    }
    slices::copy(numbers, &mut out[..n]);
    out[n] = b' ';
    put_hexadecimal(bytes, n + 1, out)
}

// The line of a call that answered, and left its record buffer so, at the front of `out`; answers its length. Where `out` is too short for it nothing
// is written, and 0 answered.
pub fn line(call: Call, answer: Answer, buffer: &[u8], out: &mut [u8]) -> usize
    ensures value { result ≡ put_length (line_of call answer buffer.now) out.old }
    ensures out_after { out.new ≡ put_front (line_of call answer buffer.now) out.old }
    ensures within { Within result out.new }
{
    let mut numbers = [0u8; NUMBERS];
    let n = put_numbers(answer, &mut numbers);
    let quantity = answer.quantity;
    let letters = call.command;
    if shows(letters, quantity) {
        let count = slices::least(quantity, buffer.len());
        return put_both(&numbers[..n], &buffer[..count], out);
    }
    put_front(&numbers[..n], out)
}
