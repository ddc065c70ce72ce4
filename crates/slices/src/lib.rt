// Small functions over lent slices and their lengths, for any slices and numbers.
#![tactic(auto)]

ghost use Rattle.std.specs.Prelude.{◌≡◌, ◌+◌, ◌*◌, ◌≤◌, ◌<◌, min, length, leb};
ghost use Rattle.lists.specs.Tests.{eqbs};
ghost use Rattle.lists.specs.Pieces.{piece};
ghost use Rattle.slices.specs.Slices.{copied};
ghost use Rattle.slices.specs.Eights.{as_number};

pub fn least(a: usize, b: usize) -> usize
    ensures { result ≡ min a b }
{
    a.min(b)
}

// Copies as many bytes as both have. A loop of our own: the library's `copy_from_slice` becomes a call of `memmove`, which the archive for C does not
// ask for.
pub fn copy(from: &[u8], to: &mut [u8])
    ensures { to.new ≡ copied from.now to.old }
{
    let n = from.len().min(to.len());
    for i in 0..n {
        to[i] = from[i];
    }
}

// Four bytes from a place on as one number, the first the lowest.
#[tactic(auto, using(crate::specs::Eights::number_of_four))]
fn four(a: &[u8], i: usize) -> u64
    requires { i + 4 ≤ length a.now }
    ensures value { result ≡ as_number (piece i 4 a.now) }
    ensures upper_bound { result < 4294967296 }
{
    u64::from(a[i])
        + u64::from(a[i + 1]) * 256
        + u64::from(a[i + 2]) * 65536
        + u64::from(a[i + 3]) * 16777216
}

// Eight bytes so: for the machine one load.
#[tactic(auto, using(crate::specs::Eights::number_of_eight))]
fn eight(a: &[u8], i: usize) -> u64
    requires { i + 8 ≤ length a.now }
    ensures { result ≡ as_number (piece i 8 a.now) }
{
    four(a, i) + four(a, i + 4) * 4294967296
}

// Whether two slices of one length of eight bytes or more are alike, eight at a time. Of the last eight some may have been compared before: so none
// is left to be compared alone.
fn same_eights(a: &[u8], b: &[u8]) -> bool
    requires a_len { length a.now ≡ length b.now }
    requires in_bounds { 8 ≤ length a.now }
    ensures { result ≡ eqbs a.now b.now }
{
    let last = a.len() - 8;
    // `while`: the step is eight. A `for` with `step_by(8)` takes more time for each.
    let mut i = 0;
    while i < last {
        if eight(a, i) != eight(b, i) {
            return false;
        }
        i += 8;
    }
    eight(a, last) == eight(b, last)
}

// Whether two slices are as long, and alike at every place.
#[tactic(auto, using(lists::specs::Tests::eqbs_lengths))]
pub fn same(a: &[u8], b: &[u8]) -> bool
    ensures { result ≡ eqbs a.now b.now }
{
    if a.len() != b.len() {
        return false;
    }
    if a.len() < 8 {
        return a == b;
    }
    same_eights(a, b)
}

// Whether `count` blocks of `width` bytes fit into `length` bytes. Their product may not fit a number.
pub fn blocks_fit(count: usize, width: usize, length: usize) -> bool
    ensures { result ≡ leb (count * width) length }
{
    count
        .checked_mul(width)
        .is_some_and(|bytes| bytes <= length)
}
