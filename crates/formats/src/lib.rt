// The format buffer's rows of the response table (document 01), for the five commands that read one: whether a format buffer and the record
// buffer beside it serve. Both are seen whole.
#![tactic(auto)]

ghost use Rattle.std.specs.Prelude.{◌≡◌, ◌∷◌};
ghost use Rattle.nucleus.specs.Rows.{first_cause};
ghost use Rattle.shares.specs.Shares.{verdict};
ghost use Rattle.shares.specs.Chains.{row_scratch, rows_read, rows_brought};
ghost use Rattle.formats.specs.Formats.{rows_judged};

use definition::{File, MAX_RECORD_LENGTH};
use nucleus::Response;

// 41, 44, 53 and 55; of them 44 and 55 where the record buffer brings values.
fn judged(f: File, brings: bool, format: &[u8], buffer: &[u8]) -> Result<(), Response>
    ensures { result ≡ verdict (first_cause (rows_judged brings f format.now buffer.now)) }
{
    if !elements::format_valid(f, format) {
        return Err(Response::FormatInvalid);
    }
    if brings && elements::named_twice(f, format) {
        return Err(Response::FieldTwice);
    }
    if elements::needed_within(f, format, buffer.len()).is_none() {
        return Err(Response::RecordLength);
    }
    if brings && !fields::values_allowed(f, format, buffer) {
        return Err(Response::ValueInvalid);
    }
    Ok(())
}

// Whether the named fields can be read into the record buffer (L1, L4).
pub fn readable(f: File, format: &[u8], buffer: &[u8]) -> Result<(), Response>
    ensures { result ≡ verdict (first_cause (rows_read f format.now buffer.now)) }
{
    judged(f, false, format, buffer)
}

// Whether the record buffer brings values for the named fields (A1, N1, N2).
pub fn brought(f: File, format: &[u8], buffer: &[u8]) -> Result<(), Response>
    ensures { result ≡ verdict (first_cause (rows_brought f format.now buffer.now)) }
{
    judged(f, true, format, buffer)
}

// The same of a record that is to be made, before them that it has its place; of a file of a valid table each has.
pub fn storable(f: File, format: &[u8], buffer: &[u8]) -> Result<(), Response>
    ensures { result ≡ verdict (first_cause (row_scratch f ∷ rows_brought f format.now buffer.now)) }
{
    if MAX_RECORD_LENGTH < records::record_length(f) {
        return Err(Response::StateInvalid);
    }
    brought(f, format, buffer)
}
