// Moving values between a record and a record buffer, by the names of a format buffer: what L1 and L4 write, what A1, N1 and N2 store.
// `content` is the bytes of one record; to be written, it is lent as a part of the store that starts in its middle.
#![tactic(auto)]

ghost use Rattle.std.specs.Prelude.{◌≡◌, ◌+◌, ◌≤◌, length, drop};
ghost use Rattle.std.proofs.lemmas.List.Edits.{sets};
ghost use Rattle.lists.specs.Tests.{cond};
ghost use Rattle.elements.specs.Elements.{element, length_needed};
ghost use Rattle.fields.specs.Fields.{span_of, span_bytes, span_written, span_allowed, fits, read_fields, write_fields, values_allowed};

use definition::{File, Format};
use elements::ELEMENT;

// Where a field lies in its record, and what lies there.
#[derive(Clone, Copy)]
struct Span {
    start: usize,
    length: usize,
    format: Format,
}

// The span of a field that was found. No bytes, at the front, where none was: reading and writing them does nothing.
fn span_of(f: File, found: Option<usize>) -> Span
    ensures { result ≡ span_of f found }
{
    let Some(k) = found else {
        return Span {
            start: 0,
            length: 0,
            format: Format::Alphanumeric,
        };
    };
    let g = definition::field_at(f, k);
    Span {
        start: records::field_offset(f, k),
        length: usize::from(g.length),
        format: g.format,
    }
}

// The span of the field that the element at a byte of the format buffer names.
fn span_at(f: File, format: &[u8], i: usize) -> Span
    ensures { result ≡ span_of f (element f format.now i) }
{
    span_of(f, elements::element(f, format, i))
}

// Copies the bytes of a span into the buffer at a place.
#[tactic(auto, using(slices::specs::Laws::copied_whole, lists::specs::Parts::patched_sets, lists::specs::Parts::part_take, lists::specs::Parts::length_piece))]
fn read_span(s: Span, content: &[u8], buffer: &mut [u8], at: usize)
    requires length_in_bounds { s.start + s.length ≤ length content.now }
    requires length_in_bounds_2 { at + s.length ≤ length buffer.old }
    ensures { buffer.new ≡ sets buffer.old at (span_bytes s content.now) }
{
    slices::copy(
        &content[s.start..s.start + s.length],
        &mut buffer[at..at + s.length],
    );
}

// Puts the value at a place, in stored form, into a span.
fn write_span(s: Span, values: &[u8], content: &mut [u8], at: usize)
    requires length_in_bounds { s.start + s.length ≤ length content.old }
    requires length_in_bounds_2 { at + s.length ≤ length values.now }
    ensures { content.new ≡ span_written s (drop at values.now) content.old }
{
    values::put_stored(
        s.format,
        &values[at..at + s.length],
        &mut content[s.start..s.start + s.length],
    );
}

// Whether the value at a place is allowed in a span.
#[tactic(auto, using(lists::specs::Parts::part_take))]
fn allowed_span(s: Span, values: &[u8], at: usize) -> bool
    requires { at + s.length ≤ length values.now }
    ensures { result ≡ span_allowed s (drop at values.now) }
{
    digits::allowed(s.format, &values[at..at + s.length])
}

// Writes the named fields of the record at the front of the record buffer and answers how many bytes those are; writes nothing where the
// buffer is too short for them, or the record is shorter than the file's.
pub fn read_fields(f: File, format: &[u8], content: &[u8], buffer: &mut [u8]) -> usize
    ensures value { result ≡ cond (fits f format.now buffer.old content.now) (length_needed f format.now) 0 }
    ensures buffer_after { buffer.new ≡ read_fields f format.now content.now buffer.old }
{
    if elements::needed_within(f, format, buffer.len()).is_none() {
        return 0;
    }
    if content.len() < records::record_length(f) {
        return 0;
    }
    let mut at = 0;
    for i in (0..format.len()).step_by(ELEMENT) {
        let s = span_at(f, format, i);
        read_span(s, content, buffer, at);
        at += s.length;
    }
    at
}

// Puts the values, each in stored form, into the named fields of the record; changes nothing where there are too few values, or the record is
// shorter than the file's.
pub fn write_fields(f: File, format: &[u8], values: &[u8], content: &mut [u8])
    ensures { content.new ≡ write_fields f format.now values.now content.old }
{
    if elements::needed_within(f, format, values.len()).is_none() {
        return;
    }
    if content.len() < records::record_length(f) {
        return;
    }
    let mut at = 0;
    for i in (0..format.len()).step_by(ELEMENT) {
        let s = span_at(f, format, i);
        write_span(s, values, content, at);
        at += s.length;
    }
}

// Whether the record buffer has the named values and each is allowed.
pub fn values_allowed(f: File, format: &[u8], values: &[u8]) -> bool
    ensures { result ≡ values_allowed f format.now values.now }
{
    if elements::needed_within(f, format, values.len()).is_none() {
        return false;
    }
    let mut at = 0;
    for i in (0..format.len()).step_by(ELEMENT) {
        let s = span_at(f, format, i);
        if !allowed_span(s, values, at) {
            return false;
        }
        at += s.length;
    }
    true
}
