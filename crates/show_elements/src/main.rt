// Shows what `elements` makes of format buffers, and how `fields` moves values by them into a record and out again. Files are read from
// definition tables of document 01 and of the Command Reference. The gate holds what is printed to the file stdout.
#![tactic(auto)]

use definition::File;
use show::Hex;
use std::io;

// The first file of a definition table.
fn first_file(table: &[u8]) -> File {
    let r = reading::read(table);
    r.definition.files[0]
}

// A format buffer with so much room for its values: 41; or the bytes that its fields take, 53 where those are more than the room; and 44 behind
// where writing by it would name a field twice.
fn judge(rt: &impl Print, f: File, format: &str, room: usize) -> io::Result<()> {
    let bytes = format.as_bytes();
    print!(rt; "{format} in {room}: ")?;
    if !elements::format_valid(f, bytes) {
        return println!(rt; "41");
    }
    match elements::needed_within(f, bytes, room) {
        Some(n) => print!(rt; "{n}")?,
        None => print!(rt; "53")?,
    }
    if elements::named_twice(f, bytes) {
        print!(rt; " 44")?;
    }
    println!(rt;)
}

// Values go into the record by a format buffer: the record after it, or 55.
fn put(
    rt: &impl Print,
    f: File,
    format: &str,
    values: &[u8],
    content: &mut [u8],
) -> io::Result<()> {
    print!(rt; "put {format} {} ", Hex(values))?;
    if !fields::values_allowed(f, format.as_bytes(), values) {
        return println!(rt; "55");
    }
    fields::write_fields(f, format.as_bytes(), values, content);
    println!(rt; "{}", Hex(content))
}

// Values come out of the record by a format buffer: how many bytes, and those.
fn get(rt: &impl Print, f: File, format: &str, content: &[u8]) -> io::Result<()> {
    let mut buffer = [0u8; 32];
    let n = fields::read_fields(f, format.as_bytes(), content, &mut buffer);
    println!(rt; "get {format} {n} {}", Hex(&buffer[..n.min(buffer.len())]))
}

fn nulls(rt: &impl Print, f: File, content: &mut [u8]) -> io::Result<()> {
    nulls::put_nulls(f, content);
    println!(rt; "nulls {}", Hex(content))
}

// Document 01, 'The house call list': RC unique, HH.
const HOUSE: [u8; 17] = *b"\x01\x01\x00\x03\x02RC\x01AU\x02HH\x02A \x00";

fn judge_house(rt: &impl Print, format: &str, room: usize) -> io::Result<()> {
    judge(rt, first_file(&HOUSE), format, room)
}

fn good_formats(rt: &impl Print) -> io::Result<()> {
    judge_house(rt, "RC,HH.", 3)?;
    judge_house(rt, "HH.", 3)?;
    judge_house(rt, "RC,RC.", 3)?;
    judge_house(rt, "RC,HH.", 2)?;
    // No fields (document 02, No. 5).
    judge_house(rt, ".", 0)
}

fn bad_formats(rt: &impl Print) -> io::Result<()> {
    judge_house(rt, "RC,", 3)?;
    judge_house(rt, "RC,HH", 3)?;
    judge_house(rt, "RC.HH.", 3)?;
    judge_house(rt, "ZZ.", 3)?;
    judge_house(rt, "RC,.", 3)?;
    judge_house(rt, "..", 3)?;
    judge_house(rt, "", 3)
}

fn house(rt: &impl Print) -> io::Result<()> {
    let f = first_file(&HOUSE);
    let mut content = [0u8; 3];
    nulls(rt, f, &mut content)?;
    put(rt, f, "RC,HH.", b"2AB", &mut content)?;
    get(rt, f, "RC,HH.", &content)?;
    get(rt, f, "HH,RC.", &content)?;
    put(rt, f, "RC.", b"3", &mut content)?;
    put(rt, f, ".", b"4CD", &mut content)?;
    get(rt, f, "RC,RC.", &content)?;
    get(rt, f, ".", &content)
}

// The Command Reference's file 1: AA, AB packed, AC. Its A1 example replaces AA and AB and leaves AC; the old values are those of
// second/vectors.
fn update(rt: &impl Print) -> io::Result<()> {
    let f = first_file(b"\x01\x01\x00\x08\x02AA\x08AD\x02AB\x02PD\x02AC\x14A \x00");
    let mut content = [0u8; 30];
    nulls(rt, f, &mut content)?;
    put(
        rt,
        f,
        "AA,AB,AC.",
        b"ABCDEFGH\x50\x0CUNCHANGED           ",
        &mut content,
    )?;
    put(rt, f, "AA,AB.", b"1234    \x02\x0C", &mut content)?;
    get(rt, f, "AA,AB,AC.", &content)?;
    // 'Packed Value Signs': a sign that document 02 brings, and a half byte that is none.
    put(rt, f, "AB.", &[0x12, 0x3B], &mut content)?;
    put(rt, f, "AB.", &[0x12, 0x39], &mut content)
}

// Document 01, 'Marked for proof': packed values of three bytes and their stored form.
fn packed(rt: &impl Print) -> io::Result<()> {
    let f = first_file(b"\x01\x01\x00\x01\x02AA\x03P \x00");
    let mut content = [0u8; 3];
    put(rt, f, "AA.", &[0x00, 0x50, 0x0C], &mut content)?;
    put(rt, f, "AA.", &[0x00, 0x00, 0x0D], &mut content)?;
    get(rt, f, "AA.", &content)
}

fn main(rt: HostRuntime) -> io::Result<()> {
    good_formats(&rt)?;
    bad_formats(&rt)?;
    house(&rt)?;
    update(&rt)?;
    packed(&rt)
}
