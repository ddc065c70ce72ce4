// Shows what `values` gives on packed values of the Command Reference ('Packed Value Signs') and of documents 01 and 02: each value in hexadecimal,
// and behind it its stored form, or 55 where it is not allowed. The gate holds what is printed to the file stdout.
#![tactic(auto)]

use definition::Format;
use show::Hex;
use std::io;

fn show_packed(rt: &impl Print, value: &[u8]) -> io::Result<()> {
    if !digits::allowed(Format::Packed, value) {
        return println!(rt; "{} 55", Hex(value));
    }
    let mut stored = [0u8; 3];
    values::put_stored(Format::Packed, value, &mut stored);
    println!(rt; "{} {}", Hex(value), Hex(&stored))
}

fn main(rt: HostRuntime) -> io::Result<()> {
    let values = [
        [0x00, 0x50, 0x0C],
        [0x00, 0x00, 0x0D],
        [0x00, 0x12, 0x3C],
        [0x00, 0x12, 0x3D],
        [0x00, 0x12, 0x3F],
        [0x00, 0x12, 0x3A],
        [0x00, 0x12, 0x3B],
        [0x00, 0x12, 0x3E],
        [0x00, 0x00, 0x0B],
        [0x00, 0x12, 0x39],
        [0x00, 0x1A, 0x3C],
    ];
    for value in &values {
        show_packed(&rt, value)?;
    }
    Ok(())
}
