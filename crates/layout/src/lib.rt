// Where the files of a table lie in the store, and their places by number. Every size fits: of any kept definition the store has less than 2^33
// bytes.
#![tactic(auto)]

ghost use Rattle.std.specs.Prelude.{◌≡◌};
ghost use Rattle.records.specs.Records.{file_size};
ghost use Rattle.layout.specs.Layout.{file_offset, store_size, image_length, place};

use definition::{Definition, File, MAX_FILES};

// The bytes that a file takes in the store.
pub fn file_size(f: File) -> usize
    ensures { result ≡ file_size f }
{
    usize::from(f.max_isn) * records::slot_length(f)
}

// Where the first slot of the i-th file, from 0, begins in the store; past the last file, the store's size.
pub fn file_offset(d: Definition, i: usize) -> usize
    ensures { result ≡ file_offset d i }
{
    let n = i.min(definition::file_count(d));
    let mut sum: usize = 0;
    for f in &d.files[..n] {
        sum += file_size(*f);
    }
    sum
}

pub fn store_size(d: Definition) -> usize
    ensures { result ≡ store_size d }
{
    file_offset(d, MAX_FILES)
}

// The bytes of an image: the greatest record length.
pub fn image_length(d: Definition) -> usize
    ensures { result ≡ image_length d }
{
    let n = definition::file_count(d);
    let mut most: usize = 0;
    for file in &d.files[..n] {
        most = most.max(records::record_length(*file));
    }
    most
}

// The place of the file with the number.
pub fn place(d: Definition, number: u8) -> Option<usize>
    ensures { result ≡ place d number }
{
    let n = definition::file_count(d);
    for (i, file) in d.files[..n].iter().enumerate() {
        if file.number == number {
            return Some(i);
        }
    }
    None
}
