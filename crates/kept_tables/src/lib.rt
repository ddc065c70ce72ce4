// A definition table as a caller in another language keeps it: plain numbers, a byte for each format and each option. From it to the files of a
// definition and back.
#![tactic(auto)]

ghost use Rattle.std.specs.Prelude.{min, ◌≡◌, map};
ghost use Rattle.kept_tables.specs.KeptTables.{format_numbered, option_numbered, format_number, option_number, thawed_field, thawed_file, thawed_files, frozen_field, frozen_file, bytes_known, fields_known, files_known};

use definition::{Field, FieldOption, File, Format, MAX_FIELDS, MAX_FILES, Name};

// A field: the two characters of its name, its length, and its format and option by number.
#[repr(C)]
#[derive(Clone, Copy)]
pub struct KeptField {
    pub first: u8,
    pub second: u8,
    pub length: u8,
    pub format: u8,
    pub option: u8,
}

// A file. Of its fields the first `count` are in use.
#[repr(C)]
#[derive(Clone, Copy)]
pub struct KeptFile {
    pub number: u8,
    pub count: u8,
    pub max_isn: u16,
    pub fields: [KeptField; MAX_FIELDS],
}

// ---- formats and options, numbered from 0 in their order, as the C interface numbers them

#[tactic(auto, unfolding(crate::specs::KeptTables::format_numbered))]
fn format_numbered(n: u8) -> Format
    ensures { result ≡ format_numbered n }
{
    match n {
        0 => Format::Alphanumeric,
        1 => Format::Binary,
        2 => Format::Unpacked,
        _ => Format::Packed,
    }
}

#[tactic(auto, unfolding(crate::specs::KeptTables::option_numbered))]
fn option_numbered(n: u8) -> FieldOption
    ensures { result ≡ option_numbered n }
{
    match n {
        0 => FieldOption::Plain,
        1 => FieldOption::Descriptor,
        _ => FieldOption::Unique,
    }
}

fn format_number(format: Format) -> u8
    ensures { result ≡ format_number format }
{
    match format {
        Format::Alphanumeric => 0,
        Format::Binary => 1,
        Format::Unpacked => 2,
        Format::Packed => 3,
    }
}

fn option_number(option: FieldOption) -> u8
    ensures { result ≡ option_number option }
{
    match option {
        FieldOption::Plain => 0,
        FieldOption::Descriptor => 1,
        FieldOption::Unique => 2,
    }
}

// ---- what is in use: the first `count` places. A count past the places counts as all of them

fn in_use(count: u8, places: usize) -> usize
    ensures { result ≡ min count places }
{
    usize::from(count).min(places)
}

// ---- whether every byte in use is the number of a format or an option

#[tactic(auto, unfolding(crate::specs::KeptTables::bytes_known))]
fn bytes_known(k: KeptField) -> bool
    ensures { result ≡ bytes_known k }
{
    k.format < 4 && k.option < 3
}

fn fields_known(k: KeptFile) -> bool
    ensures { result ≡ fields_known k }
{
    let n = in_use(k.count, MAX_FIELDS);
    k.fields[..n].iter().all(|field| bytes_known(*field))
}

pub fn files_known(count: u8, files: [KeptFile; MAX_FILES]) -> bool
    ensures { result ≡ files_known count files }
{
    let n = in_use(count, MAX_FILES);
    files[..n].iter().all(|file| fields_known(*file))
}

// ---- from what is kept. Only places in use are looked at, which are few: one behind a count is thawed as an empty one

#[tactic(auto, unfolding(crate::specs::KeptTables::thawed_field))]
fn thawed_field(k: KeptField) -> Field
    ensures { result ≡ thawed_field k }
{
    Field {
        name: Name {
            first: k.first,
            second: k.second,
        },
        length: k.length,
        format: format_numbered(k.format),
        option: option_numbered(k.option),
    }
}

fn thawed_file(k: KeptFile) -> File
    ensures { result ≡ thawed_file k }
{
    let n = in_use(k.count, MAX_FIELDS);
    let mut fields = definition::no_file().fields;
    for (i, field) in k.fields[..n].iter().enumerate() {
        fields[i] = thawed_field(*field);
    }
    File {
        number: k.number,
        max_isn: k.max_isn,
        count: k.count,
        fields,
    }
}

pub fn thawed_files(count: u8, kept: [KeptFile; MAX_FILES]) -> [File; MAX_FILES]
    ensures { result ≡ thawed_files count kept }
{
    let n = in_use(count, MAX_FILES);
    let mut files = [definition::no_file(); MAX_FILES];
    for (i, file) in kept[..n].iter().enumerate() {
        files[i] = thawed_file(*file);
    }
    files
}

// ---- to what is kept. Loops: an array's `map` makes a set-up of a small table take half as long again

#[tactic(auto, unfolding(crate::specs::KeptTables::frozen_field))]
fn frozen_field(f: Field) -> KeptField
    ensures { result ≡ frozen_field f }
{
    KeptField {
        first: f.name.first,
        second: f.name.second,
        length: f.length,
        format: format_number(f.format),
        option: option_number(f.option),
    }
}

fn frozen_file(f: File) -> KeptFile
    ensures { result ≡ frozen_file f }
{
    let mut fields = [frozen_field(f.fields[0]); MAX_FIELDS];
    for i in 0..MAX_FIELDS {
        fields[i] = frozen_field(f.fields[i]);
    }
    KeptFile {
        number: f.number,
        count: f.count,
        max_isn: f.max_isn,
        fields,
    }
}

pub fn frozen_files(files: [File; MAX_FILES]) -> [KeptFile; MAX_FILES]
    ensures { result ≡ map frozen_file files }
{
    let mut kept = [frozen_file(files[0]); MAX_FILES];
    for i in 0..MAX_FILES {
        kept[i] = frozen_file(files[i]);
    }
    kept
}
