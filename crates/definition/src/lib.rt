// A definition (document 01, 'Files and their definition'): which files there are, and the fields of each.
// A definition is a value of fixed size. Of each array only the first `count` places are in use; what the others hold means nothing.
// `==` of two files or two definitions compares every place, in use or not.
#![tactic(auto)]

ghost use Rattle.std.specs.Prelude.{◌≡◌};
ghost use Rattle.definition.specs.Table.{no_field, no_file, no_definition, field_at, file_or_none, field_count, file_count, same_name};

// Places for files in a definition, and for fields in a file.
pub const MAX_FILES: usize = 16;

pub const MAX_FIELDS: usize = 16;

// The greatest file number, the greatest highest ISN, and the most bytes that the fields of a file take together.
pub const MAX_NUMBER: usize = 16;

pub const MAX_ISN_LIMIT: usize = 4095;

pub const MAX_RECORD_LENGTH: usize = 512;

// The greatest length of a field, by its format.
pub const MAX_ALPHANUMERIC: u8 = 253;

pub const MAX_BINARY: u8 = 126;

pub const MAX_UNPACKED: u8 = 29;

pub const MAX_PACKED: u8 = 15;

// Document 01's `A`, `B`, `U` and `P`.
#[derive(Clone, Copy, PartialEq, Eq)]
pub enum Format {
    Alphanumeric,
    Binary,
    Unpacked,
    Packed,
}

// The option of a field: document 01's blank, `D` and `U`.
#[derive(Clone, Copy, PartialEq, Eq)]
pub enum FieldOption {
    Plain,
    Descriptor,
    Unique,
}

// The two characters of a field's name.
#[derive(Clone, Copy, PartialEq, Eq)]
pub struct Name {
    pub first: u8,
    pub second: u8,
}

#[derive(Clone, Copy, PartialEq, Eq)]
pub struct Field {
    pub name: Name,
    pub length: u8,
    pub format: Format,
    pub option: FieldOption,
}

#[derive(Clone, Copy, PartialEq, Eq)]
pub struct File {
    pub number: u8,
    pub max_isn: u16,
    pub count: u8,
    pub fields: [Field; MAX_FIELDS],
}

#[derive(Clone, Copy, PartialEq, Eq)]
pub struct Definition {
    pub count: u8,
    pub files: [File; MAX_FILES],
}

fn no_field() -> Field
    ensures { result ≡ no_field }
{
    Field {
        name: Name {
            first: 0,
            second: 0,
        },
        length: 0,
        format: Format::Alphanumeric,
        option: FieldOption::Plain,
    }
}

pub fn no_file() -> File
    ensures { result ≡ no_file }
{
    let fields = [no_field(); MAX_FIELDS];
    File {
        number: 0,
        max_isn: 0,
        count: 0,
        fields,
    }
}

pub fn no_definition() -> Definition
    ensures { result ≡ no_definition }
{
    let files = [no_file(); MAX_FILES];
    Definition { count: 0, files }
}

// The place k of a file, used or not; an empty one where there is no such place.
pub fn field_at(f: File, k: usize) -> Field
    ensures { result ≡ field_at f k }
{
    if MAX_FIELDS <= k {
        return no_field();
    }
    f.fields[k]
}

// The place i of a definition, used or not; an empty one where there is no such place.
pub fn file_at(d: Definition, i: usize) -> File
    ensures { result ≡ file_or_none d i }
{
    if MAX_FILES <= i {
        return no_file();
    }
    d.files[i]
}

// The fields in use. A count past the places counts as all of them.
pub fn field_count(f: File) -> usize
    ensures { result ≡ field_count f }
{
    usize::from(f.count).min(MAX_FIELDS)
}

pub fn file_count(d: Definition) -> usize
    ensures { result ≡ file_count d }
{
    usize::from(d.count).min(MAX_FILES)
}

pub fn same_name(m: Name, n: Name) -> bool
    ensures { result ≡ same_name m n }
{
    m == n
}
