// Reading a definition table: a row of items, each a byte of kind and a body whose length the kind fixes.
#![tactic(auto)]

ghost use Rattle.std.specs.Prelude.{◌≡◌, true};
ghost use Rattle.reading.specs.Grammar.{room_for_file, room_for_field, add_file, add_field, broken, read_table};

use definition::{Definition, Field, File, MAX_FIELDS, MAX_FILES};
use items::Item;

// A table that was read. Where it is broken the definition has no file.
#[derive(Clone, Copy)]
pub struct Reading {
    pub end: Option<usize>,
    pub definition: Definition,
}

// The bytes of an item, its kind with it.
const FILE_ITEM: usize = 4;

const FIELD_ITEM: usize = 6;

fn broken() -> Reading
    ensures { result ≡ broken }
{
    Reading {
        end: None,
        definition: definition::no_definition(),
    }
}

fn add_file(mut d: Definition, number: u8, max_isn: u16) -> Definition
    requires { room_for_file d ≡ true }
    ensures { result ≡ add_file d number max_isn }
{
    d.files[usize::from(d.count)] = File {
        number,
        max_isn,
        ..definition::no_file()
    };
    d.count += 1;
    d
}

fn room_for_field(d: Definition) -> bool
    ensures { result ≡ room_for_field d }
{
    let n = usize::from(d.count);
    (1..=MAX_FILES).contains(&n) && usize::from(d.files[n - 1].count) < MAX_FIELDS
}

fn add_field(mut d: Definition, f: Field) -> Definition
    requires { room_for_field d ≡ true }
    ensures { result ≡ add_field d f }
{
    let g = &mut d.files[usize::from(d.count) - 1];
    g.fields[usize::from(g.count)] = f;
    g.count += 1;
    d
}

// The table at the front of the bytes. Whoever wants nothing after it compares its end with their length.
pub fn read(bytes: &[u8]) -> Reading
    ensures { result ≡ read_table bytes.now }
{
    let mut d = definition::no_definition();
    let mut at = 0;
    // `while`: an item's kind says how far the next one is.
    while at < bytes.len() {
        let Some(item) = items::first_item(&bytes[at..]) else {
            return broken();
        };
        match item {
            Item::File { number, max_isn } => {
                if MAX_FILES <= usize::from(d.count) {
                    return broken();
                }
                d = add_file(d, number, max_isn);
                at += FILE_ITEM;
            }
            Item::Field(f) => {
                if !room_for_field(d) {
                    return broken();
                }
                d = add_field(d, f);
                at += FIELD_ITEM;
            }
            Item::End => {
                if !validity::valid(d) {
                    return broken();
                }
                return Reading {
                    end: Some(at + 1),
                    definition: d,
                };
            }
        }
    }
    broken()
}
