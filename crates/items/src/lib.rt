// The items of a definition table: each a byte of kind and a body whose length the kind fixes.
#![tactic(auto)]

ghost use Rattle.std.specs.Prelude.{◌≡◌};
ghost use Rattle.items.specs.Items.{format_of, option_of, file_item, field_item, item_of};

use definition::{Field, FieldOption, Format, Name};

// One item of a table.
#[derive(Clone, Copy)]
pub enum Item {
    File { number: u8, max_isn: u16 },
    Field(Field),
    End,
}

#[tactic(auto, unfolding(crate::specs::Items::format_of))]
fn format_of(b: u8) -> Option<Format>
    ensures { result ≡ format_of b }
{
    match b {
        b'A' => Some(Format::Alphanumeric),
        b'B' => Some(Format::Binary),
        b'U' => Some(Format::Unpacked),
        b'P' => Some(Format::Packed),
        _ => None,
    }
}

#[tactic(auto, unfolding(crate::specs::Items::option_of))]
fn option_of(b: u8) -> Option<FieldOption>
    ensures { result ≡ option_of b }
{
    match b {
        b' ' => Some(FieldOption::Plain),
        b'D' => Some(FieldOption::Descriptor),
        b'U' => Some(FieldOption::Unique),
        _ => None,
    }
}

#[tactic(auto, unfolding(crate::specs::Items::file_item))]
fn file_item(body: &[u8]) -> Option<Item>
    ensures { result ≡ file_item body.now }
{
    let [number, high, low, ..] = *body else {
        return None;
    };
    Some(Item::File {
        number,
        max_isn: u16::from_be_bytes([high, low]),
    })
}

#[tactic(auto, unfolding(crate::specs::Items::field_item))]
fn field_item(body: &[u8]) -> Option<Item>
    ensures { result ≡ field_item body.now }
{
    let [first, second, length, format, option, ..] = *body else {
        return None;
    };
    Some(Item::Field(Field {
        name: Name { first, second },
        length,
        format: format_of(format)?,
        option: option_of(option)?,
    }))
}

// The item that the bytes begin with, or none that is right.
#[tactic(auto, unfolding(crate::specs::Items::item_of))]
pub fn first_item(bytes: &[u8]) -> Option<Item>
    ensures { result ≡ item_of bytes.now }
{
    let [kind, body @ ..] = bytes else {
        return None;
    };
    match *kind {
        0 => Some(Item::End),
        1 => file_item(body),
        2 => field_item(body),
        _ => None,
    }
}
