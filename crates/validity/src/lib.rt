// Whether a kept definition breaks a rule of document 01: any value, also one that nobody read from bytes.
#![tactic(auto)]

ghost use Rattle.std.specs.Prelude.{◌≡◌};
ghost use Rattle.lists.specs.Folds.{sound};
ghost use Rattle.definition.specs.Table.{files_of, numbered_alike};
ghost use Rattle.file_validity.specs.FileValidity.{file_valid};
ghost use Rattle.validity.specs.Validity.{valid};

use definition::{Definition, MAX_FILES};

// Numbers are noted as files are passed, so that no call in the loop takes the definition.
fn files_valid(d: Definition) -> bool
    ensures { result ≡ sound file_valid numbered_alike (files_of d) }
{
    let n = definition::file_count(d);
    let mut numbers = [0u16; MAX_FILES];
    for (i, file) in d.files[..n].iter().enumerate() {
        if !file_validity::file_valid(*file) {
            return false;
        }
        let number = u16::from(file.number);
        if membership::among(&numbers[..i], number) {
            return false;
        }
        numbers[i] = number;
    }
    true
}

#[tactic(auto, unfolding(crate::specs::Validity::valid))]
pub fn valid(d: Definition) -> bool
    ensures { result ≡ valid d }
{
    (1..=MAX_FILES).contains(&usize::from(d.count)) && files_valid(d)
}
