// Whether the ISNs that N1 last gave are well made (document 01, below the table of responses: N1's marks).
#![tactic(auto)]

ghost use Rattle.std.specs.Prelude.{◌≡◌};
ghost use Rattle.definition.specs.Table.{files_of};
ghost use Rattle.nucleus.specs.WellMade.{assigned_made};

use definition::{Definition, MAX_FILES};

// N1's marks are at most the highest ISN of their files.
pub fn assigned_made(d: Definition, assigned: [u16; MAX_FILES]) -> bool
    ensures { result ≡ assigned_made assigned (files_of d) }
{
    let n = definition::file_count(d);
    d.files[..n]
        .iter()
        .zip(assigned.iter())
        .all(|(file, isn)| *isn <= file.max_isn)
}
