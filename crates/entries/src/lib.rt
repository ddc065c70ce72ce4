// An entry of the hold queue, and the word that it lies in. Only this crate knows how; every other goes by `pack` and `unpack`.
#![tactic(auto)]

ghost use Rattle.std.specs.Prelude.{◌≡◌};
ghost use Rattle.entries.specs.Entries.{pack_of, unpack_of};

// Who holds an ISN of a file, and whether that changed it.
#[repr(C)]
#[derive(Clone, Copy, PartialEq, Eq)]
pub struct Entry {
    pub user: u8,
    pub file: u8,
    pub isn: u16,
    pub changed: bool,
    // Whether a record was there before the change.
    pub existed: bool,
}

// An entry as one word.
#[tactic(auto, unfolding(crate::specs::Entries::pack_of))]
pub fn pack(e: Entry) -> u64
    ensures { result ≡ pack_of e }
{
    u64::from(e.user)
        + u64::from(e.file) * 256
        + u64::from(e.isn) * 65536
        + u64::from(e.changed) * 4294967296
        + u64::from(e.existed) * 8589934592
}

// The entry of a word. Bits that no entry uses are not looked at.
#[tactic(auto, unfolding(crate::specs::Entries::unpack_of))]
pub fn unpack(w: u64) -> Entry
    ensures { result ≡ unpack_of w }
{
    Entry {
        user: (w % 256) as u8,
        file: (w / 256 % 256) as u8,
        isn: (w / 65536 % 65536) as u16,
        changed: w / 4294967296 % 2 == 1,
        existed: w / 8589934592 % 2 == 1,
    }
}
