// A record as ended transactions left it (document 02, No. 8): which version of it that is, and its bytes as a part of what was lent, uncopied.
#![tactic(auto)]

ghost use Rattle.std.specs.Prelude.{◌≡◌, ◌*◌, [], length};
ghost use Rattle.lists.specs.Tests.{cond};
ghost use Rattle.lists.specs.Pieces.{piece};
ghost use Rattle.records.specs.Records.{record_length};
ghost use Rattle.entries.specs.Entries.{entries};
ghost use Rattle.committed.specs.Committed.{committed_version, image_inside, version_there, version_bytes, bytes_at};

use definition::File;

// Which version of an ISN's record ended transactions left: the store's, the image of the entry at a place of the hold queue, or none, where an
// open transaction added it.
#[derive(Clone, Copy, PartialEq, Eq)]
pub enum Version {
    Stored,
    Imaged(usize),
    Absent,
}

// Where a record lies: in the image buffer or in the store, from where on, and how many bytes. No bytes where there is no record.
#[repr(C)]
#[derive(Clone, Copy, PartialEq, Eq)]
pub struct Place {
    pub start: usize,
    pub length: usize,
    pub imaged: bool,
}

// A changed entry shows what was there before it; otherwise the store shows.
#[tactic(auto, unfolding(crate::specs::Committed::committed_version))]
pub fn committed_version(queue: &[u64], count: usize, file: u8, isn: u16) -> Version
    ensures { result ≡ committed_version (entries queue.now count) file isn }
{
    match queue::holder(queue, count, file, isn) {
        Some((at, e)) if e.changed && e.existed => Version::Imaged(at),
        Some((_, e)) if e.changed => Version::Absent,
        _ => Version::Stored,
    }
}

// Whether the i-th block of the image buffer has room for a record of the file at its front.
pub fn image_inside(f: File, size: usize, width: usize, i: usize) -> bool
    ensures { result ≡ image_inside f size width i }
{
    slices::blocks_fit(i, width, size) && records::record_length(f) <= size - i * width
}

// Whether a version has a record.
#[tactic(auto, unfolding(crate::specs::Committed::version_there))]
pub fn version_there(
    f: File,
    part: &[u8],
    images: &[u8],
    width: usize,
    version: Version,
    isn: u16,
) -> bool
    ensures { result ≡ version_there f part.now images.now width version isn }
{
    match version {
        Version::Stored => store::has_record(f, part, isn),
        Version::Imaged(i) => image_inside(f, images.len(), width, i),
        Version::Absent => false,
    }
}

// The record at the front of the i-th block of the image buffer.
#[tactic(auto, using(lists::specs::Parts::part_take))]
fn image_part(f: File, images: &[u8], width: usize, i: usize) -> &[u8]
    ensures { result.now ≡ cond (image_inside f (length images.now) width i) (piece (i * width) (record_length f) images.now) [] }
{
    if !image_inside(f, images.len(), width, i) {
        return &images[..0];
    }
    let start = i * width;
    let end = start + records::record_length(f);
    &images[start..end]
}

// The record of a version, as a part of the image buffer or of the file's part of the store; no bytes where there is none.
#[tactic(auto, unfolding(crate::specs::Committed::version_bytes))]
pub fn version_part<'a>(
    f: File,
    part: &'a [u8],
    images: &'a [u8],
    width: usize,
    version: Version,
    isn: u16,
) -> &'a [u8]
    ensures { result.now ≡ version_bytes f part.now images.now width version isn }
{
    match version {
        Version::Stored => store::record_part(f, part, isn),
        Version::Imaged(i) => image_part(f, images, width, i),
        Version::Absent => &part[..0],
    }
}

// The bytes from a place on, as many as there are of the number asked for.
#[tactic(auto, using(lists::specs::Parts::part_least))]
fn piece_of(s: &[u8], start: usize, length: usize) -> &[u8]
    ensures { result.now ≡ piece start length s.now }
{
    let from = start.min(s.len());
    let to = from + length.min(s.len() - from);
    &s[from..to]
}

// The bytes at a place, as a part of the store or of the image buffer.
#[tactic(auto, unfolding(crate::specs::Committed::bytes_at))]
pub fn part_at<'a>(place: Place, store: &'a [u8], images: &'a [u8]) -> &'a [u8]
    ensures { result.now ≡ bytes_at place store.now images.now }
{
    if place.imaged {
        piece_of(images, place.start, place.length)
    } else {
        piece_of(store, place.start, place.length)
    }
}
