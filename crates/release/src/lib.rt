// Entries that go, in one function; the back-out; a transaction that ends.
#![tactic(auto)]

ghost use Rattle.std.specs.Prelude.{◌≡◌};
ghost use Rattle.removal.specs.Removal.{remove_queue, remove_images, remove_count};
ghost use Rattle.removal.specs.declared.Removal.TheVariants.{All};
ghost use Rattle.hold.specs.Hold.{restore};
ghost use Rattle.nucleus.specs.Users.{ended};

use definition::Definition;
use nucleus::User;
use removal::Removal;

// Lets entries go with their images; answers how many are left. Nothing else removes an entry from the hold queue.
pub fn let_go(
    count: usize,
    queue: &mut [u64],
    images: &mut [u8],
    width: usize,
    which: Removal,
) -> usize
    ensures value { result ≡ remove_count queue.old images.old count width which }
    ensures queue_after { queue.new ≡ remove_queue queue.old images.old count width which }
    ensures images_after { images.new ≡ remove_images queue.old images.old count width which }
{
    removal::remove(queue, images, count, width, which)
}

// Backs a user out: what his changed entries keep is put back in the store, and all his entries go. Answers how many are left.
pub fn back_out(
    d: Definition,
    width: usize,
    user: u8,
    store: &mut [u8],
    queue: &mut [u64],
    images: &mut [u8],
    count: usize,
) -> usize
    ensures value { result ≡ remove_count queue.old images.old count width (All user) }
    ensures store_after { store.new ≡ restore d width user queue.old images.old count store.old }
    ensures queue_after { queue.new ≡ remove_queue queue.old images.old count width (All user) }
    ensures images_after { images.new ≡ remove_images queue.old images.old count width (All user) }
{
    hold::restore(d, width, user, queue, images, count, store);
    let_go(count, queue, images, width, Removal::All { user })
}

// A transaction that ends is not ready any more; it keeps its start, which decides nothing.
pub fn ended(mut user: User) -> User
    ensures { result ≡ ended user }
{
    user.transaction.active = false;
    user.transaction.ready = false;
    user
}
