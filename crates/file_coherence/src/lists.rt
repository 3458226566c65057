ghost use Rattle.std.specs.Prelude.{◌≡◌, slice_index_or, slice_set, ◌-◌};

use sprite_ids::{Items, Kernel};

// The place of the client's kernel in the lists of clients: kernels count from 1.
pub(crate) fn place(kernel: Kernel) -> usize
    ensures { result ≡ kernel - 1 }
{
    usize::from(kernel.number()) - 1
}

// The item at that place, or else another one.
pub(crate) fn item_or<T: Copy>(items: &[T], at: usize, default: T) -> T
    ensures { result ≡ slice_index_or items.now at default }
{
    if at < items.len() { items[at] } else { default }
}

// Puts an item at that place, where there is one.
pub(crate) fn put_at<T: Drop>(items: &mut Items<T>, at: usize, item: T)
    ensures { items.new ≡ slice_set items.old at item }
{
    if at < items.len() {
        let _before = items.replace(at, item);
    }
}
