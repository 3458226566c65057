ghost use Rattle.std.specs.Prelude.{◌≡◌, slice_index_or, slice_set};
ghost use Rattle.file_views.specs.Streams.{is_any};

use sprite_ids::Items;

// Whether there is any.
pub(crate) fn is_any<T>(items: &[T]) -> bool
    ensures { result ≡ is_any items.now }
{
    !items.is_empty()
}

// Puts an item at that place, where there is one.
pub(crate) fn put_at<T: Drop>(items: &mut Items<T>, at: usize, item: T)
    ensures { items.new ≡ slice_set items.old at item }
{
    if at < items.len() {
        let _before = items.replace(at, item);
    }
}
