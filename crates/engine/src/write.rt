// One write into a list, where the number is one of its own.
ghost use Rattle.std.specs.Prelude.{◌≡◌, slice_set};

// Writes the item at the number, if the list has the number.
pub(crate) fn write<T: Copy>(items: &mut [T], n: usize, item: T)
    ensures after { items.new ≡ slice_set items.old n item }
{
    // tested and then indexed: the library's get_mut says nothing of what the list ends as
    if n < items.len() {
        items[n] = item;
    }
}
