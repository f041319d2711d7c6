// What a key kind is: values that can be copied, with a total order.
// The order is a ghost function, so that code above is proved for every kind at once.
ghost use Rattle.keys.specs.Orders.{Total};
ghost use Rattle.std.specs.Prelude.{◌≡◌};
ghost use Rattle.std.specs.declared.cmp.Ordering.{Ordering};

use std::cmp::Ordering;

// A trait of its own beside the library's Ord: it states the order in words that can be read, which a derive leaves to
// the order of fields, and equal holds of the same alone, which Ord does not ask.
pub trait Key: Copy {
    // how the first of two keys stands to the second
    ghost order: { Self → Self → Ordering };

    // How this key stands to the other.
    fn compare(self, other: Self) -> Ordering
        ensures answer { result ≡ order self other };

    // exactly one of less, equal, greater; greater just where the other way round is less; less passes on
    ghost total: { Total order };
}
