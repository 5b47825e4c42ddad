//! Items in the order of a key: those of one key stand together, and are found by halves.
ghost use Rattle.std.specs.Prelude.{◌≡◌, ◌==◌, ℕ, nat_lt, nat_le};
ghost use Rattle.std.specs.List.{filter};
ghost use Rattle.std.specs.List.Sorted.{IsNonDecreasingBy};

/// What gives items their keys.
pub(crate) trait Keys<T> {
    ghost key: { Self → T → ℕ };

    /// The key of an item: any number of a place, and one more, has room in it.
    fn key(&self, item: &T) -> u128
        ensures { result ≡ key self.now item.now };
}

/// The items of a key, among items whose keys don't fall.
pub(crate) fn of_key<'a, T, K: Keys<T>>(by: &K, items: &'a [T], key: u128) -> &'a [T]
    requires { IsNonDecreasingBy (K.key by.now) items.now }
    ensures { result.now ≡ filter (λ x. K.key by.now x == key) items.now }
{
    let end = items.partition_point(
        |item: &T| -> bool
            ensures { result ≡ nat_le (K.key by.entry.now item.now) key }
        { by.key(item) <= key },
    );
    let up_to = &items[..end];
    let first = up_to.partition_point(
        |item: &T| -> bool
            ensures { result ≡ nat_lt (K.key by.entry.now item.now) key }
        { by.key(item) < key },
    );
    &up_to[first..]
}
