// Lists of numbers: the definitions and laws that crates share and the library lacks, a slice's first elements and what stands
// behind them, and a value stored where a slice has such a place.
#![tactic(auto)]

ghost use Rattle.std.specs.Prelude.{◌≡◌, take, drop, set};

// The first n; all where there are no more.
// As it is (6): n is what is asked for; this is `get(..n)` of the library, with its answer past the end, for all callers.
#[inline]
pub fn front<T>(items: &[T], n: usize) -> &[T]
    ensures { result.now ≡ take n items.now }
{
    items.get(..n).unwrap_or(items)
}

// What stands behind the first n; nothing where there are no more.
// As it is (6): n is what is asked for; this is `get(n..)` of the library, with its answer past the end, for all callers.
#[inline]
pub fn behind<T>(items: &[T], n: usize) -> &[T]
    ensures { result.now ≡ drop n items.now }
{
    items.get(n..).unwrap_or_default()
}

// Stores a value where there is such a place.
// As it is (6): readers and writers count on behind the end of a slice that is too short, where no rest of it begins.
#[inline]
pub fn store<T: Copy>(items: &mut [T], at: usize, v: T)
    ensures { items.new ≡ set items.old at v }
{
    if at < items.len() {
        items[at] = v;
    }
}
