// The scans of the places that are held.
ghost use Rattle.std.specs.Prelude.{◌≡◌, length};
ghost use Rattle.std.specs.Option.{MatchOption};
ghost use Rattle.calendar.specs.Orders.{alike as same};
ghost use Rattle.calendar.specs.Places.{LeastAt, FoundAt};

use super::Order;

// The first place of a least one, or none of no places.
pub(super) fn least_place<T: Order>(held: &[T]) -> Option<usize>
    ensures { MatchOption result (length held.now ≡ 0) (LeastAt T.before held.now (length held.now)) }
{
    held.iter()
        .copied()
        .enumerate()
        .reduce(|least, next| if least.1.at_most(next.1) { least } else { next })
        .map(|(place, _)| place)
}

// The first place of `x`, or none.
pub(super) fn place_of<T: Order>(held: &[T], x: T) -> Option<usize>
    ensures { FoundAt T.before x held.now result }
{
    held.iter().position(|y| alike(x, *y))
}

// Whether the two are the same: each is at most the other.
pub(super) fn alike<T: Order>(x: T, y: T) -> bool
    ensures { result ≡ same T.before x y }
{
    x.at_most(y) && y.at_most(x)
}
