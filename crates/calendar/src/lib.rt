// An ordered queue in the caller's places, for every kind of element that has a total order.
#![tactic(auto)]

ghost use Rattle.std.specs.Prelude.{◌≡◌, Bool};
ghost use Rattle.calendar.specs.Orders.{Total};
ghost use Rattle.calendar.specs.Places.{counting};

mod calls;
mod scans;

// A total order: `before x y` says that `x` is at most `y`. Each of two that are at most the other is the other, which std's `Ord` does not say.
pub trait Order: Copy {
    ghost before: { Self → Self → Bool };

    fn at_most(self, other: Self) -> bool
        ensures { result ≡ before self other };

    ghost total: { Total before };
}

// How many of the caller's places are held, from the front. The places are passed to each call.
#[derive(Clone, Copy)]
pub struct Calendar {
    count: usize,
}

impl Calendar {
    // A calendar that holds nothing.
    pub fn new() -> Calendar
        ensures { result ≡ counting 0 }
    {
        Calendar { count: 0 }
    }

    // How many elements were put and not taken.
    pub fn len(&self) -> usize
        ensures { result ≡ self.now.count }
    {
        self.count
    }
}
