// A budget of ticks in each period.
ghost use Rattle.std.specs.Prelude.{◌≡◌, true};
ghost use Rattle.terms.specs.Limits.{in_limits};

#[derive(Clone, Copy, PartialEq, Eq, Debug)]
pub struct Terms {
    budget: u32,
    period: u32,
    ghost within: { in_limits budget period ≡ true },
}

mod making;
