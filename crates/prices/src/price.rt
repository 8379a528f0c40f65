// The price type. Its field is private, and each value of it keeps the price rule.
ghost use Rattle.std.specs.Prelude.{◌≡◌, true};
ghost use Rattle.prices.specs.Rule.{lawful_price};

mod making;
mod printing;

#[derive(Clone, Copy, PartialEq, Eq, PartialOrd, Ord, Debug)]
pub struct Price {
    units: u32,
    ghost lawful: { lawful_price units ≡ true },
}

// A number at which the rule has no price.
#[derive(Clone, Copy, PartialEq, Eq, Debug)]
pub struct NoPrice;
