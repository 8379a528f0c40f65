// The checked order. Its fields are private, and each value of it keeps the order rules.
ghost use Rattle.std.specs.Prelude.{◌≡◌, true};
ghost use Rattle.orders.specs.Rules.{minimum_rule, mix_rule, quantity_rule, type_by};

use prices::Price;
use records::{Capacity, Qualifier, Side};

mod making;
mod plain;
mod words;

pub use plain::{NotPlain, PlainOrder};

#[derive(Clone, Copy, PartialEq, Eq, Debug)]
pub struct Order {
    side: Side,
    // None at a market order.
    limit: Option<Price>,
    qualifier: Qualifier,
    quantity: u32,
    // The least number of shares that must trade, so 0 where there is none. An `Option<NonZeroU32>` would be no plainer: each rule takes it as a number.
    minimum: u32,
    capacity: Capacity,
    ghost lot: { quantity_rule quantity ≡ true },
    ghost least: { minimum_rule quantity minimum ≡ true },
    ghost mix: { mix_rule (type_by limit) qualifier minimum ≡ true },
}
