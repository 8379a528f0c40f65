// The plain order: a limit order with no qualifier and no minimum. A type apart: around an `Order` its price would be an `Option`, to unwrap at each use.
ghost use Rattle.std.specs.Prelude.{◌≡◌, true};
ghost use Rattle.orders.specs.Rules.{quantity_rule};

use prices::Price;
use records::{Capacity, Side};

mod turning;

#[derive(Clone, Copy, PartialEq, Eq, Debug)]
pub struct PlainOrder {
    side: Side,
    price: Price,
    quantity: u32,
    capacity: Capacity,
    ghost lot: { quantity_rule quantity ≡ true },
}

// An order that has no limit, or a qualifier or a minimum.
#[derive(Clone, Copy, PartialEq, Eq, Debug)]
pub struct NotPlain;
