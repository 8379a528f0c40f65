// Plain orders from orders, and back.
ghost use Rattle.std.specs.Prelude.{◌≡◌, if◌then◌else◌, Some, None};
ghost use Rattle.std.specs.Option.{option_map};
ghost use Rattle.std.specs.Result.{result_ok};
ghost use Rattle.orders.specs.Orders.{fields_of, is_plain};
ghost use Rattle.orders.specs.Plain.{plain_fields};

use crate::order::Order;
use crate::order::plain::{NotPlain, PlainOrder};
use prices::Price;
use records::{Capacity, Qualifier, Side};

// The order as a plain one, exactly where it has a limit, no qualifier and no minimum.
impl TryFrom<Order> for PlainOrder {
    type Error = NotPlain;

    ghost try_from_gives = { λ order r. option_map plain_fields (result_ok r) ≡ (if is_plain (fields_of order) then Some (fields_of order) else None) };

    fn try_from(order: Order) -> Result<PlainOrder, NotPlain> {
        let price = order.limit.ok_or(NotPlain)?;
        if order.qualifier != Qualifier::Unqualified || order.minimum != 0 {
            return Err(NotPlain);
        }
        Ok(PlainOrder {
            side: order.side,
            price,
            quantity: order.quantity,
            capacity: order.capacity,
        })
    }
}

// The plain order as an order like any other.
impl From<PlainOrder> for Order {
    ghost from_gives = { λ plain r. fields_of r ≡ plain_fields plain };

    fn from(plain: PlainOrder) -> Order {
        Order {
            side: plain.side,
            limit: Some(plain.price),
            qualifier: Qualifier::Unqualified,
            quantity: plain.quantity,
            minimum: 0,
            capacity: plain.capacity,
        }
    }
}

impl PlainOrder {
    pub fn side(self) -> Side
        ensures { result ≡ self.side }
    {
        self.side
    }

    pub fn price(self) -> Price
        ensures { result ≡ self.price }
    {
        self.price
    }

    pub fn quantity(self) -> u32
        ensures { result ≡ self.quantity }
    {
        self.quantity
    }

    pub fn capacity(self) -> Capacity
        ensures { result ≡ self.capacity }
    {
        self.capacity
    }
}
