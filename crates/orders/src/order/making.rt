// Making an order from an entry's fields, and reading it back.
ghost use Rattle.std.specs.Prelude.{◌≡◌, if◌then◌else◌, Some, None, Ok, Err};
ghost use Rattle.std.specs.Option.{option_map};
ghost use Rattle.records.specs.Refusals.{on_ok, unless};
ghost use Rattle.orders.specs.Rules.{minimum_rule, mix_rule, price_rule, quantity_rule, type_by};
ghost use Rattle.orders.specs.Orders.{fields_of, limit_fields};
ghost use Rattle.orders.specs.Checks.{order_fault};

use crate::fault::OrderFault;
use crate::order::Order;
use prices::Price;
use records::{Capacity, EntryFields, OrderType, Qualifier, Side};

// The limit, which a market order has none of.
fn checked_limit(order_type: OrderType, units: u32) -> Result<Option<Price>, OrderFault>
    ensures { on_ok limit_fields result ≡ (if price_rule order_type units then Ok (order_type, units) else Err OrderFault.Price) }
{
    match order_type {
        OrderType::Limit => Ok(Some(Price::try_from(units)?)),
        OrderType::Market if units == 0 => Ok(None),
        OrderType::Market => Err(OrderFault::Price),
    }
}

fn keeps_quantity_rule(quantity: u32) -> bool
    ensures { result ≡ quantity_rule quantity }
{
    (100..=1_000_000).contains(&quantity) && quantity.is_multiple_of(100)
}

fn keeps_minimum_rule(quantity: u32, minimum: u32) -> bool
    ensures { result ≡ minimum_rule quantity minimum }
{
    minimum <= quantity && minimum.is_multiple_of(100)
}

fn keeps_mix_rule(order_type: OrderType, qualifier: Qualifier, minimum: u32) -> bool
    ensures { result ≡ mix_rule order_type qualifier minimum }
{
    match (order_type, qualifier) {
        (OrderType::Limit, Qualifier::Unqualified | Qualifier::ImmediateOrCancel) => true,
        (OrderType::Limit, Qualifier::FillOrKill) | (OrderType::Market, _) => minimum == 0,
    }
}

// The order that an entry's fields make, or the lowest refusal that fits.
impl TryFrom<EntryFields> for Order {
    type Error = OrderFault;

    ghost try_from_gives = { λ fields r. on_ok fields_of r ≡ unless (order_fault fields) fields };

    fn try_from(fields: EntryFields) -> Result<Order, OrderFault> {
        let EntryFields {
            side,
            order_type,
            qualifier,
            price,
            quantity,
            minimum,
            capacity,
        } = fields;
        let limit = checked_limit(order_type, price)?;
        if !keeps_quantity_rule(quantity) {
            return Err(OrderFault::Quantity);
        }
        if !keeps_minimum_rule(quantity, minimum) {
            return Err(OrderFault::Minimum);
        }
        if !keeps_mix_rule(order_type, qualifier, minimum) {
            return Err(OrderFault::Mix);
        }
        Ok(Order {
            side,
            limit,
            qualifier,
            quantity,
            minimum,
            capacity,
        })
    }
}

impl From<Order> for EntryFields {
    ghost from_gives = { λ order r. r ≡ fields_of order };

    fn from(order: Order) -> EntryFields {
        EntryFields {
            side: order.side,
            order_type: order.order_type(),
            qualifier: order.qualifier,
            price: order.limit.map_or(0, |price| price.units()),
            quantity: order.quantity,
            minimum: order.minimum,
            capacity: order.capacity,
        }
    }
}

// `side`, `quantity` and `capacity` stand at the plain order too: one trait for both would have a law for each and be no plainer.
impl Order {
    pub fn side(self) -> Side
        ensures { result ≡ self.side }
    {
        self.side
    }

    pub fn order_type(self) -> OrderType
        ensures { result ≡ type_by self.limit }
    {
        match self.limit {
            Some(_) => OrderType::Limit,
            None => OrderType::Market,
        }
    }

    // The limit; a market order has none.
    pub fn limit(self) -> Option<Price>
        ensures { result ≡ self.limit }
    {
        self.limit
    }

    pub fn qualifier(self) -> Qualifier
        ensures { result ≡ self.qualifier }
    {
        self.qualifier
    }

    pub fn quantity(self) -> u32
        ensures { result ≡ self.quantity }
    {
        self.quantity
    }

    // The minimum fill; 0 where there is none, as in the order itself.
    pub fn minimum(self) -> u32
        ensures { result ≡ self.minimum }
    {
        self.minimum
    }

    pub fn capacity(self) -> Capacity
        ensures { result ≡ self.capacity }
    {
        self.capacity
    }
}
