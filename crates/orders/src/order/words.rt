// An order as text.
ghost use Rattle.std.specs.Prelude.{Some, ◌≡◌};
ghost use Rattle.orders.specs.Orders.{fields_of, units_or_zero};
ghost use Rattle.orders.specs.Rules.{type_by};
ghost use Rattle.orders.specs.Words.{marks_text, order_text, price_or_market, qualifier_part};

use crate::order::Order;
use prices::Price;
use records::Qualifier;
use std::fmt;

#[derive(Clone, Copy)]
struct LimitOrMarket(Option<Price>);

impl fmt::Display for LimitOrMarket {
    ghost output = { λ shown. Some (price_or_market (type_by shown.0) (units_or_zero shown.0)) };

    fn fmt<W: fmt::Write>(&self, f: &mut fmt::Formatter<W>) -> fmt::Result {
        match self.0 {
            Some(price) => write!(f, "{price}"),
            None => f.write_str("market"),
        }
    }
}

// What follows the price: the qualifier, and the minimum where there is one.
#[derive(Clone, Copy)]
struct Marks {
    qualifier: Qualifier,
    minimum: u32,
}

// With its comma, and so no `Display` of a qualifier.
fn qualifier_part(qualifier: Qualifier) -> &'static str
    ensures { result.now ≡ qualifier_part qualifier }
{
    match qualifier {
        Qualifier::Unqualified => "",
        Qualifier::FillOrKill => ", fill-or-kill",
        Qualifier::ImmediateOrCancel => ", immediate-or-cancel",
    }
}

impl fmt::Display for Marks {
    ghost output = { λ marks. Some (marks_text marks.qualifier marks.minimum) };

    fn fmt<W: fmt::Write>(&self, f: &mut fmt::Formatter<W>) -> fmt::Result {
        let Marks { qualifier, minimum } = *self;
        let qualifier = qualifier_part(qualifier);
        if minimum == 0 {
            return f.write_str(qualifier);
        }
        write!(f, "{qualifier}, minimum {minimum}")
    }
}

// As buy 500 at 0.1000, fill-or-kill, dealer.
impl fmt::Display for Order {
    ghost output = { λ order. Some (order_text (fields_of order)) };

    fn fmt<W: fmt::Write>(&self, f: &mut fmt::Formatter<W>) -> fmt::Result {
        let Order {
            side,
            limit,
            qualifier,
            quantity,
            minimum,
            capacity,
        } = *self;
        let limit = LimitOrMarket(limit);
        let marks = Marks { qualifier, minimum };
        write!(f, "{side} {quantity} at {limit}{marks}, {capacity}")
    }
}
