// The faults of the order layer, around those of the record layer.
ghost use Rattle.std.specs.Prelude.{◌≡◌};
ghost use Rattle.records.specs.Refusals.{row_of};
ghost use Rattle.orders.specs.Refusals.{order_row};
ghost use Rattle.orders.specs.declared.fault.OrderFault.TheVariants as fault;

use prices::NoPrice;
use records::{RecordFault, Refusal};

#[derive(Clone, Copy, PartialEq, Eq, Debug)]
pub enum OrderFault {
    Record(RecordFault),
    Price,
    Quantity,
    Minimum,
    Mix,
}

impl From<RecordFault> for OrderFault {
    ghost from_gives = { λ found r. r ≡ fault.Record found };

    fn from(found: RecordFault) -> OrderFault {
        OrderFault::Record(found)
    }
}

impl From<NoPrice> for OrderFault {
    ghost from_gives = { λ none r. r ≡ fault.Price };

    fn from(_none: NoPrice) -> Self {
        Self::Price
    }
}

impl From<OrderFault> for Refusal {
    ghost from_gives = { λ fault r. row_of r ≡ order_row fault };

    fn from(fault: OrderFault) -> Refusal {
        let (number, word, byte) = match fault {
            OrderFault::Record(fault) => return fault.into(),
            OrderFault::Price => (4, "PRICE", 4),
            OrderFault::Quantity => (5, "QUANTITY", 8),
            OrderFault::Minimum => (6, "MINIMUM", 16),
            OrderFault::Mix => (7, "MIX", 3),
        };
        Refusal {
            number,
            word,
            layer: 2,
            byte,
        }
    }
}
