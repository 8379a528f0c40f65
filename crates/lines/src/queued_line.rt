// A queued line is a line, whatever its kind.
ghost use Rattle.lines.specs.Queues.{queued};
ghost use Rattle.std.proofs.Common.{rules};

use crate::line::{Line, MoreThanLeft};
use crate::queued::Queued;
use orders::Order;
use prices::Price;
use records::Side;

// It is a line like the one in it.
impl<L: Line> Line for Queued<L> {
    ghost kind = { queued L.kind };

    ghost making = { Prim.search rules };

    ghost ranking = { Prim.search rules };

    ghost sides = { Prim.search rules };

    ghost taking = { Prim.search rules };

    fn new(order: Order, number: u32, price: Price, quantity: u32) -> Queued<L> {
        Queued(L::new(order, number, price, quantity))
    }

    fn number(&self) -> u32 {
        self.0.number()
    }

    fn side(&self) -> Side {
        self.0.side()
    }

    fn price(&self) -> Price {
        self.0.price()
    }

    fn left(&self) -> u32 {
        self.0.left()
    }

    fn is_before(&self, other: &Queued<L>) -> bool {
        self.0.is_before(&other.0)
    }

    fn take_off(&mut self, shares: u32) -> Result<(), MoreThanLeft> {
        self.0.take_off(shares)
    }
}
