// A level of the auction sheet: one price of the book, with the sums that the opening looks at.
ghost use Rattle.std.specs.Prelude.{nat_lt};
ghost use Rattle.std.proofs.Common.{rules};

use ordered_run::Ranked;
use prices::Price;

#[derive(Clone, Copy)]
pub struct PriceLevel {
    pub price: Price,
    // The shares of buyers at this price or higher.
    pub buyers: u64,
    // The shares of sellers at this price or lower.
    pub sellers: u64,
    // The smaller of the two.
    pub volume: u64,
    // The buyers' shares less the sellers'.
    pub imbalance: i64,
}

// The price is the key, and the higher precedes.
impl Ranked for PriceLevel {
    ghost key = { λ l. l.price.units };

    ghost precedes = { λ x y. nat_lt y.price.units x.price.units };

    ghost ranking = { Prim.search rules };

    fn key_of(&self) -> u32 {
        self.price.units()
    }

    fn is_before(&self, other: &PriceLevel) -> bool {
        other.price < self.price
    }
}
