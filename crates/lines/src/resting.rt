// A resting order, of any class.
ghost use Rattle.std.specs.Prelude.{◌≡◌};
ghost use Rattle.lines.specs.Kinds.{capacity_kind, kind_of, time_kind};
ghost use Rattle.lines.specs.Ranks.{ranking_by_class, ranking_by_price};
ghost use Rattle.std.proofs.Common.{rules};

use crate::class::{Alike, Class};
use crate::line::{Line, MoreThanLeft};
use crate::rank::{Offer, Rank};
use orders::Order;
use prices::Price;
use records::{Capacity, Side};
use std::cmp::Reverse;

#[derive(Clone, Copy)]
pub struct Resting<C> {
    number: u32,
    side: Side,
    price: Price,
    left: u32,
    class: C,
}

// By price, then the lower number.
pub type TimeLine = Resting<Alike>;

// By price, then investors before dealers, then the lower number.
pub type CapacityLine = Resting<Capacity>;

// A time line is of the time kind, and a capacity line of the capacity kind.
pub fn lines_are_of_their_kinds()
    ensures time { ⟦<TimeLine as Line>⟧.kind ≡ time_kind }
    ensures capacity { ⟦<CapacityLine as Line>⟧.kind ≡ capacity_kind }
{}

impl<C: Class> Resting<C> {
    fn rank(&self) -> Rank<C>
        ensures buy { self.now.side ≡ Side.Buy → result.offer ≡ Offer.Buy (record { 0 = self.now.price }) }
        ensures sell { self.now.side ≡ Side.Sell → result.offer ≡ Offer.Sell self.now.price }
        ensures class { result.class ≡ self.now.class }
        ensures number { result.number ≡ self.now.number }
    {
        Rank {
            offer: match self.side {
                Side::Buy => Offer::Buy(Reverse(self.price)),
                Side::Sell => Offer::Sell(self.price),
            },
            class: self.class,
            number: self.number,
        }
    }
}

impl<C: Class> Line for Resting<C> {
    ghost kind = { kind_of C.of C.tie };

    ghost making = { Prim.search rules };

    ghost ranking = { ranking_by_price (λ x. x.number) (λ x. x.side) (λ x. x.price.units) (λ x y. C.tie x.class y.class x.number y.number) (ranking_by_class C.total (λ x. x.number) (λ x. x.class) C.tie C.ties) };

    ghost sides = { Prim.search rules };

    ghost taking = { Prim.search rules };

    fn new(order: Order, number: u32, price: Price, quantity: u32) -> Resting<C> {
        Resting {
            number,
            side: order.side(),
            price,
            left: quantity,
            class: C::of(order),
        }
    }

    fn number(&self) -> u32 {
        self.number
    }

    fn side(&self) -> Side {
        self.side
    }

    fn price(&self) -> Price {
        self.price
    }

    fn left(&self) -> u32 {
        self.left
    }

    fn is_before(&self, other: &Resting<C>) -> bool {
        self.rank() < other.rank()
    }

    fn take_off(&mut self, shares: u32) -> Result<(), MoreThanLeft> {
        self.left = self.left.checked_sub(shares).ok_or(MoreThanLeft)?;
        Ok(())
    }
}
