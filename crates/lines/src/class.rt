// What ranks two lines of one side and price before their numbers do.
ghost use Rattle.std.specs.Prelude.{◌≡◌, ℕ, Bool};
ghost use Rattle.std.specs.Ordering.{is_lt, nat_cmp, ordering_then};
ghost use Rattle.std.proofs.Common.{rules};
ghost use Rattle.orders.specs.declared.order.Order.{Order};
ghost use Rattle.ordered_run.specs.Ranking.{Ranking};
ghost use Rattle.lines.specs.Rank.{capacity_tie, number_tie};

use orders::Order;
use records::Capacity;

pub trait Class: Ord + Copy {
    ghost of: { Order → Self };

    // Whether the first of two lines of one side and price precedes, by their classes and numbers.
    ghost tie: { Self → Self → ℕ → ℕ → Bool };

    fn of(order: Order) -> Self
        ensures { result ≡ of order };

    // The lower class precedes, and within one class the lower number.
    ghost ties: { (c d : Self) (m n : ℕ) → is_lt (ordering_then (Self.cmp c d) (nat_cmp m n)) ≡ tie c d m n };
}

// Whatever is ranked, the tie of a class is a ranking by number, and so is that of the capacities.
#[tactic(auto, using(crate::specs::Ranks::ranking_by_capacity))]
pub fn ties_are_rankings<C: Class, X>()
    ensures class { (number : X → ℕ) (class : X → C) → Ranking number (λ x y. C.tie (class x) (class y) (number x) (number y)) }
    ensures capacity { (number : X → ℕ) (capacity : X → Capacity) → Ranking number (λ x y. capacity_tie (capacity x) (capacity y) (number x) (number y)) }
{}

// The one class of all orders.
#[derive(Clone, Copy, PartialEq, Eq, PartialOrd, Ord)]
pub struct Alike;

impl Class for Alike {
    ghost of = { λ o. record {} };

    ghost tie = { number_tie };

    ghost ties = { Prim.search rules };

    fn of(_: Order) -> Alike {
        Alike
    }
}

impl Class for Capacity {
    ghost of = { λ o. o.capacity };

    ghost tie = { capacity_tie };

    ghost ties = { Prim.search rules };

    fn of(order: Order) -> Capacity {
        order.capacity()
    }
}
