// The rank of a line, as a key whose lower value goes first.
use prices::Price;
use std::cmp::Reverse;

// Buyers before sellers; of buyers the higher price first, of sellers the lower.
#[derive(Clone, Copy, PartialEq, Eq, PartialOrd, Ord)]
pub(crate) enum Offer {
    Buy(Reverse<Price>),
    Sell(Price),
}

// By offer, then the lower class, then the lower number.
#[derive(Clone, Copy, PartialEq, Eq, PartialOrd, Ord)]
pub(crate) struct Rank<C> {
    pub(crate) offer: Offer,
    pub(crate) class: C,
    pub(crate) number: u32,
}
