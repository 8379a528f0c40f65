// The words that the book's rules and the book share.
use prices::Price;

#[derive(Clone, Copy, PartialEq, Eq, Debug)]
pub enum Status {
    PreOpen,
    Calling,
    Running,
    Halted,
    Closed,
}

// A trade on the tape: the two orders by number, the price and the shares.
#[derive(Clone, Copy, PartialEq, Eq, Debug)]
pub struct Trade {
    pub buyer: u32,
    pub seller: u32,
    pub price: Price,
    pub quantity: u32,
}

// The faults of the book layer.
#[derive(Clone, Copy, PartialEq, Eq, Debug)]
pub enum BookFault {
    Turn,
    Spent,
    Band,
    Empty,
    Tape,
    Shortfall,
    Full,
    Sheet,
    Unknown,
}
