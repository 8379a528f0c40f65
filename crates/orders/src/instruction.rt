// A record whose order or reference keeps the rules.
use crate::order::Order;
use prices::Price;
use records::{KeptAccount, Message};

// It holds its account by value, so it may be kept when the input is gone.
pub type Instruction = Message<Price, Order, KeptAccount>;
