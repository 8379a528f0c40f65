// Orders that keep the order rules, and records checked against those rules.
#![tactic(auto)]

mod fault;
mod instruction;
mod order;
mod reading;
#[cfg(test)]
mod tests;
mod writing;

pub use fault::OrderFault;
pub use instruction::Instruction;
pub use order::{NotPlain, Order, PlainOrder};
pub use reading::read_instruction;
// The variants of an instruction are imported through it.
pub use records::Message;
pub use writing::{write_order, write_reference};
