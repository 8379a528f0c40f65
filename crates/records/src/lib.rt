// The 32-byte records of an order file: what each byte may be, what a record says, and how one is written.
#![tactic(auto)]

mod fault;
mod layout;
mod letters;
mod reading;
mod record;
mod refusal;
#[cfg(test)]
mod tests;
mod words;
mod writing;

pub use fault::RecordFault;
pub use letters::{Capacity, Kind, NoLetter, OrderType, Qualifier, Side};
pub use reading::read_record;
pub use record::{Account, EntryFields, KeptAccount, Message, Record, ShortRecord};
pub use refusal::Refusal;
pub use writing::{write_entry, write_short};
