// Ranked things in a lent stretch of memory, each before the next, and no two of one key.
#![tactic(auto)]

mod laws;
mod ranked;
mod run;
#[cfg(test)]
mod tests;

pub use laws::{reach, reached_stays_ordered, steps_keep_order};
pub use ranked::Ranked;
pub use run::{OrderedRun, PutError, Step};
