// Orders that rest in a book, of two kinds, and the levels of an auction sheet.
#![tactic(auto)]

mod class;
mod level;
mod line;
mod queued;
mod queued_line;
mod rank;
mod resting;
#[cfg(test)]
mod tests;

pub use class::{Alike, Class, ties_are_rankings};
pub use level::PriceLevel;
pub use line::{Line, MoreThanLeft};
pub use queued::Queued;
pub use resting::{CapacityLine, Resting, TimeLine, lines_are_of_their_kinds};
