// Prices: whole numbers of units of 0.0001 that keep the price rule, and the step table that the rule reads.
#![tactic(auto)]

mod price;
mod steps;
#[cfg(test)]
mod tests;

pub use price::{NoPrice, Price};
pub use steps::{StepRow, house_steps, step_at};
