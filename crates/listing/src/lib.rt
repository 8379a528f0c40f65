// What is printed of an order file: a line for each record, and a last line with the counts.
#![tactic(auto)]

mod lines;
mod words;

pub use lines::check_listing;
