// The rules of the book, as definitions, and what is proved of them.
#![tactic(auto)]

ghost use Rattle.rules.specs.Fair.{BooksStaySound, EveryEventIsLawful, LimitsAreKept};
ghost use Rattle.rules.specs.History.{EveryShareIsAccountedFor};
ghost use Rattle.rules.specs.Opening.{ChoiceIsSettled};
ghost use Rattle.rules.specs.Sheet.{OpeningsAreSettled};

use lines::Line;

mod fault;
mod terms;

pub use terms::{BookFault, Status, Trade};

// Of any prices with any sums, the choice passes the five tests, and no other price does.
pub fn choice_is_settled()
    ensures { ChoiceIsSettled }
{}

// Of resting orders of any kind, the opening price moves the most shares of every number, passes the five tests
// where a share trades, is the only one that does, and is the reference where none trades.
#[tactic(auto, using(crate::proofs::Volumes::openings_settled))]
pub fn openings_are_settled<L: Line>()
    ensures { OpeningsAreSettled L.kind }
{}

// After every list of commands to several books, each book that was started has its lines in rank order, with distinct
// numbers below the next, buyers first, shares left in each and a place for each; those that an order accepts stand in
// front of those that it does not; and while it is running or halted every resting buyer's price is below every
// resting seller's.
#[tactic(auto, using(crate::proofs::Events::books_stay_sound))]
pub fn books_stay_sound<L: Line>()
    ensures { BooksStaySound L.kind }
{}

// Over every list of commands to several books, for each order number: what was entered is what stands on the book's
// tapes, was withdrawn, lapsed and still rests.
#[tactic(auto, using(crate::proofs::Accounts::accounted))]
pub fn every_share_is_accounted_for<L: Line>()
    ensures { EveryShareIsAccountedFor L.kind }
{}

// Over every list of commands to several books: what is asked is refused by the first condition of the table that
// holds, and then nothing changes; else it is answered and done as the rules say, trade by trade.
#[tactic(auto, using(crate::proofs::Events::every_event_lawful))]
pub fn every_event_is_lawful<L: Line>()
    ensures { EveryEventIsLawful L.kind }
{}

// Over every list of commands to several books: no trade is above its buyer's limit or below its seller's, by order
// number, when the order is entered or later; of a market order later, the price at which its rest came to rest.
#[tactic(auto, using(crate::proofs::Limits::limits_kept))]
pub fn limits_are_kept<L: Line>()
    ensures { LimitsAreKept L.kind }
{}
