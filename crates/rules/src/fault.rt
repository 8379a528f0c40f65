// What is told of a fault of the book layer.
ghost use Rattle.std.specs.Prelude.{◌≡◌};
ghost use Rattle.records.specs.Refusals.{row_of};
ghost use Rattle.rules.specs.Refusals.{book_row};

use crate::terms::BookFault;
use records::Refusal;

impl From<BookFault> for Refusal {
    ghost from_gives = { λ fault r. row_of r ≡ book_row fault };

    fn from(fault: BookFault) -> Refusal {
        let (number, word) = match fault {
            BookFault::Turn => (8, "TURN"),
            BookFault::Spent => (9, "SPENT"),
            BookFault::Band => (10, "BAND"),
            BookFault::Empty => (11, "EMPTY"),
            BookFault::Tape => (12, "TAPE"),
            BookFault::Shortfall => (13, "SHORTFALL"),
            BookFault::Full => (14, "FULL"),
            BookFault::Sheet => (15, "SHEET"),
            BookFault::Unknown => (16, "UNKNOWN"),
        };
        Refusal {
            number,
            word,
            layer: 3,
            byte: 0,
        }
    }
}
