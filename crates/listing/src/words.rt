// What an instruction says, as text.
ghost use Rattle.std.specs.Prelude.{Some};
ghost use Rattle.orders.specs.Instructions.{says};
ghost use Rattle.listing.specs.Words.{reading_text};

use orders::Instruction;
use std::fmt;

#[derive(Clone, Copy)]
pub(crate) struct Told(pub(crate) Instruction);

impl fmt::Display for Told {
    ghost output = { λ told. Some (reading_text (says told.0)) };

    fn fmt<W: fmt::Write>(&self, f: &mut fmt::Formatter<W>) -> fmt::Result {
        match self.0 {
            Instruction::Start(reference) => write!(f, "start at reference {reference}"),
            Instruction::Entry(order, account) => write!(f, "entry: {order}, account {account}"),
            Instruction::Withdrawal(number) => write!(f, "withdrawal of {number}"),
            Instruction::Opening => f.write_str("opening"),
            Instruction::Halt => f.write_str("halt"),
            Instruction::Resumption => f.write_str("resumption"),
            Instruction::Closing => f.write_str("closing"),
        }
    }
}
