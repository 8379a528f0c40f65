// The listing of a file.
ghost use Rattle.std.specs.Prelude.{◌≡◌, IfOk, Some, string_bytes};
ghost use Rattle.std.specs.Option.{option_map};
ghost use Rattle.records.specs.Refusals.{on_ok};
ghost use Rattle.orders.specs.Instructions.{says};
ghost use Rattle.listing.specs.Lines.{line_of, listing};

use crate::words::Told;
use orders::{Instruction, OrderFault, read_instruction};
use records::Refusal;
use std::alloc::{AllocError, Global};
use std::fmt::{self, Write};

// The line of a record: nothing where there was none.
#[derive(Clone, Copy)]
struct Line {
    index: usize,
    found: Result<Option<Instruction>, OrderFault>,
}

impl fmt::Display for Line {
    ghost output = { λ line. Some (line_of line.index (on_ok (option_map says) line.found)) };

    fn fmt<W: fmt::Write>(&self, f: &mut fmt::Formatter<W>) -> fmt::Result {
        let Line { index, found } = *self;
        match found {
            // In two steps: the borrow checker does not cover a pattern that reaches an order through both.
            Ok(found) => {
                let Some(instruction) = found else {
                    return Ok(());
                };
                let told = Told(instruction);
                write!(f, "{index} {told}\n")
            }
            Err(fault) => {
                let refusal = Refusal::from(fault);
                write!(f, "{index} refused {refusal}\n")
            }
        }
    }
}

// A line for each record of the input, and a last line that counts the accepted and the refused.
pub fn check_listing(heap: Global, input: &[u8]) -> Result<String, AllocError>
    ensures { IfOk result (λ s. string_bytes s ≡ listing input.now) }
{
    let mut text = String::new(heap);
    let mut accepted: usize = 0;
    let mut refused: usize = 0;
    for index in 0..input.len().div_ceil(32) {
        let found = read_instruction(input, index * 32);
        if found.is_ok() {
            accepted += 1;
        } else {
            refused += 1;
        }
        let line = Line { index, found };
        write!(text, "{line}")?;
    }
    write!(text, "{accepted} accepted, {refused} refused\n")?;
    Ok(text)
}
