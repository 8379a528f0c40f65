// Reading a record and checking it against the rules.
ghost use Rattle.std.specs.Prelude.{◌≡◌, take, drop};
ghost use Rattle.std.specs.Option.{option_map};
ghost use Rattle.records.specs.Refusals.{on_ok, unless};
ghost use Rattle.records.specs.Reading.{Accepted, AccountIn, bytes_of, reading_of};
ghost use Rattle.orders.specs.Checks.{check_at, fault_in};
ghost use Rattle.orders.specs.Instructions.{says};

use crate::fault::OrderFault;
use crate::instruction::Instruction;
use crate::order::Order;
use prices::Price;
use records::{Record, read_record};

// What the record asks for, or the lowest refusal of the order layer that fits. No `TryFrom`: both are types of `records`, and an impl of a foreign trait for a foreign type is refused.
fn checked(found: Record<'_>) -> Result<Instruction, OrderFault>
    ensures { on_ok says result ≡ unless (fault_in (reading_of found.entry)) (reading_of found.entry) }
{
    Ok(match found {
        Record::Start(reference) => Instruction::Start(Price::try_from(reference)?),
        Record::Entry(fields, account) => Instruction::Entry(
            Order::try_from(fields)?,
            account.into(),
        ),
        Record::Withdrawal(number) => Instruction::Withdrawal(number),
        Record::Opening => Instruction::Opening,
        Record::Halt => Instruction::Halt,
        Record::Resumption => Instruction::Resumption,
        Record::Closing => Instruction::Closing,
    })
}

// The instruction in the record that begins at `at` in the input; none where the input ends there.
pub fn read_instruction(input: &[u8], at: usize) -> Result<Option<Instruction>, OrderFault>
    ensures is { on_ok (option_map says) result ≡ check_at input.now at }
    ensures written { Accepted (on_ok (option_map says) result) (λ reading. bytes_of reading ≡ take 32 (drop at input.now)) }
    ensures account { Accepted (on_ok (option_map says) result) (AccountIn input.now) }
{
    let Some(found) = read_record(input, at)? else {
        return Ok(None);
    };
    Ok(Some(checked(found)?))
}
