// Writing an order or a start as a record.
ghost use Rattle.std.specs.Prelude.{◌≡◌, ℕ, List, is_ok, if◌then◌else◌, Some, Ok, OnOk};
ghost use Rattle.records.specs.Bytes.{entry_bytes, start_bytes};
ghost use Rattle.records.specs.Reading.{account_fault, entry, start};
ghost use Rattle.orders.specs.Checks.{check_at};
ghost use Rattle.orders.specs.Orders.{fields_of};

use crate::order::Order;
use prices::Price;
use records::{RecordFault, ShortRecord, write_entry, write_short};

// Fills the 32 bytes with the order's entry, or, where a byte of the account is out of range, refuses the first such and writes nothing.
pub fn write_order(order: Order, account: &[u8; 8], out: &mut [u8; 32]) -> Result<(), RecordFault>
    ensures answer { result ≡ account_fault account.now }
    ensures after { out.new ≡ (if is_ok result then entry_bytes (fields_of order) account.now else out.old) }
    ensures read { OnOk result (check_at out.new 0 ≡ Ok (Some (entry (fields_of order) account.now 24))) }
    ensures itself { OnOk result ((o : Order) (bytes : List ℕ) (place : ℕ) → check_at out.new 0 ≡ Ok (Some (entry (fields_of o) bytes place)) → o ≡ order) }
{
    write_entry(order.into(), account, out)
}

// Fills the 32 bytes with the start record of the reference.
pub fn write_reference(reference: Price, out: &mut [u8; 32])
    ensures after { out.new ≡ start_bytes reference.units }
    ensures read { check_at out.new 0 ≡ Ok (Some (start reference.units)) }
{
    write_short(ShortRecord::Start(reference.units()), out)
}
