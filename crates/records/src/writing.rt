// Writing a record.
ghost use Rattle.std.specs.Prelude.{◌≡◌, is_ok, if◌then◌else◌, Some, Ok, OnOk};
ghost use Rattle.records.specs.Bytes.{entry_bytes, letter_alone_bytes, one_number_bytes};
ghost use Rattle.records.specs.Kinds.{kind_letter};
ghost use Rattle.records.specs.Reading.{account_fault, bytes_of, entry, read_at, short_reading};

use crate::fault::RecordFault;
use crate::layout::{ACCOUNT, first_misfit};
use crate::letters::Kind;
use crate::record::{EntryFields, ShortRecord};

fn entry_in_bytes(fields: EntryFields, account: &[u8; 8]) -> [u8; 32]
    ensures { result ≡ entry_bytes fields account.now }
{
    let [p0, p1, p2, p3] = fields.price.to_be_bytes();
    let [q0, q1, q2, q3] = fields.quantity.to_be_bytes();
    let [m0, m1, m2, m3] = fields.minimum.to_be_bytes();
    let [a0, a1, a2, a3, a4, a5, a6, a7] = *account;
    let kind = Kind::Entry.into();
    let side = fields.side.into();
    let order_type = fields.order_type.into();
    let qualifier = fields.qualifier.into();
    let capacity = fields.capacity.into();
    [
        kind, side, order_type, qualifier, p0, p1, p2, p3, q0, q1, q2, q3, 0, 0, 0, 0, m0, m1, m2,
        m3, capacity, 0, 0, 0, a0, a1, a2, a3, a4, a5, a6, a7,
    ]
}

// Fills the 32 bytes with the entry, or, where a byte of the account is out of range, refuses the first such and writes nothing.
pub fn write_entry(
    fields: EntryFields,
    account: &[u8; 8],
    out: &mut [u8; 32],
) -> Result<(), RecordFault>
    ensures answer { result ≡ account_fault account.now }
    ensures after { out.new ≡ (if is_ok result then entry_bytes fields account.now else out.old) }
    ensures read { OnOk result (read_at out.new 0 ≡ Ok (Some (entry fields account.now 24))) }
{
    if let Some(place) = first_misfit(&ACCOUNT, account) {
        return Err(RecordFault::Byte(24 + place));
    }
    *out = entry_in_bytes(fields, account);
    Ok(())
}

fn one_number(kind: Kind, n: u32) -> [u8; 32]
    ensures { result ≡ one_number_bytes (kind_letter kind) n }
{
    let mut bytes = letter_alone(kind);
    bytes[4..8].copy_from_slice(&n.to_be_bytes());
    bytes
}

fn letter_alone(kind: Kind) -> [u8; 32]
    ensures { result ≡ letter_alone_bytes (kind_letter kind) }
{
    let mut bytes = [0; 32];
    bytes[0] = kind.into();
    bytes
}

// Fills the 32 bytes with the record.
pub fn write_short(short: ShortRecord, out: &mut [u8; 32])
    ensures after { out.new ≡ bytes_of (short_reading short) }
    ensures read { read_at out.new 0 ≡ Ok (Some (short_reading short)) }
{
    *out = match short {
        ShortRecord::Start(reference) => one_number(Kind::Start, reference),
        ShortRecord::Withdrawal(number) => one_number(Kind::Withdrawal, number),
        ShortRecord::Opening => letter_alone(Kind::Opening),
        ShortRecord::Halt => letter_alone(Kind::Halt),
        ShortRecord::Resumption => letter_alone(Kind::Resumption),
        ShortRecord::Closing => letter_alone(Kind::Closing),
    };
}
