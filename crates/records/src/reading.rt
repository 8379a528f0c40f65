// Reading a record.
ghost use Rattle.std.specs.Prelude.{◌≡◌, ◌+◌, ◌^◌, ◌<◌, ◌≤◌, None, take, drop, slice_index};
ghost use Rattle.std.specs.Option.{option_map};
ghost use Rattle.records.specs.Bytes.{number_at};
ghost use Rattle.records.specs.Kinds.{kind_layout};
ghost use Rattle.records.specs.Layout.{entry_layout, misfit};
ghost use Rattle.records.specs.Refusals.{on_ok, unless};
ghost use Rattle.records.specs.declared.fault.RecordFault.TheVariants.{Byte};
ghost use Rattle.records.specs.Reading.{Accepted, AccountIn, bytes_of, entry_after, read_32, read_at, reading_of};

use crate::fault::RecordFault;
use crate::layout::{ByteRule, ENTRY, LETTER_ALONE, ONE_NUMBER, first_misfit};
use crate::letters::{Capacity, Kind, OrderType, Qualifier, Side};
use crate::record::{Account, EntryFields, Record};

impl Kind {
    fn layout(self) -> &'static [ByteRule; 32]
        ensures { result.now ≡ kind_layout self }
    {
        match self {
            Kind::Entry => &ENTRY,
            Kind::Start | Kind::Withdrawal => &ONE_NUMBER,
            Kind::Opening | Kind::Halt | Kind::Resumption | Kind::Closing => &LETTER_ALONE,
        }
    }
}

// Refuses the first byte that breaks its rule.
fn check(rules: &[ByteRule; 32], bytes: &[u8; 32]) -> Result<(), RecordFault>
    ensures { result ≡ unless (option_map Byte (misfit rules.now bytes.now)) tt }
{
    match first_misfit(rules, bytes) {
        None => Ok(()),
        Some(place) => Err(RecordFault::Byte(place)),
    }
}

// The 32 bytes of a record, and where in the input they begin.
#[derive(Clone, Copy)]
struct Laid<'a> {
    bytes: &'a [u8; 32],
    at: usize,
    ghost room: { at + 32 < 2 ^ 64 },
}

impl<'a> Laid<'a> {
    // The number whose four bytes begin at `place`, high byte first.
    fn number(self, place: usize) -> u32
        requires { place + 4 ≤ 32 }
        ensures { result ≡ number_at self.entry.bytes.now place }
    {
        let bytes = self.bytes;
        u32::from_be_bytes(*bytes[place..].first_chunk().unwrap())
    }

    // The account, where the bytes keep an entry's layout.
    fn account(self) -> Account<'a>
        requires { misfit entry_layout self.bytes.now ≡ None }
        ensures bytes { result.bytes.now ≡ drop 20 (drop 4 self.entry.bytes.now) }
        ensures place { result.place ≡ self.entry.at + 24 }
    {
        let Laid { bytes, at } = self;
        Account {
            bytes: bytes.last_chunk().unwrap(),
            place: at + 24,
        }
    }

    // The entry, where the bytes keep its layout.
    fn entry(self) -> Record<'a>
        requires { misfit entry_layout self.bytes.now ≡ None }
        ensures { reading_of result ≡ entry_after (slice_index self.entry.bytes.now 1) (slice_index self.entry.bytes.now 2) (slice_index self.entry.bytes.now 3) (drop 4 self.entry.bytes.now) self.entry.at }
    {
        let [_, side, order_type, qualifier, ..] = self.bytes;
        let fields = EntryFields {
            side: Side::try_from(*side).unwrap(),
            order_type: OrderType::try_from(*order_type).unwrap(),
            qualifier: Qualifier::try_from(*qualifier).unwrap(),
            price: self.number(4),
            quantity: self.number(8),
            minimum: self.number(16),
            capacity: Capacity::try_from(self.bytes[20]).unwrap(),
        };
        Record::Entry(fields, self.account())
    }

    // What the bytes say.
    fn read(self) -> Result<Record<'a>, RecordFault>
        ensures { on_ok reading_of result ≡ read_32 self.entry.bytes.now self.entry.at }
    {
        let [letter, ..] = self.bytes;
        let kind = Kind::try_from(*letter).map_err(|_| RecordFault::Kind)?;
        check(kind.layout(), self.bytes)?;
        let number = self.number(4);
        Ok(match kind {
            Kind::Start => Record::Start(number),
            Kind::Entry => self.entry(),
            Kind::Withdrawal => Record::Withdrawal(number),
            Kind::Opening => Record::Opening,
            Kind::Halt => Record::Halt,
            Kind::Resumption => Record::Resumption,
            Kind::Closing => Record::Closing,
        })
    }
}

// The record that begins at `at` in the input; none where the input ends there.
pub fn read_record<'a>(input: &'a [u8], at: usize) -> Result<Option<Record<'a>>, RecordFault>
    ensures is { on_ok (option_map reading_of) result ≡ read_at input.now at }
    ensures written { Accepted (on_ok (option_map reading_of) result) (λ says. bytes_of says ≡ take 32 (drop at input.now)) }
    ensures account { Accepted (on_ok (option_map reading_of) result) (AccountIn input.now) }
{
    if at >= input.len() {
        return Ok(None);
    }
    let Some((bytes, _)) = input[at..].split_first_chunk() else {
        return Err(RecordFault::Tail);
    };
    Ok(Some(Laid { bytes, at }.read()?))
}
