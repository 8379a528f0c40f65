use crate::*;
use std::test::Fail;

const ENTRY: [u8; 32] =
    *b"EBLN\x00\x00\x03\xE8\x00\x00\x01\xF4\x00\x00\x00\x00\x00\x00\x01\x2CI\x00\x00\x00ACCOUNT1";

// The byte of the refusal; none where the record is accepted.
fn fault_byte(bytes: &[u8; 32]) -> Option<usize> {
    let fault = read_record(bytes, 0).err()?;
    Some(Refusal::from(fault).byte)
}

// The entry with another byte at the place.
fn entry_with(place: usize, byte: u8) -> [u8; 32] {
    let mut bytes = ENTRY;
    if place < 32 {
        bytes[place] = byte;
    }
    bytes
}

#[test]
fn only_listed_letters_are_accepted(rt: HostRuntime) {
    for byte in 0..=255u8 {
        let side = byte == b'B' || byte == b'S';
        let order_type = byte == b'L' || byte == b'M';
        let qualifier = byte == b'N' || byte == b'F' || byte == b'I';
        let capacity = byte == b'I' || byte == b'D';
        assert_eq!(rt;
            fault_byte(&entry_with(1, byte)),
            if side { None } else { Some(1) }
        );
        assert_eq!(rt;
            fault_byte(&entry_with(2, byte)),
            if order_type { None } else { Some(2) }
        );
        assert_eq!(rt;
            fault_byte(&entry_with(3, byte)),
            if qualifier { None } else { Some(3) }
        );
        assert_eq!(rt;
            fault_byte(&entry_with(20, byte)),
            if capacity { None } else { Some(20) }
        );
    }
}

#[test]
fn fillers_are_zero_and_accounts_printable(rt: HostRuntime) {
    for place in [12, 13, 14, 15, 21, 22, 23] {
        for byte in [1, 0x20, 0x80, 0xFF] {
            assert_eq!(rt; fault_byte(&entry_with(place, byte)), Some(place));
        }
    }
    for place in 24..32 {
        for byte in [0, 0x20, 0x7F, 0xFF] {
            assert_eq!(rt; fault_byte(&entry_with(place, byte)), Some(place));
        }
        assert_eq!(rt; fault_byte(&entry_with(place, 0x21)), None);
        assert_eq!(rt; fault_byte(&entry_with(place, 0x7E)), None);
    }
}

#[test]
fn other_kinds_have_zeros(rt: HostRuntime) {
    for letter in [b'D', b'W', b'O', b'H', b'R', b'C'] {
        let mut bytes = [0; 32];
        bytes[0] = letter;
        assert_eq!(rt; fault_byte(&bytes), None);
        for place in 1..32usize {
            let mut changed = bytes;
            changed[place] = 7;
            let number = (letter == b'D' || letter == b'W') && place >= 4 && place < 8;
            assert_eq!(rt;
                fault_byte(&changed),
                if number { None } else { Some(place) }
            );
        }
    }
}

#[test]
fn kinds_and_tails(rt: HostRuntime) {
    for letter in 0..=255u8 {
        let listed = letter == b'D'
            || letter == b'E'
            || letter == b'W'
            || letter == b'O'
            || letter == b'H'
            || letter == b'R'
            || letter == b'C';
        let bytes = entry_with(0, letter);
        assert_eq!(rt; read_record(&bytes, 0) != Err(RecordFault::Kind), listed);
    }
    for at in 1..32usize {
        assert_eq!(rt; read_record(&ENTRY, at), Err(RecordFault::Tail));
    }
    assert_eq!(rt; read_record(&ENTRY, 32), Ok(None), "the input ended");
}

#[test]
fn numbers_have_the_high_byte_first(rt: HostRuntime) -> Result<(), Fail> {
    let Ok(Some(Record::Entry(fields, account))) = read_record(&ENTRY, 0) else {
        return Err(Fail::new("no entry"));
    };
    assert_eq!(rt; fields.price, 1_000);
    assert_eq!(rt; fields.quantity, 500);
    assert_eq!(rt; fields.minimum, 300);
    assert_eq!(rt; account.place, 24);
    assert!(rt; *account.bytes == *b"ACCOUNT1");
    for number in [0, 1, 255, 256, 0x0102_0304, 0x8000_0000, u32::MAX] {
        let mut bytes = [0; 32];
        write_short(ShortRecord::Withdrawal(number), &mut bytes);
        assert_eq!(rt;
            read_record(&bytes, 0),
            Ok(Some(Record::Withdrawal(number)))
        );
    }
    Ok(())
}

#[test]
fn an_entry_is_written_as_it_was(rt: HostRuntime) -> Result<(), Fail> {
    let Ok(Some(Record::Entry(fields, _))) = read_record(&ENTRY, 0) else {
        return Err(Fail::new("no entry"));
    };
    let mut out = [1; 32];
    for (place, byte) in [(24, 0x20), (27, 0x7F), (31, 0)] {
        let mut account = *b"ACCOUNT1";
        if place >= 24 && place - 24 < 8 {
            account[place - 24] = byte;
        }
        assert_eq!(rt;
            write_entry(fields, &account, &mut out),
            Err(RecordFault::Byte(place))
        );
        assert!(rt; out == [1; 32]);
    }
    assert_eq!(rt; write_entry(fields, b"ACCOUNT1", &mut out), Ok(()));
    assert!(rt; out == ENTRY);
    Ok(())
}

#[test]
fn short_records_are_written_byte_by_byte(rt: HostRuntime) {
    let mut out = [1; 32];
    for (short, front) in [
        (ShortRecord::Start(1_000), *b"D\x00\x00\x00\x00\x00\x03\xE8"),
        (
            ShortRecord::Withdrawal(300),
            *b"W\x00\x00\x00\x00\x00\x01\x2C",
        ),
        (ShortRecord::Opening, *b"O\x00\x00\x00\x00\x00\x00\x00"),
        (ShortRecord::Halt, *b"H\x00\x00\x00\x00\x00\x00\x00"),
        (ShortRecord::Resumption, *b"R\x00\x00\x00\x00\x00\x00\x00"),
        (ShortRecord::Closing, *b"C\x00\x00\x00\x00\x00\x00\x00"),
    ] {
        let mut expected = [0; 32];
        expected[..8].copy_from_slice(&front);
        write_short(short, &mut out);
        assert!(rt; out == expected);
    }
}
