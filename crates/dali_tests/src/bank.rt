// Values of each form at the edges of a field. The bytes of all fields are in examples/check.cases, and their ranges
// are tried by tests/test_fields.py.
use dali_bank::{BLANK, BankFault, Draft, Field, Order, Shown, Value, read_field};
use dali_shared_tests::expect_that;
use std::test::Fail;

// The order of a draft that sets this field alone.
fn order_of(field: Field, value: Value<'_>) -> Result<Order, BankFault> {
    let mut draft = Draft::new(7, 5)?;
    draft.set(field, value)?;
    match draft.finish() {
        Ok(order) => Ok(order),
        Err((_, fault)) => Err(fault),
    }
}

fn has_bytes(updates: &[(u8, u8)], bytes: &[u8]) -> bool {
    for (&(_, byte), &wanted) in updates.iter().zip(bytes) {
        if byte != wanted {
            return false;
        }
    }
    updates.len() == bytes.len()
}

// GTINs with few digits or leading zeros, an identification in digits of either case, and numbers of one to three
// bytes.
static VALUES: [(Field, Value<'static>, &[u8]); 10] = [
    (
        Field::Gtin,
        Value::Digits("73513537"),
        &[0x00, 0x00, 0x04, 0x61, 0xba, 0x41],
    ),
    (
        Field::Gtin,
        Value::Digits("012345678905"),
        &[0x00, 0x02, 0xdf, 0xdc, 0x1c, 0x39],
    ),
    (
        Field::Gtin,
        Value::Digits("00012345600012"),
        &[0x00, 0x02, 0xdf, 0xda, 0xe8, 0x0c],
    ),
    (
        Field::Gtin,
        Value::Digits("00000000"),
        &[0x00, 0x00, 0x00, 0x00, 0x00, 0x00],
    ),
    (
        Field::Identification,
        Value::Hex("0123456789aBcDeF"),
        &[0x01, 0x23, 0x45, 0x67, 0x89, 0xab, 0xcd, 0xef],
    ),
    (Field::Week, Value::Number(1), &[0x01]),
    (Field::Week, Value::Number(53), &[0x35]),
    (Field::LightOutput, Value::Number(0), &[0x00, 0x00, 0x00]),
    (
        Field::LightOutput,
        Value::Number(16777214),
        &[0xff, 0xff, 0xfe],
    ),
    (Field::Cct, Value::Number(65533), &[0xff, 0xfd]),
];

#[test]
fn values_and_their_bytes(_rt: HostRuntime) -> Result<(), Fail> {
    for &(field, value, bytes) in &VALUES {
        let order = order_of(field, value)?;
        expect_that(has_bytes(order.updates(), bytes), "the bytes of each value")?;
    }
    Ok(())
}

// Numbers past their range, texts that are no GTIN and no identification, and texts with other characters or one too
// many.
static REFUSED: [(Field, Value<'static>, BankFault); 18] = [
    (Field::Year, Value::Number(u64::MAX), BankFault::Range),
    (Field::Week, Value::Number(0), BankFault::Range),
    (
        Field::LightOutput,
        Value::Number(16777215),
        BankFault::Range,
    ),
    (Field::Cct, Value::Number(65534), BankFault::Range),
    (Field::Gtin, Value::Digits("0000000"), BankFault::Gtin),
    (Field::Gtin, Value::Digits("000000000"), BankFault::Gtin),
    (Field::Gtin, Value::Digits("00000000000"), BankFault::Gtin),
    (
        Field::Gtin,
        Value::Digits("000000000000000"),
        BankFault::Gtin,
    ),
    (Field::Gtin, Value::Digits("400638133393l"), BankFault::Gtin),
    (Field::Gtin, Value::Digits("+006381333931"), BankFault::Gtin),
    (Field::Gtin, Value::Digits("４００６３８１３"), BankFault::Gtin),
    (Field::Gtin, Value::Hex("00"), BankFault::Kind),
    (Field::Identification, Value::Text("00"), BankFault::Kind),
    (
        Field::Identification,
        Value::Hex("00112233445566778"),
        BankFault::Text,
    ),
    (
        Field::Identification,
        Value::Hex("001122334455667g"),
        BankFault::Text,
    ),
    (Field::Colour, Value::Text("RAL\n9016"), BankFault::Text),
    (Field::Colour, Value::Text("weiß"), BankFault::Text),
    (
        Field::Luminaire,
        Value::Text("AAAAAAAAAAAAAAAAAAAAAAAAAAAAAAAAAAAAAAAAAAAAAAAAAAAAAAAAAAAAA"),
        BankFault::Text,
    ),
];

#[test]
fn refused_values(_rt: HostRuntime) -> Result<(), Fail> {
    for &(field, value, fault) in &REFUSED {
        let found = order_of(field, value).err();
        expect_that(found == Some(fault), "the fault of each value")?;
    }
    Ok(())
}

// A blank bank with these bytes from a location on.
fn bank_with(first: u8, bytes: &[u8]) -> [u8; 120] {
    let mut bank = BLANK;
    for (i, &byte) in bytes.iter().enumerate() {
        if let Some(place) = bank.get_mut(usize::from(first).saturating_add(i)) {
            *place = byte;
        }
    }
    bank
}

// A GTIN of 8 digits and a number of 15, and texts with and without zeros at their end.
static SHOWN: [(Field, &[u8], Shown); 5] = [
    (
        Field::Gtin,
        &[0x00, 0x00, 0x05, 0xbe, 0xb8, 0x32],
        Shown::Number(96385074),
    ),
    (
        Field::Gtin,
        &[0xff, 0xff, 0xff, 0xff, 0xff, 0xfe],
        Shown::Raw,
    ),
    (
        Field::Colour,
        b"RAL 9016\0\0\0\0\0\0\0\0\0\0\0\0\0\0\0!",
        Shown::Raw,
    ),
    (Field::Colour, b"~~~~~~~~~~~~~~~~~~~~~~~~", Shown::Text(24)),
    (Field::Colour, &[0; 24], Shown::Raw),
];

#[test]
fn bytes_as_they_are_shown(_rt: HostRuntime) -> Result<(), Fail> {
    for &(field, bytes, shown) in &SHOWN {
        let bank = bank_with(field.first(), bytes);
        expect_that(read_field(&bank, field) == shown, "how each field is shown")?;
    }
    Ok(())
}
