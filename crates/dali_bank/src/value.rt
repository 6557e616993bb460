/// A value that an order gives to a field.
#[derive(Clone, Copy)]
pub enum Value<'a> {
    /// FFh in every byte. Each field takes it.
    Unknown,
    /// A whole number.
    Number(u64),
    /// The decimal digits of a GTIN.
    Digits(&'a str),
    /// The 16 hexadecimal digits of an identification number.
    Hex(&'a str),
    /// Text in ASCII, from space (20h) to tilde (7Eh).
    Text(&'a str),
}
