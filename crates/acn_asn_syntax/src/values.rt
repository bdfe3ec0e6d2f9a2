use acn_num::Name;

/// A value, as it is written (X.680 clause 17).
#[derive(Drop)]
pub enum AsnValue {
    /// A number: whether a minus stands before it, and the digits' number.
    Number(bool, u64),
    /// `TRUE`.
    True,
    /// `FALSE`.
    False,
    /// `NULL`.
    Null,
    /// An identifier.
    Ref(Name),
    /// The text of a literal of bits, as `'01'B`.
    Bits(Name),
    /// The text of a hexadecimal literal, as `'0F'H`.
    Hex(Name),
    /// The text of a literal of characters, with its quotes.
    Text(Name),
}
