use crate::Signed;
use acn_num::{Name, Row};

/// A path to a determinant: names joined by full stops, at least one.
#[derive(Drop)]
pub struct AcnPath {
    /// The names, in order.
    pub names: Row<Name>,
}

/// A condition: a flag, or a determinant that equals a number.
#[derive(Drop)]
pub struct Condition {
    /// The path of the determinant.
    pub path: AcnPath,
    /// The number behind `==`, where it is written.
    pub equals: Option<Signed>,
}

/// What is written behind `size`.
#[derive(Drop)]
pub enum SizeAttr {
    /// A count of bits, characters, octets or elements.
    Number(u64),
    /// The words `null-terminated`.
    NullTerminated,
    /// The path of a determinant.
    Path(AcnPath),
}

/// What is written behind `encoding`.
#[derive(Clone, Copy)]
pub enum Encoding {
    /// `pos-int`.
    PosInt,
    /// `twos-complement`.
    TwosComplement,
    /// `BCD`.
    Bcd,
    /// `ASCII`.
    Ascii,
}

/// What is written behind `endianness`.
#[derive(Clone, Copy)]
pub enum Endianness {
    /// `big`: the most significant octet first.
    Big,
    /// `little`: the least significant octet first.
    Little,
}

/// What is written behind `align-to-next`.
#[derive(Clone, Copy)]
pub enum Alignment {
    /// `byte`: 8 bits.
    Byte,
    /// `word`: 16 bits.
    Word,
    /// `dword`: 32 bits.
    Dword,
}

/// A literal in quotes, which keeps the text of its token.
#[derive(Drop)]
pub enum Literal {
    /// Bits, as `'0101'B`.
    Bits(Name),
    /// Hexadecimal digits, as `'A5'H`.
    Hex(Name),
}

/// An attribute.
#[derive(Drop)]
pub enum Attr {
    /// `size`.
    Size(SizeAttr),
    /// `encoding`.
    Encoding(Encoding),
    /// `endianness`.
    Endianness(Endianness),
    /// `align-to-next`.
    AlignToNext(Alignment),
    /// `encode-values`.
    EncodeValues,
    /// `true-value`, with a bits or hex literal.
    TrueValue(Literal),
    /// `false-value`, with a bits or hex literal.
    FalseValue(Literal),
    /// `pattern`, with a bits or hex literal.
    Pattern(Literal),
    /// `termination-pattern`, with a bits or hex literal.
    TerminationPattern(Literal),
    /// `present-when`, with at least one condition.
    PresentWhen(Row<Condition>),
    /// `determinant`, with the path of one.
    Determinant(AcnPath),
    /// `mapping-function`, with the name of a table.
    MappingFunction(Name),
}

/// The type of a parameter.
#[derive(Drop)]
pub enum ParamKind {
    /// `INTEGER`.
    Integer,
    /// `BOOLEAN`.
    Boolean,
    /// A type reference.
    Ref(Name),
}

/// A parameter: `kind : name`.
#[derive(Drop)]
pub struct Param {
    /// Its type.
    pub kind: ParamKind,
    /// Its name.
    pub name: Name,
}

/// The type of an inserted field.
#[derive(Drop)]
pub enum FieldKind {
    /// `INTEGER`.
    Integer,
    /// `BOOLEAN`.
    Boolean,
    /// `NULL`.
    Null,
    /// A type reference.
    Ref(Name),
}

/// A field between braces.
#[cycle(field)]
#[derive(Drop)]
pub enum AcnField {
    /// A field of the type: its name, arguments, attributes and braces.
    Plain {
        /// The name of a component, an alternative or an element.
        name: Name,
        /// The arguments between `<` and `>`; none are not written.
        arguments: Row<AcnPath>,
        /// The attributes between brackets.
        attributes: Row<Attr>,
        /// The fields between braces, where these are written.
        fields: Option<Row<AcnField>>,
    },
    /// A field that only the packet has: its name, kind and attributes.
    Inserted {
        /// The name by which paths lead to it.
        name: Name,
        /// Its type.
        kind: FieldKind,
        /// The attributes between brackets.
        attributes: Row<Attr>,
    },
    /// The number of an enumeration's item.
    Number(Name, Signed),
}

/// What an ACN module says of a type.
#[derive(Drop)]
pub struct AcnEntry {
    /// The name of the type.
    pub name: Name,
    /// The parameters between `<` and `>`; none are not written.
    pub parameters: Row<Param>,
    /// The attributes between brackets.
    pub attributes: Row<Attr>,
    /// The fields between braces, where these are written.
    pub fields: Option<Row<AcnField>>,
}

/// An ACN module, which has the name of an ASN.1 module.
#[derive(Drop)]
pub struct AcnModule {
    /// Its name.
    pub name: Name,
    /// Its entries, in order.
    pub entries: Row<AcnEntry>,
}

/// The modules of an ACN file, at least one.
#[derive(Drop)]
pub struct AcnModules {
    /// The modules, in order.
    pub modules: Row<AcnModule>,
}
