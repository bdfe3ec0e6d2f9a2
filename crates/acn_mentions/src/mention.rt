use acn_asn_syntax::AsnType;
use acn_num::Name;

/// What a value in a constraint stands for.
#[derive(Clone, Copy, PartialEq, Eq)]
pub enum Role {
    /// One of the values of the type.
    Element,
    /// A size.
    Size,
    /// Characters.
    Letters,
}

/// Where the text of a type refers to something by name.
#[derive(Clone, Copy)]
pub enum Mention<'t> {
    /// A reference to a type.
    Type {
        from: &'t Option<Name>,
        name: &'t Name,
    },
    /// An identifier in a constraint of a type; of none between SEQUENCE and OF.
    Constraint {
        governor: Option<&'t AsnType>,
        role: Role,
        name: &'t Name,
    },
    /// An identifier behind DEFAULT of a component of a type.
    Default {
        of: &'t AsnType,
        name: &'t Name,
    },
    /// An identifier behind `::=`.
    Assignment {
        name: &'t Name,
    },
}
