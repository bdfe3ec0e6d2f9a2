ghost use Rattle.std.specs.Prelude.{◌≡◌, option_copied};
ghost use Rattle.acn_asn_syntax.specs.View.{base_view};
ghost use Rattle.acn_sites.specs.View.{site_view};
ghost use Rattle.acn_reasons.specs.Classes as spec;

use acn_acn_syntax::{Attr, Encoding, SizeAttr};
use acn_asn_syntax::AsnBase;
use acn_sites::{AttrKind, Site, nearest};
use acn_slots::base_of;

/// What a type is, as the rules on attributes and braces see it.
#[derive(Clone, Copy)]
pub enum Class {
    /// BOOLEAN.
    Boolean,
    /// NULL.
    Null,
    /// INTEGER.
    Integer,
    /// ENUMERATED.
    Enumerated,
    /// OCTET STRING, contained octets included.
    Octets,
    /// BIT STRING.
    Bits,
    /// IA5String.
    Text,
    /// SEQUENCE.
    Sequence,
    /// SEQUENCE OF.
    List,
    /// CHOICE.
    Choice,
    /// A reference, which no chain of a sound world ends at.
    Reference,
}

#[tactic(auto, using(acn_asn_syntax::proofs::Views::type_views))]
fn class_of_base(base: &AsnBase) -> Class
    ensures { result ≡ spec.class_of_base (base_view base.now) }
{
    match base {
        AsnBase::Boolean => Class::Boolean,
        AsnBase::Null => Class::Null,
        AsnBase::Integer(_) => Class::Integer,
        AsnBase::Enumerated(_) => Class::Enumerated,
        AsnBase::OctetString => Class::Octets,
        AsnBase::BitString => Class::Bits,
        AsnBase::Ia5String => Class::Text,
        AsnBase::Sequence(_) => Class::Sequence,
        AsnBase::SequenceOf(None, _) => Class::List,
        AsnBase::SequenceOf(Some(_), _) => Class::List,
        AsnBase::Choice(_) => Class::Choice,
        AsnBase::Ref(_, _) => Class::Reference,
    }
}

/// What the type of a site is.
pub fn class_of(site: &Site<'_>) -> Class
    ensures { result ≡ spec.class_of (site_view site.now) }
{
    class_of_base(base_of(&site.chain))
}

impl Class {
    /// An INTEGER or an ENUMERATED.
    pub fn is_number(self) -> bool
        ensures { result ≡ spec.is_number self }
    {
        match self {
            Class::Boolean => false,
            Class::Null => false,
            Class::Integer => true,
            Class::Enumerated => true,
            Class::Octets => false,
            Class::Bits => false,
            Class::Text => false,
            Class::Sequence => false,
            Class::List => false,
            Class::Choice => false,
            Class::Reference => false,
        }
    }

    /// What has a size.
    pub fn is_sized(self) -> bool
        ensures { result ≡ spec.is_sized self }
    {
        match self {
            Class::Boolean => false,
            Class::Null => false,
            Class::Integer => false,
            Class::Enumerated => false,
            Class::Octets => true,
            Class::Bits => true,
            Class::Text => true,
            Class::Sequence => false,
            Class::List => true,
            Class::Choice => false,
            Class::Reference => false,
        }
    }

    /// An INTEGER.
    pub fn is_integer(self) -> bool
        ensures { result ≡ spec.is_integer self }
    {
        match self {
            Class::Boolean => false,
            Class::Null => false,
            Class::Integer => true,
            Class::Enumerated => false,
            Class::Octets => false,
            Class::Bits => false,
            Class::Text => false,
            Class::Sequence => false,
            Class::List => false,
            Class::Choice => false,
            Class::Reference => false,
        }
    }

    /// An ENUMERATED.
    pub fn is_enumerated(self) -> bool
        ensures { result ≡ spec.is_enumerated self }
    {
        match self {
            Class::Boolean => false,
            Class::Null => false,
            Class::Integer => false,
            Class::Enumerated => true,
            Class::Octets => false,
            Class::Bits => false,
            Class::Text => false,
            Class::Sequence => false,
            Class::List => false,
            Class::Choice => false,
            Class::Reference => false,
        }
    }

    /// A BOOLEAN.
    pub fn is_boolean(self) -> bool
        ensures { result ≡ spec.is_boolean self }
    {
        match self {
            Class::Boolean => true,
            Class::Null => false,
            Class::Integer => false,
            Class::Enumerated => false,
            Class::Octets => false,
            Class::Bits => false,
            Class::Text => false,
            Class::Sequence => false,
            Class::List => false,
            Class::Choice => false,
            Class::Reference => false,
        }
    }

    /// A NULL.
    pub fn is_null(self) -> bool
        ensures { result ≡ spec.is_null self }
    {
        match self {
            Class::Boolean => false,
            Class::Null => true,
            Class::Integer => false,
            Class::Enumerated => false,
            Class::Octets => false,
            Class::Bits => false,
            Class::Text => false,
            Class::Sequence => false,
            Class::List => false,
            Class::Choice => false,
            Class::Reference => false,
        }
    }

    /// An IA5String.
    pub fn is_text(self) -> bool
        ensures { result ≡ spec.is_text self }
    {
        match self {
            Class::Boolean => false,
            Class::Null => false,
            Class::Integer => false,
            Class::Enumerated => false,
            Class::Octets => false,
            Class::Bits => false,
            Class::Text => true,
            Class::Sequence => false,
            Class::List => false,
            Class::Choice => false,
            Class::Reference => false,
        }
    }

    /// A SEQUENCE OF.
    pub fn is_list(self) -> bool
        ensures { result ≡ spec.is_list self }
    {
        match self {
            Class::Boolean => false,
            Class::Null => false,
            Class::Integer => false,
            Class::Enumerated => false,
            Class::Octets => false,
            Class::Bits => false,
            Class::Text => false,
            Class::Sequence => false,
            Class::List => true,
            Class::Choice => false,
            Class::Reference => false,
        }
    }

    /// A CHOICE.
    pub fn is_choice(self) -> bool
        ensures { result ≡ spec.is_choice self }
    {
        match self {
            Class::Boolean => false,
            Class::Null => false,
            Class::Integer => false,
            Class::Enumerated => false,
            Class::Octets => false,
            Class::Bits => false,
            Class::Text => false,
            Class::Sequence => false,
            Class::List => false,
            Class::Choice => true,
            Class::Reference => false,
        }
    }
}

/// What an attribute says of the size.
pub fn size_in(attr: &Attr) -> Option<&SizeAttr>
    ensures { option_copied result ≡ spec.size_in attr.now }
{
    match attr {
        Attr::Size(size) => Some(size),
        Attr::Encoding(_) => None,
        Attr::Endianness(_) => None,
        Attr::AlignToNext(_) => None,
        Attr::EncodeValues => None,
        Attr::TrueValue(_) => None,
        Attr::FalseValue(_) => None,
        Attr::Pattern(_) => None,
        Attr::TerminationPattern(_) => None,
        Attr::PresentWhen(_) => None,
        Attr::Determinant(_) => None,
        Attr::MappingFunction(_) => None,
    }
}

/// What an attribute says of the encoding.
pub fn encoding_in(attr: &Attr) -> Option<Encoding>
    ensures { result ≡ spec.encoding_in attr.now }
{
    match attr {
        Attr::Encoding(encoding) => Some(*encoding),
        Attr::Size(_) => None,
        Attr::Endianness(_) => None,
        Attr::AlignToNext(_) => None,
        Attr::EncodeValues => None,
        Attr::TrueValue(_) => None,
        Attr::FalseValue(_) => None,
        Attr::Pattern(_) => None,
        Attr::TerminationPattern(_) => None,
        Attr::PresentWhen(_) => None,
        Attr::Determinant(_) => None,
        Attr::MappingFunction(_) => None,
    }
}

/// What the nearest `size` of a site says.
pub fn size_attr<'w>(site: &Site<'w>) -> Option<&'w SizeAttr>
    ensures { option_copied result ≡ spec.size_attr (site_view site.now) }
{
    let given = nearest(AttrKind::Size, site)?;
    size_in(given.attr)
}

/// What the nearest `encoding` of a site says.
pub fn encoding_attr(site: &Site<'_>) -> Option<Encoding>
    ensures { result ≡ spec.encoding_attr (site_view site.now) }
{
    let given = nearest(AttrKind::Encoding, site)?;
    encoding_in(given.attr)
}

/// `BCD`.
pub fn is_bcd(encoding: Option<Encoding>) -> bool
    ensures { result ≡ spec.is_bcd encoding }
{
    match encoding {
        Some(Encoding::Bcd) => true,
        Some(Encoding::Ascii) => false,
        Some(Encoding::PosInt) => false,
        Some(Encoding::TwosComplement) => false,
        None => false,
    }
}

/// `ASCII`.
pub fn is_ascii(encoding: Option<Encoding>) -> bool
    ensures { result ≡ spec.is_ascii encoding }
{
    match encoding {
        Some(Encoding::Bcd) => false,
        Some(Encoding::Ascii) => true,
        Some(Encoding::PosInt) => false,
        Some(Encoding::TwosComplement) => false,
        None => false,
    }
}

/// `pos-int` or `twos-complement`.
pub fn is_binary(encoding: Option<Encoding>) -> bool
    ensures { result ≡ spec.is_binary encoding }
{
    match encoding {
        Some(Encoding::Bcd) => false,
        Some(Encoding::Ascii) => false,
        Some(Encoding::PosInt) => true,
        Some(Encoding::TwosComplement) => true,
        None => false,
    }
}

/// `null-terminated`.
pub fn is_ended(size: Option<&SizeAttr>) -> bool
    ensures { result ≡ spec.is_ended (option_copied size.entry) }
{
    match size {
        Some(SizeAttr::NullTerminated) => true,
        Some(SizeAttr::Number(_)) => false,
        Some(SizeAttr::Path(_)) => false,
        None => false,
    }
}
