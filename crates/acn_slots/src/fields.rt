ghost use Rattle.std.specs.Prelude.{◌≡◌, option_map};
ghost use Rattle.acn_asn_syntax.specs.Mirror as plain;
ghost use Rattle.acn_asn_syntax.specs.View.{component_view, type_view};
ghost use Rattle.acn_acn_syntax.specs.Mirror as acn;
ghost use Rattle.acn_acn_syntax.specs.View as text;
ghost use Rattle.acn_slots.specs.Slots as spec;
ghost use Rattle.acn_slots.specs.View.{braces_view, use_view};

use acn_acn_syntax::{AcnField, AcnPath, Attr, FieldKind};
use acn_asn_syntax::{AsnType, Component, Rest};
use acn_num::{Name, Row};

/// What is written at a use of a type.
#[derive(Clone, Copy)]
pub struct Use<'w> {
    /// The arguments between `<` and `>`.
    pub arguments: &'w [AcnPath],
    /// The attributes between brackets.
    pub attributes: &'w [Attr],
    /// The fields between braces, where these are written.
    pub braces: Option<&'w [AcnField]>,
}

/// A field of a SEQUENCE.
#[derive(Clone, Copy)]
pub enum Field<'w> {
    /// A component, with what is written at its use.
    Component(&'w Component, Use<'w>),
    /// A field that only the packet has: its name, kind and attributes.
    Inserted(&'w Name, &'w FieldKind, &'w [Attr]),
}

/// Nothing is written.
pub fn no_use<'w>() -> Use<'w>
    ensures { use_view result ≡ spec.no_use }
{
    Use {
        arguments: &[],
        attributes: &[],
        braces: None,
    }
}

/// The fields between braces as a slice.
#[tactic(auto, using(acn_acn_syntax::proofs::Views::braces_back))]
pub fn braces_items(braces: &Option<Row<AcnField>>) -> Option<&[AcnField]>
    ensures { braces_view result ≡ acn.braces_list (text.braces_view braces.now) }
{
    match braces {
        None => None,
        Some(fields) => Some(fields.items()),
    }
}

/// The name of a component.
#[tactic(auto, using(acn_asn_syntax::proofs::Views::open_component))]
pub fn component_name(component: &Component) -> &Name
    ensures { result.now ≡ plain.Component.name (component_view component.now) }
{
    &component.name
}

/// The type of a component.
#[tactic(auto, using(acn_asn_syntax::proofs::Views::open_component))]
pub fn component_type(component: &Component) -> &AsnType
    ensures { type_view result.now ≡ plain.Component.of (component_view component.now) }
{
    &component.of
}

/// Whether a component may be absent.
#[tactic(auto, using(acn_asn_syntax::proofs::Views::open_component))]
pub fn component_rest(component: &Component) -> &Rest
    ensures { result.now ≡ plain.Component.rest (component_view component.now) }
{
    &component.rest
}

/// The name of a field between braces.
#[tactic(auto, using(acn_acn_syntax::proofs::Views::field_views))]
pub fn name_in_text(field: &AcnField) -> &Name
    ensures { result.now ≡ spec.name_in_text (text.field_of field.now) }
{
    match field {
        AcnField::Plain { name, .. } => name,
        AcnField::Inserted { name, .. } => name,
        AcnField::Number(name, _) => name,
    }
}

/// A field between braces as a use.
#[tactic(auto, using(acn_acn_syntax::proofs::Views::field_views, acn_acn_syntax::proofs::Views::braces_back))]
pub fn use_of(field: &AcnField) -> Option<Use<'_>>
    ensures { option_map use_view result ≡ spec.use_of (text.field_of field.now) }
{
    match field {
        AcnField::Plain {
            name: _,
            arguments,
            attributes,
            fields,
        } => Some(Use {
            arguments: arguments.items(),
            attributes: attributes.items(),
            braces: braces_items(fields),
        }),
        AcnField::Inserted { .. } => None,
        AcnField::Number(_, _) => None,
    }
}
