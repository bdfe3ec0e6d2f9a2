ghost use Rattle.std.specs.Prelude.{◌≡◌, ◌++◌, map, flat_map, OnOk, IfOk};
ghost use Rattle.acn_acn_syntax.specs.View.{field_of, fields_view, braces_view, entry_of};
ghost use Rattle.acn_mentions.specs.AcnMentioned.{acn_mentions_view};
ghost use Rattle.acn_mentions.specs.Mentions as spec;

use acn_acn_syntax::{AcnEntry, AcnField, Attr, FieldKind, Param, ParamKind};
use acn_num::{Name, NoMemory, Row};

/// Where an ACN entry refers to something by name.
#[derive(Clone, Copy)]
pub enum AcnMention<'t> {
    /// The type of a parameter.
    Parameter { name: &'t Name },
    /// The type of an inserted field.
    Field { name: &'t Name },
    /// A mapping table.
    Table { name: &'t Name },
}

// Adds the type of a parameter.
fn push_parameter<'t>(parameter: &'t Param, all: &mut Vec<AcnMention<'t>>) -> Result<(), NoMemory>
    ensures { OnOk result (acn_mentions_view all.new.items ≡ acn_mentions_view all.old.items ++ spec.parameter_mentions parameter.now) }
{
    match &parameter.kind {
        ParamKind::Ref(name) => {
            all.push(AcnMention::Parameter { name })?;
            Ok(())
        }
        ParamKind::Integer => Ok(()),
        ParamKind::Boolean => Ok(()),
    }
}

// Adds the types of parameters.
fn push_parameters<'t>(
    parameters: &'t [Param],
    all: &mut Vec<AcnMention<'t>>,
) -> Result<(), NoMemory>
    ensures { OnOk result (acn_mentions_view all.new.items ≡ acn_mentions_view all.old.items ++ flat_map spec.parameter_mentions parameters.now) }
{
    for parameter in parameters {
        push_parameter(parameter, all)?;
    }
    Ok(())
}

// Adds the type of an inserted field.
fn push_kind<'t>(kind: &'t FieldKind, all: &mut Vec<AcnMention<'t>>) -> Result<(), NoMemory>
    ensures { OnOk result (acn_mentions_view all.new.items ≡ acn_mentions_view all.old.items ++ spec.kind_mentions kind.now) }
{
    match kind {
        FieldKind::Ref(name) => {
            all.push(AcnMention::Field { name })?;
            Ok(())
        }
        FieldKind::Integer => Ok(()),
        FieldKind::Boolean => Ok(()),
        FieldKind::Null => Ok(()),
    }
}

// Adds the table that an attribute names.
fn push_attribute<'t>(attribute: &'t Attr, all: &mut Vec<AcnMention<'t>>) -> Result<(), NoMemory>
    ensures { OnOk result (acn_mentions_view all.new.items ≡ acn_mentions_view all.old.items ++ spec.attribute_mentions attribute.now) }
{
    match attribute {
        Attr::MappingFunction(name) => {
            all.push(AcnMention::Table { name })?;
            Ok(())
        }
        Attr::Size(_) => Ok(()),
        Attr::Encoding(_) => Ok(()),
        Attr::Endianness(_) => Ok(()),
        Attr::AlignToNext(_) => Ok(()),
        Attr::EncodeValues => Ok(()),
        Attr::TrueValue(_) => Ok(()),
        Attr::FalseValue(_) => Ok(()),
        Attr::Pattern(_) => Ok(()),
        Attr::TerminationPattern(_) => Ok(()),
        Attr::PresentWhen(_) => Ok(()),
        Attr::Determinant(_) => Ok(()),
    }
}

// Adds the tables that attributes name.
fn push_attributes<'t>(
    attributes: &'t [Attr],
    all: &mut Vec<AcnMention<'t>>,
) -> Result<(), NoMemory>
    ensures { OnOk result (acn_mentions_view all.new.items ≡ acn_mentions_view all.old.items ++ flat_map spec.attribute_mentions attributes.now) }
{
    for attribute in attributes {
        push_attribute(attribute, all)?;
    }
    Ok(())
}

// Adds what is mentioned in a field.
#[cycle(fields)]
#[tactic(auto, unfolding(crate::specs::Mentions::field_mentions, crate::specs::Mentions::braces_mentions, crate::specs::Mentions::fields_mentions), using(acn_acn_syntax::proofs::Views::field_views))]
fn push_field<'t>(field: &'t AcnField, all: &mut Vec<AcnMention<'t>>) -> Result<(), NoMemory>
    ensures { OnOk result (acn_mentions_view all.new.items ≡ acn_mentions_view all.old.items ++ spec.field_mentions (field_of field.now)) }
{
    match field {
        AcnField::Plain {
            attributes,
            fields,
            ..
        } => {
            push_attributes(attributes.items(), all)?;
            match fields {
                None => Ok(()),
                Some(inside) => {
                    push_fields(inside.items(), all)?;
                    Ok(())
                }
            }
        }
        AcnField::Inserted {
            kind,
            attributes,
            ..
        } => {
            push_kind(kind, all)?;
            push_attributes(attributes.items(), all)?;
            Ok(())
        }
        AcnField::Number(_, _) => Ok(()),
    }
}

// Adds what is mentioned in fields.
#[cycle(fields)]
#[tactic(auto, unfolding(crate::specs::Mentions::field_mentions, crate::specs::Mentions::braces_mentions, crate::specs::Mentions::fields_mentions), using(acn_acn_syntax::proofs::Views::field_views))]
fn push_fields<'t>(fields: &'t [AcnField], all: &mut Vec<AcnMention<'t>>) -> Result<(), NoMemory>
    ensures { OnOk result (acn_mentions_view all.new.items ≡ acn_mentions_view all.old.items ++ spec.fields_mentions (fields_view fields.now)) }
{
    for field in fields {
        push_field(field, all)?;
    }
    Ok(())
}

// Adds what is mentioned between braces.
#[tactic(auto, unfolding(crate::specs::Mentions::braces_mentions))]
fn push_braces<'t>(
    fields: &'t Option<Row<AcnField>>,
    all: &mut Vec<AcnMention<'t>>,
) -> Result<(), NoMemory>
    ensures { OnOk result (acn_mentions_view all.new.items ≡ acn_mentions_view all.old.items ++ spec.braces_mentions (braces_view fields.now)) }
{
    match fields {
        None => Ok(()),
        Some(fields) => {
            push_fields(fields.items(), all)?;
            Ok(())
        }
    }
}

/// Adds what is mentioned in an ACN entry, in the order of the text.
#[tactic(auto, unfolding(crate::specs::Mentions::entry_mentions))]
pub fn push_entry<'t>(entry: &'t AcnEntry, all: &mut Vec<AcnMention<'t>>) -> Result<(), NoMemory>
    ensures { OnOk result (acn_mentions_view all.new.items ≡ acn_mentions_view all.old.items ++ spec.entry_mentions (entry_of entry.now)) }
{
    push_parameters(entry.parameters.items(), all)?;
    push_attributes(entry.attributes.items(), all)?;
    push_braces(&entry.fields, all)?;
    Ok(())
}
