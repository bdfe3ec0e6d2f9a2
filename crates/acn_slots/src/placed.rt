//! What stands under a name in a list, by its place or by going over all of it.

ghost use Rattle.std.specs.Prelude.{◌≡◌, map, option_map, option_and_then};
ghost use Rattle.acn_asn_syntax.specs.View.{component_view};
ghost use Rattle.acn_acn_syntax.specs.View.{field_of};
ghost use Rattle.acn_index.specs.Keyed.{firsts};
ghost use Rattle.acn_slots.specs.Listed as spec;

use crate::fields::{component_name, name_in_text};
use acn_acn_syntax::AcnField;
use acn_asn_syntax::Component;
use acn_firsts::Firsts;

/// The first component of this name, with its number.
pub fn component_among<'w>(
    components: &'w [Component],
    name: &[u8],
) -> Option<(usize, &'w Component)>
    ensures { option_map (λ c. (c.0, component_view c.1.now)) result ≡ spec.component_at (map component_view components.now) name.now }
{
    for (i, component) in components.iter().enumerate() {
        if component_name(component).bytes() == name {
            return Some((i, component));
        }
    }
    None
}

/// The first field of this name between braces, with its number.
pub fn text_among<'w>(fields: &'w [AcnField], name: &[u8]) -> Option<(usize, &'w AcnField)>
    ensures { option_map (λ f. (f.0, field_of f.1.now)) result ≡ spec.text_at (map field_of fields.now) name.now }
{
    for (i, field) in fields.iter().enumerate() {
        if name_in_text(field).bytes() == name {
            return Some((i, field));
        }
    }
    None
}

// The component with this number.
fn component_with<'w>(
    components: &'w [Component],
    number: Option<usize>,
) -> Option<(usize, &'w Component)>
    ensures { option_map (λ c. (c.0, component_view c.1.now)) result ≡ option_and_then (spec.numbered (map component_view components.now)) number }
{
    let number = number?;
    let component = components.get(number)?;
    Some((number, component))
}

// The field with this number.
fn text_with<'w>(fields: &'w [AcnField], number: Option<usize>) -> Option<(usize, &'w AcnField)>
    ensures { option_map (λ f. (f.0, field_of f.1.now)) result ≡ option_and_then (spec.numbered (map field_of fields.now)) number }
{
    let number = number?;
    let field = fields.get(number)?;
    Some((number, field))
}

/// The first component of this name, with its number, by the places of all names.
#[tactic(auto, using(crate::proofs::FirstListed::component_first))]
pub fn component_noted<'w>(
    components: &'w [Component],
    places: &Firsts,
    name: &[u8],
) -> Option<(usize, &'w Component)>
    requires { places.now ≡ firsts spec.component_key (map component_view components.now) }
    ensures { option_map (λ c. (c.0, component_view c.1.now)) result ≡ spec.component_at (map component_view components.now) name.now }
{
    component_with(components, places.get(name))
}

/// The first field of this name between braces, with its number, by the places of all names.
#[tactic(auto, using(crate::proofs::FirstListed::text_first))]
pub fn text_noted<'w>(
    fields: &'w [AcnField],
    places: &Firsts,
    name: &[u8],
) -> Option<(usize, &'w AcnField)>
    requires { places.now ≡ firsts spec.text_key (map field_of fields.now) }
    ensures { option_map (λ f. (f.0, field_of f.1.now)) result ≡ spec.text_at (map field_of fields.now) name.now }
{
    text_with(fields, places.get(name))
}

/// The component without its number.
pub fn component_alone<'w>(found: Option<(usize, &'w Component)>) -> Option<&'w Component>
    ensures { option_map (λ c. component_view c.now) result ≡ spec.without_number (option_map (λ c. (c.0, component_view c.1.now)) found.entry) }
{
    let (_, component) = found?;
    Some(component)
}

/// The field without its number.
pub fn text_alone<'w>(found: Option<(usize, &'w AcnField)>) -> Option<&'w AcnField>
    ensures { option_map (λ f. field_of f.now) result ≡ spec.without_number (option_map (λ f. (f.0, field_of f.1.now)) found.entry) }
{
    let (_, field) = found?;
    Some(field)
}
