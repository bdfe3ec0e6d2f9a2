//! The first places of names in a SEQUENCE.

ghost use Rattle.std.specs.Prelude.{◌≡◌, map, option_map, IfOk};
ghost use Rattle.acn_asn_syntax.specs.View.{component_view};
ghost use Rattle.acn_acn_syntax.specs.View.{field_of};
ghost use Rattle.acn_index.specs.Keyed.{firsts};
ghost use Rattle.acn_slots.specs.Listed as spec;

use crate::fields::{component_name, name_in_text};
use acn_acn_syntax::AcnField;
use acn_asn_syntax::Component;
use acn_firsts::Firsts;
use acn_num::NoMemory;
use std::alloc::Global;
use std::rc::Rc;

/// The first place of each name among the components of a SEQUENCE, and among the fields between braces.
#[derive(Drop)]
pub struct Places {
    pub components: Firsts,
    pub texts: Firsts,
}

// The places of components.
#[tactic(auto, unfolding(acn_firsts::specs::Placed::noted_all))]
fn component_places(alloc: Global, components: &[Component]) -> Result<Firsts, NoMemory>
    ensures { IfOk result (λ all. all ≡ firsts spec.component_key (map component_view components.now)) }
{
    let mut all = Firsts::new(alloc);
    for (i, component) in components.iter().enumerate() {
        all.note(alloc, component_name(component).bytes(), i)?;
    }
    Ok(all)
}

// The places of fields between braces.
#[tactic(auto, unfolding(acn_firsts::specs::Placed::noted_all))]
fn text_places(alloc: Global, fields: &[AcnField]) -> Result<Firsts, NoMemory>
    ensures { IfOk result (λ all. all ≡ firsts spec.text_key (map field_of fields.now)) }
{
    let mut all = Firsts::new(alloc);
    for (i, field) in fields.iter().enumerate() {
        all.note(alloc, name_in_text(field).bytes(), i)?;
    }
    Ok(all)
}

/// The places of all names of these components and fields.
pub fn places_of(
    alloc: Global,
    components: &[Component],
    fields: &[AcnField],
) -> Result<Places, NoMemory>
    ensures { IfOk result (λ places. spec.ArePlaces (map component_view components.now) (map field_of fields.now) places) }
{
    Ok(Places {
        components: component_places(alloc, components)?,
        texts: text_places(alloc, fields)?,
    })
}

/// The same again, kept once for both.
pub fn shared<T: Drop>(kept: &Option<Rc<T, Global>>) -> Result<Option<Rc<T, Global>>, NoMemory>
    ensures { IfOk result (λ same. option_map (λ p. p.value) same ≡ option_map (λ p. p.value) kept.now) }
{
    match kept {
        None => Ok(None),
        Some(kept) => Ok(Some(kept.clone()?)),
    }
}
