//! The fields of a SEQUENCE, found by their names.

ghost use Rattle.std.specs.Prelude.{map, option_map};
ghost use Rattle.acn_asn_syntax.specs.View.{component_view};
ghost use Rattle.acn_acn_syntax.specs.View.{field_of};
ghost use Rattle.acn_slots.specs.Listed.{AreNoted, texts};

use crate::fields::{Field, Use, braces_items, no_use};
use crate::placed::{
    component_alone, component_among, component_noted, text_alone, text_among, text_noted,
};
use crate::places::{Places, places_of, shared};
use acn_acn_syntax::AcnField;
use acn_asn_syntax::Component;
use acn_num::NoMemory;
use std::alloc::Global;
use std::rc::Rc;

// Where so many components and fields stand, or fewer, a name is looked for by going over them.
const FEW: usize = 8;

/// The components of a SEQUENCE, and the fields between its braces, where it has some. What has no components is asked for
/// the fields alone.
#[derive(Drop)]
pub struct Listed<'w> {
    /// The components, in the order of the text.
    pub components: &'w [Component],
    /// The fields between the braces, in the order of the packet.
    pub braces: Option<&'w [AcnField]>,
    places: Option<Rc<Places, Global>>,
    ghost placed: { AreNoted (map component_view components.now) (texts (option_map (λ fs. map field_of fs.now) braces)) (option_map (λ p. p.value) places) },
}

impl<'w> Listed<'w> {
    ghost use Rattle.std.specs.Prelude.{◌≡◌, find, IfOk, IfSome};
    ghost use Rattle.std.specs.Str.{bytes_eq};
    ghost use Rattle.acn_slots.specs.Slots as spec;
    ghost use Rattle.acn_slots.specs.Listed as listed;
    ghost use Rattle.acn_slots.specs.View.{braces_view, field_view, numbered_view};

    /// These components and fields, in which names are looked for by going over them. It takes no memory.
    pub fn bare(components: &'w [Component], braces: Option<&'w [AcnField]>) -> Listed<'w>
        ensures components { result.components.now ≡ components.now }
        ensures braces { braces_view result.braces ≡ braces_view braces.entry }
    {
        Listed {
            components,
            braces,
            places: None,
        }
    }

    /// These components and fields, with the places of their names noted where they are many.
    pub fn noted(
        alloc: Global,
        components: &'w [Component],
        braces: Option<&'w [AcnField]>,
    ) -> Result<Listed<'w>, NoMemory>
        ensures components { IfOk result (λ all. all.components.now ≡ components.now) }
        ensures braces { IfOk result (λ all. braces_view all.braces ≡ braces_view braces.entry) }
    {
        let fields = braces.unwrap_or(&[]);
        if components.len() <= FEW && fields.len() <= FEW {
            return Ok(Listed::bare(components, braces));
        }
        let places = Rc::new(alloc, places_of(alloc, components, fields)?)?;
        Ok(Listed {
            components,
            braces,
            places: Some(places),
        })
    }

    /// The same again, with the same places.
    pub fn copy(&self) -> Result<Listed<'w>, NoMemory>
        ensures components { IfOk result (λ all. all.components.now ≡ self.now.components.now) }
        ensures braces { IfOk result (λ all. braces_view all.braces ≡ braces_view self.now.braces) }
    {
        Ok(Listed {
            components: self.components,
            braces: self.braces,
            places: shared(&self.places)?,
        })
    }

    // The places of all names, where they are noted.
    fn noted_places(&self) -> Option<&Places>
        ensures { IfSome result (λ p. listed.ArePlaces (map component_view self.now.components.now) (texts (braces_view self.now.braces)) p.now) }
    {
        match &self.places {
            None => None,
            Some(places) => Some(places.as_ref()),
        }
    }

    // The first component of this name, with its number.
    fn component_at(&self, name: &[u8]) -> Option<(usize, &'w Component)>
        ensures { option_map (λ c. (c.0, component_view c.1.now)) result ≡ listed.component_at (map component_view self.now.components.now) name.now }
    {
        match self.noted_places() {
            None => component_among(self.components, name),
            Some(places) => component_noted(self.components, &places.components, name),
        }
    }

    // The first field of this name between the braces, with its number.
    fn text_at(&self, name: &[u8]) -> Option<(usize, &'w AcnField)>
        ensures { option_map (λ f. (f.0, field_of f.1.now)) result ≡ listed.text_at (texts (braces_view self.now.braces)) name.now }
    {
        let fields = self.braces?;
        match self.noted_places() {
            None => text_among(fields, name),
            Some(places) => text_noted(fields, &places.texts, name),
        }
    }

    /// The field between the braces that has this name.
    pub fn text_named(&self, name: &[u8]) -> Option<&'w AcnField>
        ensures { option_map (λ f. field_of f.now) result ≡ find (λ f. bytes_eq (spec.name_in_text f) name.now) (texts (braces_view self.now.braces)) }
    {
        text_alone(self.text_at(name))
    }

    // The component of this name.
    fn component_named(&self, name: &[u8]) -> Option<&'w Component>
        ensures { option_map (λ c. component_view c.now) result ≡ spec.component_named (map component_view self.now.components.now) name.now }
    {
        component_alone(self.component_at(name))
    }

    /// The field for which a field between the braces stands.
    #[tactic(auto, using(acn_acn_syntax::proofs::Views::field_views, acn_acn_syntax::proofs::Views::braces_back))]
    pub fn field_in(&self, field: &'w AcnField) -> Option<Field<'w>>
        ensures { option_map field_view result ≡ spec.field_in (map component_view self.now.components.now) (field_of field.now) }
    {
        match field {
            AcnField::Plain {
                name,
                arguments,
                attributes,
                fields,
            } => {
                let component = self.component_named(name.bytes())?;
                Some(Field::Component(
                    component,
                    Use {
                        arguments: arguments.items(),
                        attributes: attributes.items(),
                        braces: braces_items(fields),
                    },
                ))
            }
            AcnField::Inserted {
                name,
                kind,
                attributes,
            } => Some(Field::Inserted(name, kind, attributes.items())),
            AcnField::Number(_, _) => None,
        }
    }

    // The component of a name as a field, with its number.
    fn bare_field(&self, name: &[u8]) -> Option<(usize, Field<'w>)>
        ensures { option_map numbered_view result ≡ spec.field_named None (map component_view self.now.components.now) name.now }
    {
        let (number, component) = self.component_at(name)?;
        Some((number, Field::Component(component, no_use())))
    }

    // With the field for which it stands.
    fn numbered_field(&self, number: usize, field: &'w AcnField) -> Option<(usize, Field<'w>)>
        ensures { option_map numbered_view result ≡ spec.numbered_field (map component_view self.now.components.now) (number, field_of field.now) }
    {
        let field = self.field_in(field)?;
        Some((number, field))
    }

    /// The field of a name, with its number in the order of the packet.
    pub fn field_named(&self, name: &[u8]) -> Option<(usize, Field<'w>)>
        ensures { option_map numbered_view result ≡ spec.field_named (braces_view self.now.braces) (map component_view self.now.components.now) name.now }
    {
        match self.braces {
            None => self.bare_field(name),
            Some(_) => {
                let (number, field) = self.text_at(name)?;
                self.numbered_field(number, field)
            }
        }
    }
}
