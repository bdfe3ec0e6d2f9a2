//! The value itself is kept.

ghost use Rattle.std.specs.Prelude.{◌≡◌, map, true};
ghost use Rattle.acn_grammar.specs.View.{data_of};

use crate::keep::Keep;
use acn_bits::ReadCursor;
use acn_grammar::{NumLeaf, Sizing, TextLeaf, Value};
use acn_num::{Boxed, NoMemory, Row};
use acn_reads::{Stop, number_value, read_bits, read_octets, read_text};
use std::alloc::Global;

/// What keeps values.
#[derive(Drop)]
pub struct Values {
    pub alloc: Global,
}

impl Keep for Values {
    ghost use Rattle.std.specs.Prelude.{◌≡◌, map, option_map, true};
    ghost use Rattle.acn_grammar.specs.View.{data_of};

    type Kept = Value;

    type Places = Row<Option<Value>>;

    type Elements = Row<Value>;

    ghost says = { λ kept d. d ≡ data_of kept };

    ghost places_say = { λ places ds. ds ≡ map (option_map data_of) places };

    ghost elements_say = { λ elements ds. ds ≡ map data_of elements };

    ghost takes = { true };

    fn number(&self, leaf: &NumLeaf, x: &i128) -> Value {
        number_value(leaf, x)
    }

    fn octets(
        &self,
        cur: &mut ReadCursor<'_>,
        sizing: &Sizing,
        slots: &[(u32, i128)],
        inside: bool,
        from: u64,
    ) -> Result<Value, Stop> {
        read_octets(self.alloc, cur, sizing, slots, inside, from)
    }

    fn bits(
        &self,
        cur: &mut ReadCursor<'_>,
        sizing: &Sizing,
        slots: &[(u32, i128)],
        inside: bool,
        from: u64,
    ) -> Result<Value, Stop> {
        read_bits(self.alloc, cur, sizing, slots, inside, from)
    }

    fn text(
        &self,
        cur: &mut ReadCursor<'_>,
        leaf: &TextLeaf,
        slots: &[(u32, i128)],
        inside: bool,
        from: u64,
    ) -> Result<Value, Stop> {
        read_text(self.alloc, cur, leaf, slots, inside, from)
    }

    fn no_places(&self, most: usize) -> Result<Row<Option<Value>>, NoMemory> {
        Ok(Row::from_vec(Vec::with_capacity(self.alloc, most)?))
    }

    fn add_component(
        &self,
        places: &mut Row<Option<Value>>,
        component: Value,
    ) -> Result<(), NoMemory> {
        places.push(Some(component))
    }

    fn add_absent(&self, places: &mut Row<Option<Value>>) -> Result<(), NoMemory> {
        places.push(None)
    }

    fn sequence(&self, places: Row<Option<Value>>) -> Value {
        Value::Seq(places)
    }

    fn no_elements(&self) -> Row<Value> {
        Row::new(self.alloc)
    }

    fn add_element(&self, elements: &mut Row<Value>, element: Value) -> Result<(), NoMemory> {
        elements.push(element)
    }

    fn list(&self, elements: Row<Value>) -> Value {
        Value::List(elements)
    }

    fn alternative(&self, i: u32, kept: Value) -> Result<Value, NoMemory> {
        let boxed = Boxed::new(self.alloc, kept)?;
        Ok(Value::Alt(i, boxed))
    }
}
