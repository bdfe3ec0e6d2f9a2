//! Memory of values that aren't needed any more, which the values of later lines take. No clause
//! speaks of how much there is, nor of what stands in it, since nothing but time rests on it.

ghost use Rattle.std.specs.Prelude.{◌≡◌, ◌≤◌, IfSome, None, length, take};
ghost use Rattle.acn_grammar.specs.View.{fields_view};
ghost use Rattle.acn_lines.specs.Order.{AreTurns};
ghost use Rattle.acn_lines.specs.Taken as taken;

use crate::places::no_values;
use crate::turns::Turn;
use acn_grammar::{Field, Value};
use acn_num::Row;
use std::alloc::Global;
use std::mem::replace;

/// So many pieces of each kind are kept at most.
const MOST_SPARE: usize = 64;

/// A string of more octets isn't kept.
const MOST_SPARE_OCTETS: usize = 1024;

/// A record of more places, or a list of more elements, isn't kept.
const MOST_SPARE_VALUES: usize = 64;

/// The value of a longer line isn't kept.
const MOST_SPARE_LINE: usize = 16_384;

/// Memory that was taken for values.
#[derive(Drop)]
pub struct Spare {
    pub alloc: Global,
    // the value of the line before, which the next value is read into, and whether one may be kept
    whole: Option<Value>,
    keeps: bool,
    strings: Vec<Vec<u8>>,
    // in these places values stand
    records: Vec<Vec<Option<Value>>>,
    lists: Vec<Vec<Value>>,
}

impl Spare {
    /// Nothing yet.
    pub fn new(alloc: Global) -> Spare {
        Spare {
            alloc,
            whole: None,
            keeps: false,
            strings: Vec::new(alloc),
            records: Vec::new(alloc),
            lists: Vec::new(alloc),
        }
    }

    /// Takes the value of a line, which isn't needed any more.
    pub fn keep_whole(&mut self, value: Value) {
        if self.keeps {
            self.whole = Some(value);
        }
    }

    /// The value of the line before, if it is kept, for a line of this length.
    pub fn old(&mut self, size: usize) -> Value {
        self.keeps = size <= MOST_SPARE_LINE;
        match self.whole.take() {
            Some(value) => value,
            None => Value::Null,
        }
    }

    // Room for octets, whatever stands in it.
    fn string(&mut self) -> Row<u8> {
        match self.strings.pop() {
            Some(room) => Row::from_vec(room),
            None => Row::new(self.alloc),
        }
    }

    /// Makes a value an octet string, of whatever octets.
    #[inline(never)]
    pub fn make_octets(&mut self, value: &mut Value) {
        let octets = Value::Octets(self.string());
        self.keep_value(replace(value, octets));
    }

    /// Makes a value a text, of whatever characters.
    #[inline(never)]
    pub fn make_text(&mut self, value: &mut Value) {
        let text = Value::Text(self.string());
        self.keep_value(replace(value, text));
    }

    /// Places of a record, one for each component, whatever stands in them: those of an old value,
    /// if there is one. None comes only where memory runs out.
    #[inline(always)]
    pub fn record(
        &mut self,
        old: &mut Value,
        fields: &[Field],
        turns: &[Turn],
    ) -> Option<Vec<Option<Value>>>
        requires { AreTurns (fields_view fields.now) turns.now }
        ensures { IfSome result (λ places. length places.items ≡ taken.component_count (fields_view fields.now)) }
    {
        let places = self.places(old);
        if places.len() == turns.len() {
            return Some(places);
        }
        self.empty_record(places, fields)
    }

    // The places of an old record, or of one that is kept.
    #[inline(always)]
    fn places(&mut self, old: &mut Value) -> Vec<Option<Value>> {
        match replace(old, Value::Null) {
            Value::Seq(places) => places.into_vec(),
            other => self.spare_places(other),
        }
    }

    // The places of a record that is kept, in place of another value.
    #[inline(never)]
    fn spare_places(&mut self, old: Value) -> Vec<Option<Value>> {
        self.keep_value(old);
        match self.records.pop() {
            Some(places) => places,
            None => Vec::new(self.alloc),
        }
    }

    // Empty places of a record, in the memory of others.
    #[inline(never)]
    fn empty_record(
        &mut self,
        old: Vec<Option<Value>>,
        fields: &[Field],
    ) -> Option<Vec<Option<Value>>>
        ensures { IfSome result (λ places. length places.items ≡ taken.component_count (fields_view fields.now)) }
    {
        let mut places = old;
        while let Some(place) = places.pop() {
            self.keep(place);
        }
        places.clear();
        match no_values(places, fields) {
            Ok(places) => Some(places),
            Err(_) => None,
        }
    }

    /// The elements of an old list, or room for those of a new one.
    pub fn elements(&mut self, old: &mut Value) -> Vec<Value> {
        match replace(old, Value::Null) {
            Value::List(elements) => elements.into_vec(),
            other => self.spare_elements(other),
        }
    }

    // Room for the elements of a list, in place of another value.
    fn spare_elements(&mut self, old: Value) -> Vec<Value> {
        self.keep_value(old);
        match self.lists.pop() {
            Some(elements) => elements,
            None => Vec::new(self.alloc),
        }
    }

    /// Takes the memory of the elements behind so many.
    pub fn cut(&mut self, elements: &mut Vec<Value>, size: usize)
        requires { size ≤ length elements.old.items }
        ensures { elements.new.items ≡ take size elements.old.items }
    {
        while elements.len() > size {
            match elements.pop() {
                Some(value) => self.keep_element(value),
                None => {}
            }
        }
    }

    /// The value in an old alternative.
    pub fn inside(&mut self, old: &mut Value) -> Value {
        match replace(old, Value::Null) {
            Value::Alt(_, inside) => inside.into_inner(),
            other => {
                self.keep_value(other);
                Value::Null
            }
        }
    }

    /// Takes the memory of the value in a place, if there is one.
    #[inline(always)]
    pub fn keep(&mut self, old: Option<Value>) {
        match old {
            Some(value) => self.keep_value(value),
            None => {}
        }
    }

    /// Empties a place.
    #[inline(always)]
    pub fn empty(&mut self, place: &mut Option<Value>)
        ensures { place.new ≡ None }
    {
        if place.is_some() {
            let old = place.take();
            self.keep(old);
        }
    }

    // Takes the memory of a value.
    #[inline(never)]
    fn keep_value(&mut self, value: Value) {
        match value {
            Value::List(elements) => self.keep_list(elements.into_vec()),
            other => self.keep_element(other),
        }
    }

    // Takes the memory of a value that is no list.
    fn keep_element(&mut self, value: Value) {
        match value {
            Value::Octets(octets) => self.keep_string(octets.into_vec()),
            Value::Text(characters) => self.keep_string(characters.into_vec()),
            Value::Seq(places) => self.keep_record(places.into_vec()),
            _ => {}
        }
    }

    // Takes the memory of a string.
    fn keep_string(&mut self, room: Vec<u8>) {
        if self.strings.len() < MOST_SPARE && room.len() <= MOST_SPARE_OCTETS {
            match self.strings.push(room) {
                Ok(()) => {}
                Err(_) => {}
            }
        }
    }

    // Takes the memory of a record, with the values in it.
    fn keep_record(&mut self, places: Vec<Option<Value>>) {
        if self.records.len() < MOST_SPARE && places.len() <= MOST_SPARE_VALUES {
            match self.records.push(places) {
                Ok(()) => {}
                Err(_) => {}
            }
        }
    }

    // Takes the memory of a list, and that of its elements.
    fn keep_list(&mut self, room: Vec<Value>) {
        let mut elements = room;
        let few = elements.len() <= MOST_SPARE_VALUES;
        while let Some(value) = elements.pop() {
            self.keep_element(value);
        }
        if few && self.lists.len() < MOST_SPARE {
            match self.lists.push(elements) {
                Ok(()) => {}
                Err(_) => {}
            }
        }
    }
}
