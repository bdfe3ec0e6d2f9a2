ghost use Rattle.std.specs.Prelude.{◌≡◌, ◌<◌, ◌-◌, ◌^◌, [], ◌∷◌, ◌++◌, length, map, find, OnOk, OnErr, option_map};
ghost use Rattle.acn_params.specs.Paths as spec;
ghost use Rattle.acn_params.specs.View.{field_of, fields_view};

use acn_acn_syntax::AcnPath;
use acn_num::{Name, NoMemory, Row};
use std::alloc::Global;

/// A field of a SEQUENCE, as a path sees it. These rules are this profile's own.
#[cycle(field)]
#[derive(Drop)]
pub enum ScopeField {
    /// An inserted field other than NULL, or a component that is an INTEGER, BOOLEAN or ENUMERATED: its name, the number of
    /// its slot, and whether it is OPTIONAL or has a DEFAULT.
    Slot(Name, u32, bool),
    /// A component that is a SEQUENCE: its name, its fields, and whether it is OPTIONAL or has a DEFAULT.
    Inner(Name, Row<ScopeField>, bool),
    /// Any other field: its name.
    Other(Name),
}

/// Why a path leads to no determinant.
#[derive(Clone, Copy)]
pub enum ParamFault {
    /// It leads neither to an inserted field other than NULL nor to a component that is an INTEGER, BOOLEAN or ENUMERATED.
    UnknownPath,
    /// It leads to one, but its first `through` names end at a component that may be absent. The number is the least such.
    DeterminantMayBeAbsent { through: u32 },
}

/// What the paths at a place of a grammar can lead to: the SEQUENCEs that are entered, and the parameters that are bound.
#[derive(Drop)]
pub struct Scope {
    bound: Vec<(Name, u32)>,
    entered: Vec<Row<ScopeField>>,
}

impl ScopeField {
    #[tactic(auto, using(crate::proofs::Views::field_views))]
    fn name(&self) -> &Name
        ensures { result.now ≡ spec.name_of (field_of self.now) }
    {
        match self {
            ScopeField::Slot(name, _, _) => name,
            ScopeField::Inner(name, _, _) => name,
            ScopeField::Other(name) => name,
        }
    }

    #[tactic(auto, using(crate::proofs::Views::field_views))]
    fn is_named(&self, name: &[u8]) -> bool
        ensures { result ≡ spec.is_named name.now (field_of self.now) }
    {
        self.name().bytes() == name
    }

    #[tactic(auto, using(crate::proofs::Views::field_views))]
    fn is_optional(&self) -> bool
        ensures { result ≡ spec.is_optional (field_of self.now) }
    {
        match self {
            ScopeField::Slot(_, _, optional) => *optional,
            ScopeField::Inner(_, _, optional) => *optional,
            ScopeField::Other(_) => false,
        }
    }

    #[tactic(auto, using(crate::proofs::Views::field_views, crate::proofs::Views::fields_back))]
    fn inside(&self) -> &[ScopeField]
        ensures { fields_view result.now ≡ spec.inside (field_of self.now) }
    {
        match self {
            ScopeField::Slot(_, _, _) => &[],
            ScopeField::Inner(_, fields, _) => fields.items(),
            ScopeField::Other(_) => &[],
        }
    }

    #[tactic(auto, using(crate::proofs::Views::field_views))]
    fn slot(&self) -> Option<u32>
        ensures { result ≡ spec.slot_of_field (field_of self.now) }
    {
        match self {
            ScopeField::Slot(_, number, _) => Some(*number),
            ScopeField::Inner(_, _, _) => None,
            ScopeField::Other(_) => None,
        }
    }
}

// The first field of this name.
fn named<'a>(fields: &'a [ScopeField], name: &[u8]) -> Option<&'a ScopeField>
    ensures { option_map (λ f. field_of f.now) result ≡ find (spec.is_named name.now) (fields_view fields.now) }
{
    for field in fields {
        if field.is_named(name) {
            return Some(field);
        }
    }
    None
}

// The slot to which the names lead from these fields on.
#[tactic(auto, using(crate::proofs::Along::resumed_is_judged))]
fn slot_along(fields: &[ScopeField], names: &[Name]) -> Result<u32, ParamFault>
    requires { length names.now < 2 ^ 32 }
    ensures { result ≡ spec.judged (spec.along (fields_view fields.now) names.now) }
{
    let mut inside = fields;
    let mut slot = None;
    let mut absent = None;
    for (i, name) in names.iter().enumerate() {
        let field = match named(inside, name.bytes()) {
            Some(field) => field,
            None => return Err(ParamFault::UnknownPath),
        };
        absent = first_absent(absent, i, field);
        slot = field.slot();
        inside = field.inside();
    }
    answer(slot, absent)
}

// How many names lead up to the first field that may be absent, when one field more is passed.
fn first_absent(before: Option<u32>, passed: usize, field: &ScopeField) -> Option<u32>
    requires { passed < 2 ^ 32 - 1 }
    ensures { result ≡ spec.first_absent before passed (field_of field.now) }
{
    match before {
        Some(through) => Some(through),
        None => {
            if field.is_optional() {
                Some(passed as u32 + 1)
            } else {
                None
            }
        }
    }
}

fn answer(slot: Option<u32>, absent: Option<u32>) -> Result<u32, ParamFault>
    ensures { result ≡ spec.answer slot absent }
{
    match slot {
        None => Err(ParamFault::UnknownPath),
        Some(number) => match absent {
            None => Ok(number),
            Some(through) => Err(ParamFault::DeterminantMayBeAbsent { through }),
        },
    }
}

impl Scope {
    /// Nothing is entered, and these parameters are bound to slots. It takes no memory.
    pub fn new(alloc: Global, bound: Vec<(Name, u32)>) -> Scope
        ensures bound { result.bound.items ≡ bound.items }
        ensures entered { result.entered.items ≡ [] }
    {
        Scope {
            bound,
            entered: Vec::new(alloc),
        }
    }

    /// Enters a SEQUENCE with these fields. Where memory fails nothing is entered.
    pub fn enter(&mut self, fields: Vec<ScopeField>) -> Result<(), NoMemory>
        ensures bound { self.new.bound ≡ self.old.bound }
        ensures ok { OnOk result (self.new.entered.items ≡ self.old.entered.items ++ fields.items ∷ []) }
        ensures err { OnErr result (self.new.entered.items ≡ self.old.entered.items) }
    {
        self.entered.push(Row::from_vec(fields))?;
        Ok(())
    }

    /// Leaves the SEQUENCE that was entered last.
    pub fn leave(&mut self)
        requires { 0 < length self.old.entered.items }
        ensures bound { self.new.bound ≡ self.old.bound }
        ensures entered { spec.IsLeft self.old.entered.items self.new.entered.items }
    {
        self.entered.pop();
    }

    // The fields of the SEQUENCE that was entered last of those that have a field of this name.
    fn fields_with(&self, name: &[u8]) -> Option<&[ScopeField]>
        ensures { option_map (λ fields. fields_view fields.now) result ≡ spec.last_with name.now (map fields_view self.now.entered.items) }
    {
        let mut found = None;
        for fields in &self.entered {
            if has_name(fields.items(), name) {
                found = Some(fields.items());
            }
        }
        found
    }

    // The slot to which a parameter of this name is bound.
    fn bound_to(&self, name: &[u8]) -> Option<u32>
        ensures { result ≡ spec.bound_to self.now.bound.items name.now }
    {
        for (bound, slot) in &self.bound {
            if bound.bytes() == name {
                return Some(*slot);
            }
        }
        None
    }

    // The slot of a parameter, which is one name alone.
    fn parameter(&self, names: &[Name]) -> Result<u32, ParamFault>
        ensures { result ≡ spec.by_parameter self.now.bound.items names.now }
    {
        match names {
            [name] => match self.bound_to(name.bytes()) {
                Some(slot) => Ok(slot),
                None => Err(ParamFault::UnknownPath),
            },
            _ => Err(ParamFault::UnknownPath),
        }
    }

    /// The slot to which a path leads. Its first name is looked up in the SEQUENCE that was entered last of those that have
    /// it, then among the bound parameters. It takes no memory.
    ///
    /// `UnknownPath` comes exactly where it leads to no determinant, and `DeterminantMayBeAbsent` exactly where it leads to
    /// one and a field on the way, or this itself, may be absent: `through` names lead up to the first such field.
    pub fn slot_of(&self, path: &AcnPath) -> Result<u32, ParamFault>
        requires { length path.now.names < 2 ^ 32 }
        ensures { result ≡ spec.slot_at (map fields_view self.now.entered.items) self.now.bound.items path.now.names }
    {
        let names = path.names.items();
        match names.first() {
            None => Err(ParamFault::UnknownPath),
            Some(name) => match self.fields_with(name.bytes()) {
                Some(fields) => slot_along(fields, names),
                None => self.parameter(names),
            },
        }
    }
}

// Whether a field has this name.
fn has_name(fields: &[ScopeField], name: &[u8]) -> bool
    ensures { result ≡ spec.has_name name.now (fields_view fields.now) }
{
    for field in fields {
        if field.is_named(name) {
            return true;
        }
    }
    false
}
