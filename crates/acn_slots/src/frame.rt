ghost use Rattle.std.specs.Prelude.{◌≡◌, map, option_map, is_some, IfOk, Option, Some, None};
ghost use Rattle.acn_asn_syntax.specs.Mirror as plain_data;
ghost use Rattle.acn_asn_syntax.specs.View.{base_view, component_view};
ghost use Rattle.acn_world.specs.Chained.{chain_view, entry_view, entries_view};
ghost use Rattle.acn_index.specs.Chains as chains;
ghost use Rattle.acn_world.specs.Viewed.{world_view};
ghost use Rattle.acn_slots.specs.Slots as spec;
ghost use Rattle.acn_slots.specs.View.{braces_view, use_view, numbered_view, frame_view, step_view, origin_view};

use crate::fields::{Field, Use, braces_items, component_rest, component_type};
use crate::listed::Listed;
use crate::origin::Origin;
use crate::plain::PlainTypes;
use crate::rows::extended;
use crate::slots::{Slot, Sort};
use acn_acn_syntax::{AcnField, FieldKind};
use acn_asn_syntax::{AsnBase, Component, Rest};
use acn_num::{Name, NoMemory, Row};
use acn_world::{Chain, EntryAt, World};
use std::alloc::Global;

/// A SEQUENCE that is entered.
#[derive(Drop)]
pub struct Frame<'w> {
    /// The module in whose text its components stand.
    pub owner: u32,
    /// Its components, and the fields between its braces, where it has some.
    pub listed: Listed<'w>,
    /// The module in which references in these are read.
    pub reader: u32,
    /// The path of its node.
    pub path: Row<usize>,
}

/// A field on the way of a path.
#[derive(Drop)]
pub struct Step<'w> {
    /// Whether it may be absent.
    pub optional: bool,
    /// Its slot, where it has a number of its own.
    pub slot: Option<Slot>,
    /// What is inside it, where it is a SEQUENCE.
    pub inside: Option<Frame<'w>>,
}

/// The type behind all references of a chain.
#[tactic(auto, using(acn_asn_syntax::proofs::Views::open_type))]
pub fn base_of<'w>(chain: &Chain<'w>) -> &'w AsnBase
    ensures { base_view result.now ≡ chains.base_part (chains.ChainOf.base (chain_view chain.now)) }
{
    &chain.base.base
}

// What numbers a type has as a determinant.
#[tactic(auto, using(acn_asn_syntax::proofs::Views::type_views))]
fn sort_of_base(base: &AsnBase) -> Option<Sort>
    ensures { result ≡ spec.sort_of_base (base_view base.now) }
{
    match base {
        AsnBase::Integer(_) => Some(Sort::Integer),
        AsnBase::Boolean => Some(Sort::Boolean),
        AsnBase::Enumerated(_) => Some(Sort::Enumerated),
        AsnBase::Null => None,
        AsnBase::OctetString => None,
        AsnBase::BitString => None,
        AsnBase::Ia5String => None,
        AsnBase::Sequence(_) => None,
        AsnBase::SequenceOf(None, _) => None,
        AsnBase::SequenceOf(Some(_), _) => None,
        AsnBase::Choice(_) => None,
        AsnBase::Ref(_, _) => None,
    }
}

/// What numbers the type of a chain has as a determinant; none where it can't be one.
pub fn sort_of(chain: &Chain<'_>) -> Option<Sort>
    ensures { result ≡ spec.sort_of (chain_view chain.now) }
{
    sort_of_base(base_of(chain))
}

// The components of a SEQUENCE.
#[tactic(auto, using(acn_asn_syntax::proofs::Views::type_views, acn_asn_syntax::proofs::Views::components_back))]
fn components_in(base: &AsnBase) -> Option<&[Component]>
    ensures { option_map (λ cs. map component_view cs.now) result ≡ spec.components_in (base_view base.now) }
{
    match base {
        AsnBase::Sequence(components) => Some(components.items()),
        AsnBase::Integer(_) => None,
        AsnBase::Boolean => None,
        AsnBase::Enumerated(_) => None,
        AsnBase::Null => None,
        AsnBase::OctetString => None,
        AsnBase::BitString => None,
        AsnBase::Ia5String => None,
        AsnBase::SequenceOf(None, _) => None,
        AsnBase::SequenceOf(Some(_), _) => None,
        AsnBase::Choice(_) => None,
        AsnBase::Ref(_, _) => None,
    }
}

// Whether an entry has braces.
fn has_braces(entry: EntryAt<'_>) -> bool
    ensures { result ≡ spec.has_braces (entry_view entry.entry) }
{
    braces_items(&entry.is.fields).is_some()
}

// The outermost of these entries that has braces.
fn entry_with_braces<'w>(entries: &[EntryAt<'w>]) -> Option<Origin<'w>>
    ensures { option_map origin_view result ≡ spec.entry_with_braces (entries_view entries.now) }
{
    let mut found = None;
    for entry in entries {
        if has_braces(*entry) {
            found = Some(Origin::Entry(*entry));
        }
    }
    found
}

/// Where the braces of a type stand: at its use, else at the first entry that has some, from the outermost to the base.
pub fn braces_origin<'w>(chain: &Chain<'w>, used: Use<'w>) -> Option<Origin<'w>>
    ensures { option_map origin_view result ≡ spec.braces_origin (chain_view chain.now) (use_view used.entry) }
{
    match used.braces {
        Some(_) => Some(Origin::Use),
        None => entry_with_braces(chain.entries.items()),
    }
}

/// The braces that stand there.
pub fn braces_at<'w>(used: Use<'w>, from: Option<Origin<'w>>) -> Option<&'w [AcnField]>
    ensures { braces_view result ≡ spec.braces_at (use_view used.entry) (option_map origin_view from.entry) }
{
    match from {
        None => None,
        Some(Origin::Use) => used.braces,
        Some(Origin::Entry(entry)) => braces_items(&entry.is.fields),
    }
}

/// The module in which their references are read.
pub fn braces_module(reader: u32, from: Option<Origin<'_>>) -> u32
    ensures { result ≡ spec.braces_module reader (option_map origin_view from.entry) }
{
    match from {
        None => reader,
        Some(Origin::Use) => reader,
        Some(Origin::Entry(entry)) => entry.module,
    }
}

/// The frame of a SEQUENCE that is used so in the text of the module with a number; none where it is no SEQUENCE.
pub fn frame_of<'w>(
    chain: &Chain<'w>,
    used: Use<'w>,
    reader: u32,
    path: Row<usize>,
) -> Option<Frame<'w>>
    ensures { option_map frame_view result ≡ spec.frame_of (chain_view chain.now) (use_view used.entry) reader path }
{
    let components = components_in(base_of(chain))?;
    let from = braces_origin(chain, used);
    Some(Frame {
        owner: chain.module,
        listed: Listed::bare(components, braces_at(used, from)),
        reader: braces_module(reader, from),
        path,
    })
}

/// The chain of an inserted field or of a parameter, in the module with this number.
pub fn kind_chain<'w>(
    alloc: Global,
    world: &'w World,
    plain: &'w PlainTypes,
    reader: u32,
    kind: &FieldKind,
) -> Result<Chain<'w>, NoMemory>
    ensures { IfOk result (λ chain. chain_view chain ≡ spec.kind_chain (world_view world.now) reader kind.now) }
{
    match kind {
        FieldKind::Integer => world.chain(alloc, reader, plain.integer()),
        FieldKind::Boolean => world.chain(alloc, reader, plain.boolean()),
        FieldKind::Null => world.chain(alloc, reader, plain.null()),
        FieldKind::Ref(name) => named_or_null(alloc, world, plain, reader, name),
    }
}

// The chain of the type to which a reference leads.
fn named_or_null<'w>(
    alloc: Global,
    world: &'w World,
    plain: &'w PlainTypes,
    reader: u32,
    name: &Name,
) -> Result<Chain<'w>, NoMemory>
    ensures { IfOk result (λ chain. chain_view chain ≡ spec.default_of (spec.named_chain (world_view world.now) reader name.now) (chains.chain_of (world_view world.now) (chains.written reader (spec.plain_type plain_data.null)))) }
{
    match world.lookup(reader, name.bytes()) {
        Some(of) => world.chain_at(alloc, of),
        None => world.chain(alloc, reader, plain.null()),
    }
}

/// Whether a component may be absent.
pub fn is_optional(rest: &Rest) -> bool
    ensures { result ≡ spec.is_optional rest.now }
{
    match rest {
        Rest::Required => false,
        Rest::Optional => true,
        Rest::Default(_) => true,
    }
}

// The slot at a path, where its field has numbers.
fn slot_at(path: Row<usize>, sort: Option<Sort>) -> Option<Slot>
    ensures { result ≡ spec.slot_at path sort }
{
    let sort = sort?;
    Some(Slot { path, sort })
}

impl<'w> Frame<'w> {
    // The step to a component.
    fn component_step(
        &self,
        alloc: Global,
        chain: &Chain<'w>,
        number: usize,
        rest: &Rest,
        used: Use<'w>,
    ) -> Result<Step<'w>, NoMemory>
        ensures { IfOk result (λ step. step_view step ≡ spec.component_step (chain_view chain.now) (frame_view self.now) number rest.now (use_view used.entry)) }
    {
        let path = extended(alloc, self.path.items(), number)?;
        let inside = extended(alloc, self.path.items(), number)?;
        Ok(Step {
            optional: is_optional(rest),
            slot: slot_at(path, sort_of(chain)),
            inside: frame_of(chain, used, self.reader, inside),
        })
    }

    // The step to an inserted field.
    fn inserted_step(
        &self,
        alloc: Global,
        chain: &Chain<'w>,
        number: usize,
    ) -> Result<Step<'w>, NoMemory>
        ensures { IfOk result (λ step. step_view step ≡ spec.extra_step (chain_view chain.now) (frame_view self.now) number) }
    {
        let path = extended(alloc, self.path.items(), number)?;
        Ok(Step {
            optional: false,
            slot: slot_at(path, sort_of(chain)),
            inside: None,
        })
    }

    // The step to a field.
    fn field_step(
        &self,
        alloc: Global,
        world: &'w World,
        plain: &'w PlainTypes,
        number: usize,
        field: Field<'w>,
    ) -> Result<Step<'w>, NoMemory>
        ensures { IfOk result (λ step. step_view step ≡ spec.field_step (world_view world.now) (frame_view self.now) (numbered_view (number, field.entry))) }
    {
        match field {
            Field::Component(component, used) => {
                let chain = world.chain(alloc, self.owner, component_type(component))?;
                self.component_step(alloc, &chain, number, component_rest(component), used)
            }
            Field::Inserted(_, kind, _) => {
                let chain = kind_chain(alloc, world, plain, self.reader, kind)?;
                self.inserted_step(alloc, &chain, number)
            }
        }
    }

    /// Whether it has a field of this name.
    pub fn has_field(&self, name: &[u8]) -> bool
        ensures { result ≡ spec.has_field name.now (frame_view self.now) }
    {
        self.listed.field_named(name).is_some()
    }

    /// The step to the field of this name, where there is one.
    #[tactic(auto, unfolding(crate::specs::Slots::step_at))]
    pub fn step_at(
        &self,
        alloc: Global,
        world: &'w World,
        plain: &'w PlainTypes,
        name: &[u8],
    ) -> Result<Option<Step<'w>>, NoMemory>
        ensures { IfOk result (λ step. option_map step_view step ≡ spec.step_at (world_view world.now) (frame_view self.now) name.now) }
    {
        match self.listed.field_named(name) {
            None => Ok(None),
            Some((number, field)) => {
                let step = self.field_step(alloc, world, plain, number, field)?;
                Ok(Some(step))
            }
        }
    }

    /// The same frame again.
    pub fn copy(&self, alloc: Global) -> Result<Frame<'w>, NoMemory>
        ensures { IfOk result (λ frame. frame_view frame ≡ frame_view self.now) }
    {
        Ok(Frame {
            owner: self.owner,
            listed: self.listed.copy()?,
            reader: self.reader,
            path: crate::rows::copied(alloc, self.path.items())?,
        })
    }
}
