ghost use Rattle.std.specs.Prelude.{◌≡◌, ◌∷◌, [], ◌++◌, map, option_map, option_and_then, option_to_list, IfOk, OnOk, Some, None};
ghost use Rattle.acn_asn_syntax.specs.Mirror as tree;
ghost use Rattle.acn_asn_syntax.specs.View.{base_view, component_view, alternative_view, constraint_view, type_view};
ghost use Rattle.acn_acn_syntax.specs.View.{field_of};
ghost use Rattle.acn_world.specs.Chained.{chain_view, constraints_view};
ghost use Rattle.acn_world.specs.Viewed.{world_view};
ghost use Rattle.acn_slots.specs.Slots as slots;
ghost use Rattle.acn_sites.specs.Places as places;
ghost use Rattle.acn_sites.specs.Sites as spec;
ghost use Rattle.acn_slots.specs.View.{braces_view, use_view, field_view, numbered_view, frame_view, scope_view, origin_view};
ghost use Rattle.acn_sites.specs.View.{position_view, site_view, below_view, inside_view, typed_view, sites_view};

use crate::site::{Position, Site, copied_frames, copied_scope, has_parameters, no_scope};
use acn_acn_syntax::AcnField;
use acn_asn_syntax::{Alternative, AsnBase, AsnType, Component, Constraint};
use acn_num::{Name, NoMemory, Row};
use acn_slots::{
    Field, Frame, Listed, Origin, PlainTypes, Scope, Use, base_of, braces_at, braces_module,
    braces_origin, component_name, component_rest, component_type, copied, extended, kind_chain,
    no_use, use_of,
};
use acn_world::{Chain, World};
use std::alloc::Global;

/// What the sites below a site share.
#[derive(Drop)]
pub struct Below<'w> {
    owner: u32,
    braces: Option<&'w [AcnField]>,
    at: Row<usize>,
    reader: u32,
    scope: Scope<'w>,
    path: Row<usize>,
}

/// What a type has inside.
#[derive(Clone, Copy)]
pub enum Inside<'w> {
    /// The components of a SEQUENCE.
    Components(&'w [Component]),
    /// The alternatives of a CHOICE.
    Alternatives(&'w [Alternative]),
    /// The element of a list.
    Element(&'w AsnType),
    /// Octets, which may contain a type.
    Octets,
    /// Nothing.
    Nothing,
}

/// A type with the module in whose text it stands.
#[derive(Clone, Copy)]
pub struct Typed<'w> {
    /// The module.
    pub owner: u32,
    /// The type.
    pub of: &'w AsnType,
}

/// What a type has inside.
#[tactic(auto, using(acn_asn_syntax::proofs::Views::type_views, acn_asn_syntax::proofs::Views::components_back, acn_asn_syntax::proofs::Views::alternatives_back))]
pub fn inside_of(base: &AsnBase) -> Inside<'_>
    ensures { inside_view result ≡ spec.inside_of (base_view base.now) }
{
    match base {
        AsnBase::Sequence(components) => Inside::Components(components.items()),
        AsnBase::Choice(alternatives) => Inside::Alternatives(alternatives.items()),
        AsnBase::SequenceOf(None, of) => Inside::Element(of.get()),
        AsnBase::SequenceOf(Some(_), of) => Inside::Element(of.get()),
        AsnBase::OctetString => Inside::Octets,
        AsnBase::Integer(_) => Inside::Nothing,
        AsnBase::Boolean => Inside::Nothing,
        AsnBase::Enumerated(_) => Inside::Nothing,
        AsnBase::Null => Inside::Nothing,
        AsnBase::BitString => Inside::Nothing,
        AsnBase::Ia5String => Inside::Nothing,
        AsnBase::Ref(_, _) => Inside::Nothing,
    }
}

// The place of a field between the braces at a place.
fn field_place(alloc: Global, at: &[usize], number: usize) -> Result<Row<usize>, NoMemory>
    ensures { IfOk result (λ all. all ≡ places.field_place at.now number) }
{
    let mut all = copied(alloc, at)?;
    all.push(2)?;
    all.push(number)?;
    Ok(all)
}

// The place of the braces of a site.
fn braces_place<'w>(
    alloc: Global,
    site: &Site<'w>,
    from: Option<Origin<'w>>,
) -> Result<Row<usize>, NoMemory>
    ensures { IfOk result (λ at. at ≡ spec.braces_place (site_view site.now) (option_map origin_view from.entry)) }
{
    match from {
        None => Ok(Row::new(alloc)),
        Some(from) => site.origin_place(alloc, from),
    }
}

// The scope of the braces of a site.
fn braces_scope<'w>(
    alloc: Global,
    world: &'w World,
    plain: &'w PlainTypes,
    site: &Site<'w>,
    from: Option<Origin<'w>>,
) -> Result<Scope<'w>, NoMemory>
    ensures { IfOk result (λ scope. scope_view scope ≡ spec.braces_scope (world_view world.now) (site_view site.now) (option_map origin_view from.entry)) }
{
    match from {
        None => Ok(no_scope(alloc)),
        Some(from) => site.origin_scope(alloc, world, plain, from),
    }
}

// What the sites below a site share.
fn below_of<'w>(
    alloc: Global,
    world: &'w World,
    plain: &'w PlainTypes,
    site: &Site<'w>,
) -> Result<Below<'w>, NoMemory>
    ensures { IfOk result (λ b. below_view b ≡ spec.below (world_view world.now) (site_view site.now)) }
{
    let from = braces_origin(&site.chain, site.used);
    let at = braces_place(alloc, site, from)?;
    let scope = braces_scope(alloc, world, plain, site, from)?;
    let path = copied(alloc, site.path.items())?;
    Ok(Below {
        owner: site.chain.module,
        braces: braces_at(site.used, from),
        at,
        reader: braces_module(site.reader, from),
        scope,
        path,
    })
}

impl<'w> Below<'w> {
    // The frame of a SEQUENCE with these fields.
    fn frame(&self, alloc: Global, listed: &Listed<'w>) -> Result<Frame<'w>, NoMemory>
        requires { braces_view listed.now.braces ≡ braces_view self.now.braces }
        ensures { IfOk result (λ f. frame_view f ≡ spec.frame_in (map component_view listed.now.components.now) (below_view self.now)) }
    {
        Ok(Frame {
            owner: self.owner,
            listed: listed.copy()?,
            reader: self.reader,
            path: copied(alloc, self.path.items())?,
        })
    }
}

// One SEQUENCE more is entered.
fn entered<'w>(alloc: Global, frame: Frame<'w>, scope: Scope<'w>) -> Result<Scope<'w>, NoMemory>
    ensures { IfOk result (λ s. scope_view s ≡ spec.entered (frame_view frame.entry) (scope_view scope.entry)) }
{
    let mut frames = Row::new(alloc);
    frames.push(frame)?;
    copied_frames(alloc, scope.frames.items(), &mut frames)?;
    Ok(Scope {
        frames,
        bound: scope.bound,
    })
}

// The fields of a SEQUENCE see each other.
fn in_sequence<'w>(
    alloc: Global,
    listed: &Listed<'w>,
    below: Below<'w>,
) -> Result<Below<'w>, NoMemory>
    requires { braces_view listed.now.braces ≡ braces_view below.braces }
    ensures { IfOk result (λ b. below_view b ≡ spec.in_sequence (map component_view listed.now.components.now) (below_view below.entry)) }
{
    let frame = below.frame(alloc, listed)?;
    let Below {
        owner,
        braces,
        at,
        reader,
        scope,
        path,
    } = below;
    let scope = entered(alloc, frame, scope)?;
    Ok(Below {
        owner,
        braces,
        at,
        reader,
        scope,
        path,
    })
}

// The site of a use between the braces.
fn site_below<'w>(
    alloc: Global,
    below: &Below<'w>,
    number: usize,
    position: Position<'w>,
    chain: Chain<'w>,
    used: Use<'w>,
) -> Result<Site<'w>, NoMemory>
    ensures { IfOk result (λ s. site_view s ≡ spec.site_below (below_view below.now) number (position_view position.entry) (chain_view chain.entry) (use_view used.entry)) }
{
    let at = field_place(alloc, below.at.items(), number)?;
    let path = extended(alloc, below.path.items(), number)?;
    let scope = copied_scope(alloc, &below.scope)?;
    Ok(Site {
        position,
        chain,
        used,
        at,
        reader: below.reader,
        scope,
        path,
    })
}

// The site of a field of a SEQUENCE.
fn field_site<'w>(
    alloc: Global,
    world: &'w World,
    plain: &'w PlainTypes,
    below: &Below<'w>,
    number: usize,
    field: Field<'w>,
) -> Result<Site<'w>, NoMemory>
    ensures { IfOk result (λ s. site_view s ≡ spec.field_site (world_view world.now) (below_view below.now) (numbered_view (number, field.entry))) }
{
    match field {
        Field::Component(component, used) => {
            let position = Position::Component {
                name: component_name(component),
                rest: component_rest(component),
            };
            let chain = world.chain(alloc, below.owner, component_type(component))?;
            site_below(alloc, below, number, position, chain, used)
        }
        Field::Inserted(name, kind, attributes) => {
            let used = Use {
                arguments: &[],
                attributes,
                braces: None,
            };
            let chain = kind_chain(alloc, world, plain, below.reader, kind)?;
            site_below(
                alloc,
                below,
                number,
                Position::Inserted { name, kind },
                chain,
                used,
            )
        }
    }
}

// Adds the site of a field, where it is one of the SEQUENCE.
fn push_field<'w>(
    alloc: Global,
    world: &'w World,
    plain: &'w PlainTypes,
    below: &Below<'w>,
    number: usize,
    field: Option<Field<'w>>,
    all: &mut Row<Site<'w>>,
) -> Result<(), NoMemory>
    ensures { OnOk result (sites_view all.new ≡ sites_view all.old ++ map (spec.field_site (world_view world.now) (below_view below.now)) (option_to_list (option_map (λ f. (number, field_view f)) field.entry))) }
{
    match field {
        None => Ok(()),
        Some(field) => all.push(field_site(alloc, world, plain, below, number, field)?),
    }
}

// Adds the sites of components that no braces list.
fn push_components<'w>(
    alloc: Global,
    world: &'w World,
    plain: &'w PlainTypes,
    below: &Below<'w>,
    components: &'w [Component],
    all: &mut Row<Site<'w>>,
) -> Result<(), NoMemory>
    ensures { OnOk result (sites_view all.new ≡ sites_view all.old ++ map (spec.field_site (world_view world.now) (below_view below.now)) (slots.fields_of None (map component_view components.now))) }
{
    for (i, component) in components.iter().enumerate() {
        let field = Field::Component(component, no_use());
        all.push(field_site(alloc, world, plain, below, i, field)?)?;
    }
    Ok(())
}

// Adds the sites of the fields between the braces.
fn push_fields<'w>(
    alloc: Global,
    world: &'w World,
    plain: &'w PlainTypes,
    below: &Below<'w>,
    listed: &Listed<'w>,
    fields: &'w [AcnField],
    all: &mut Row<Site<'w>>,
) -> Result<(), NoMemory>
    ensures { OnOk result (sites_view all.new ≡ sites_view all.old ++ map (spec.field_site (world_view world.now) (below_view below.now)) (slots.fields_of (Some (map field_of fields.now)) (map component_view listed.now.components.now))) }
{
    for (i, field) in fields.iter().enumerate() {
        push_field(alloc, world, plain, below, i, listed.field_in(field), all)?;
    }
    Ok(())
}

// The sites of the fields of a SEQUENCE.
fn sequence_sites<'w>(
    alloc: Global,
    world: &'w World,
    plain: &'w PlainTypes,
    listed: &Listed<'w>,
    below: &Below<'w>,
) -> Result<Row<Site<'w>>, NoMemory>
    ensures { IfOk result (λ all. sites_view all ≡ spec.sequence_sites (world_view world.now) (map component_view listed.now.components.now) (below_view below.now)) }
{
    let mut all = Row::new(alloc);
    match below.braces {
        None => push_components(alloc, world, plain, below, listed.components, &mut all)?,
        Some(fields) => push_fields(alloc, world, plain, below, listed, fields, &mut all)?,
    }
    Ok(all)
}

/// The name of an alternative.
#[tactic(auto, using(acn_asn_syntax::proofs::Views::open_alternative))]
pub fn alternative_name(alternative: &Alternative) -> &Name
    ensures { result.now ≡ tree.Alternative.name (alternative_view alternative.now) }
{
    &alternative.name
}

// The type of an alternative.
#[tactic(auto, using(acn_asn_syntax::proofs::Views::open_alternative))]
fn alternative_type(alternative: &Alternative) -> &AsnType
    ensures { type_view result.now ≡ tree.Alternative.of (alternative_view alternative.now) }
{
    &alternative.of
}

// A field as a use, where it is one.
fn use_or_none<'w>(field: Option<&'w AcnField>) -> Use<'w>
    ensures { use_view result ≡ slots.default_of (option_and_then slots.use_of (option_map (λ f. field_of f.now) field.entry)) slots.no_use }
{
    match field {
        None => no_use(),
        Some(field) => match use_of(field) {
            None => no_use(),
            Some(used) => used,
        },
    }
}

// The use of an alternative.
fn use_named<'w>(listed: &Listed<'w>, name: &[u8]) -> Use<'w>
    ensures { use_view result ≡ spec.use_named (braces_view listed.now.braces) name.now }
{
    use_or_none(listed.text_named(name))
}

// The site of an alternative.
fn alternative_site<'w>(
    alloc: Global,
    world: &'w World,
    below: &Below<'w>,
    listed: &Listed<'w>,
    number: usize,
    alternative: &'w Alternative,
) -> Result<Site<'w>, NoMemory>
    requires { braces_view listed.now.braces ≡ braces_view below.now.braces }
    ensures { IfOk result (λ s. site_view s ≡ spec.alternative_site (world_view world.now) (below_view below.now) (number, alternative_view alternative.now)) }
{
    let name = alternative_name(alternative);
    let used = use_named(listed, name.bytes());
    let chain = world.chain(alloc, below.owner, alternative_type(alternative))?;
    site_below(
        alloc,
        below,
        number,
        Position::Alternative { name },
        chain,
        used,
    )
}

// The sites of the alternatives of a CHOICE.
fn alternative_sites<'w>(
    alloc: Global,
    world: &'w World,
    alternatives: &'w [Alternative],
    below: &Below<'w>,
) -> Result<Row<Site<'w>>, NoMemory>
    ensures { IfOk result (λ all. sites_view all ≡ spec.alternative_sites (world_view world.now) (map alternative_view alternatives.now) (below_view below.now)) }
{
    let listed = Listed::noted(alloc, &[], below.braces)?;
    let mut all = Row::new(alloc);
    for (i, alternative) in alternatives.iter().enumerate() {
        all.push(alternative_site(alloc, world, below, &listed, i, alternative)?)?;
    }
    Ok(all)
}

// The arguments that the type of a site doesn't take, as a use of what is in it.
fn passed_on<'w>(site: &Site<'w>) -> Use<'w>
    ensures { use_view result ≡ spec.passed_on (site_view site.now) }
{
    if has_parameters(&site.chain) {
        return no_use();
    }
    Use {
        arguments: site.used.arguments,
        attributes: &[],
        braces: None,
    }
}

// The only node below, at a use that isn't written between braces.
fn inner_site<'w>(
    alloc: Global,
    world: &'w World,
    site: &Site<'w>,
    position: Position<'w>,
    typed: Typed<'w>,
) -> Result<Site<'w>, NoMemory>
    ensures { IfOk result (λ s. site_view s ≡ spec.inner_site (world_view world.now) (site_view site.now) (position_view position.entry) (typed_view typed.entry).0 (typed_view typed.entry).1) }
{
    let chain = world.chain(alloc, typed.owner, typed.of)?;
    let at = copied(alloc, site.at.items())?;
    let scope = copied_scope(alloc, &site.scope)?;
    let path = extended(alloc, site.path.items(), 0)?;
    Ok(Site {
        position,
        chain,
        used: passed_on(site),
        at,
        reader: site.reader,
        scope,
        path,
    })
}

// The first field as a use.
fn first_use<'w>(fields: &'w [AcnField]) -> Use<'w>
    ensures { use_view result ≡ spec.first_use (map field_of fields.now) }
{
    use_or_none(fields.first())
}

// The site of a list's element.
fn element_site<'w>(
    alloc: Global,
    world: &'w World,
    site: &Site<'w>,
    of: &'w AsnType,
    below: &Below<'w>,
) -> Result<Site<'w>, NoMemory>
    ensures { IfOk result (λ s. site_view s ≡ spec.element_site (world_view world.now) (site_view site.now) (type_view of.now) (below_view below.now) (braces_view below.now.braces)) }
{
    match below.braces {
        None => {
            let typed = Typed {
                owner: site.chain.module,
                of,
            };
            inner_site(alloc, world, site, Position::Element, typed)
        }
        Some(fields) => {
            let chain = world.chain(alloc, below.owner, of)?;
            site_below(alloc, below, 0, Position::Element, chain, first_use(fields))
        }
    }
}

// The type that a constraint says is contained.
#[tactic(auto, using(acn_asn_syntax::proofs::Views::part_views))]
fn contained(constraint: &Constraint) -> Option<&AsnType>
    ensures { option_map (λ t. type_view t.now) result ≡ spec.contained (constraint_view constraint.now) }
{
    match constraint {
        Constraint::Containing(of) => Some(of.get()),
        Constraint::Set(_) => None,
        Constraint::Size(_) => None,
    }
}

// With the module in whose text it stands.
fn contained_in<'w>(owner: u32, constraint: &'w Constraint) -> Option<Typed<'w>>
    ensures { option_map typed_view result ≡ spec.contained_in (owner, constraint_view constraint.now) }
{
    let of = contained(constraint)?;
    Some(Typed { owner, of })
}

// The first type that is contained.
fn content_among<'w>(constraints: &[(u32, &'w Constraint)]) -> Option<Typed<'w>>
    ensures { option_map typed_view result ≡ spec.content_among (constraints_view constraints.now) }
{
    for (owner, constraint) in constraints {
        if let Some(typed) = contained_in(*owner, *constraint) {
            return Some(typed);
        }
    }
    None
}

/// The type that octets contain, with the module in whose text it stands (X.682 clause 11).
pub fn content_of<'w>(chain: &Chain<'w>) -> Option<Typed<'w>>
    ensures { option_map typed_view result ≡ spec.content_of (chain_view chain.now) }
{
    content_among(chain.constraints.items())
}

// The site of what octets contain, where they contain something.
fn content_sites<'w>(
    alloc: Global,
    world: &'w World,
    site: &Site<'w>,
) -> Result<Row<Site<'w>>, NoMemory>
    ensures { IfOk result (λ all. sites_view all ≡ map (spec.content_site (world_view world.now) (site_view site.now)) (option_to_list (spec.content_of (chain_view site.now.chain)))) }
{
    let mut all = Row::new(alloc);
    match content_of(&site.chain) {
        None => Ok(all),
        Some(typed) => {
            all.push(inner_site(alloc, world, site, Position::Content, typed)?)?;
            Ok(all)
        }
    }
}

// One site alone.
fn only<'w>(alloc: Global, site: Site<'w>) -> Result<Row<Site<'w>>, NoMemory>
    ensures { IfOk result (λ all. sites_view all ≡ site_view site.entry ∷ []) }
{
    let mut all = Row::new(alloc);
    all.push(site)?;
    Ok(all)
}

// The sites of what a type has inside.
fn sites_in<'w>(
    alloc: Global,
    world: &'w World,
    plain: &'w PlainTypes,
    site: &Site<'w>,
    inside: Inside<'w>,
) -> Result<Row<Site<'w>>, NoMemory>
    ensures { IfOk result (λ all. sites_view all ≡ spec.sites_in (world_view world.now) (site_view site.now) (inside_view inside.entry)) }
{
    match inside {
        Inside::Components(components) => {
            let below = below_of(alloc, world, plain, site)?;
            let listed = Listed::noted(alloc, components, below.braces)?;
            let below = in_sequence(alloc, &listed, below)?;
            sequence_sites(alloc, world, plain, &listed, &below)
        }
        Inside::Alternatives(alternatives) => {
            let below = below_of(alloc, world, plain, site)?;
            alternative_sites(alloc, world, alternatives, &below)
        }
        Inside::Element(of) => {
            let below = below_of(alloc, world, plain, site)?;
            only(alloc, element_site(alloc, world, site, of, &below)?)
        }
        Inside::Octets => content_sites(alloc, world, site),
        Inside::Nothing => Ok(Row::new(alloc)),
    }
}

/// The sites one step below a site, in the order of the packet.
#[tactic(auto, unfolding(crate::specs::Sites::sites_below))]
pub fn sites_below<'w>(
    alloc: Global,
    world: &'w World,
    plain: &'w PlainTypes,
    site: &Site<'w>,
) -> Result<Row<Site<'w>>, NoMemory>
    ensures { IfOk result (λ all. sites_view all ≡ spec.sites_below (world_view world.now) (site_view site.now)) }
{
    sites_in(alloc, world, plain, site, inside_of(base_of(&site.chain)))
}
