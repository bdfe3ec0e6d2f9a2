ghost use Rattle.std.specs.Prelude.{◌≡◌, ◌++◌, map, filter_map, option_map, option_to_list, IfOk, OnOk, Some};
ghost use Rattle.std.specs.List.{zip};
ghost use Rattle.acn_world.specs.Chained.{chain_view, entry_view};
ghost use Rattle.acn_index.specs.Chains as chains;
ghost use Rattle.acn_index.specs.World as world_of;
ghost use Rattle.acn_world.specs.Viewed.{world_view};
ghost use Rattle.acn_slots.specs.Slots as slots;
ghost use Rattle.acn_sites.specs.Sites as spec;
ghost use Rattle.acn_slots.specs.View.{frame_view, scope_view, bound_in, bound_view, origin_view};
ghost use Rattle.acn_sites.specs.View.{site_view};

use acn_acn_syntax::{AcnPath, FieldKind, Param};
use acn_asn_syntax::Rest;
use acn_num::{Name, NoMemory, Row};
use acn_slots::{Frame, Lead, Origin, PlainTypes, Scope, Slot, Use, copied, leads, no_use, shared};
use acn_world::{Chain, EntryAt, TypeId, World};
use std::alloc::Global;
use std::rc::Rc;

/// What a node is in the node above it.
#[derive(Clone, Copy)]
pub enum Position<'w> {
    /// The node of the asked type, by the names of its module and of itself.
    Root { owner: &'w Name, name: &'w Name },
    /// A component: its name, and whether it may be absent.
    Component { name: &'w Name, rest: &'w Rest },
    /// A field that only the packet has: its name and kind.
    Inserted { name: &'w Name, kind: &'w FieldKind },
    /// An alternative: its name.
    Alternative { name: &'w Name },
    /// The element of a list.
    Element,
    /// What octets contain.
    Content,
}

/// A node that is to be made.
#[derive(Drop)]
pub struct Site<'w> {
    /// What it is in the node above it.
    pub position: Position<'w>,
    /// The chain of its type.
    pub chain: Chain<'w>,
    /// What is written at its use.
    pub used: Use<'w>,
    /// The place of that in the text of the ACN modules.
    pub at: Row<usize>,
    /// The module in which references there are read.
    pub reader: u32,
    /// The scope in which paths there are read.
    pub scope: Scope<'w>,
    /// The path of the node. A step is the number of a field in the order of the packet or of an alternative, or 0.
    pub path: Row<usize>,
}

/// Whether an entry has parameters.
pub fn gives_parameters(entry: EntryAt<'_>) -> bool
    ensures { result ≡ chains.gives_parameters (entry_view entry.entry) }
{
    !entry.is.parameters.items().is_empty()
}

/// Whether an entry along a chain has parameters.
pub fn has_parameters(chain: &Chain<'_>) -> bool
    ensures { result ≡ spec.has_parameters (chain_view chain.now) }
{
    for entry in chain.entries.items() {
        if gives_parameters(*entry) {
            return true;
        }
    }
    false
}

/// The site of an asked type.
#[tactic(auto, unfolding(crate::specs::Sites::root_site))]
pub fn root_site<'w>(alloc: Global, world: &'w World, of: TypeId) -> Result<Site<'w>, NoMemory>
    requires { world_of.IsType (world_view world.now) of }
    ensures { IfOk result (λ site. Some (site_view site) ≡ spec.root_site (world_view world.now) of) }
{
    let chain = world.chain_at(alloc, of)?;
    let (owner, name) = world.name_of(of);
    Ok(Site {
        position: Position::Root { owner, name },
        chain,
        used: no_use(),
        at: Row::new(alloc),
        reader: of.module,
        scope: no_scope(alloc),
        path: Row::new(alloc),
    })
}

/// Nothing is entered and nothing is bound.
pub fn no_scope<'w>(alloc: Global) -> Scope<'w>
    ensures { scope_view result ≡ slots.no_scope }
{
    Scope {
        frames: Row::new(alloc),
        bound: None,
    }
}

// Binds a parameter, where the argument leads to a slot.
fn bind<'w>(
    parameter: &'w Param,
    lead: Lead,
    bound: &mut Row<(&'w Name, Slot)>,
) -> Result<(), NoMemory>
    ensures { OnOk result (map bound_view bound.new ≡ map bound_view bound.old ++ option_to_list (spec.bind (parameter.now, lead))) }
{
    match lead {
        Lead::Slot(slot) => bound.push((&parameter.name, slot)),
        Lead::Nowhere => Ok(()),
        Lead::Absent { .. } => Ok(()),
    }
}

// The parameters, bound to what the arguments lead to.
fn bound_to<'w>(
    alloc: Global,
    world: &'w World,
    plain: &'w PlainTypes,
    scope: &Scope<'w>,
    parameters: &'w [Param],
    arguments: &[AcnPath],
) -> Result<Row<(&'w Name, Slot)>, NoMemory>
    ensures { IfOk result (λ bound. map bound_view bound ≡ filter_map spec.bind (zip parameters.now (map (λ (a : AcnPath). slots.leads (world_view world.now) (scope_view scope.now) a.names) arguments.now))) }
{
    let mut bound = Row::new(alloc);
    for (i, parameter) in parameters.iter().enumerate() {
        match arguments.get(i) {
            None => return Ok(bound),
            Some(argument) => {
                let lead = leads(alloc, world, plain, scope, argument.names.items())?;
                bind(parameter, lead, &mut bound)?;
            }
        }
    }
    Ok(bound)
}

/// Adds the same frames again.
pub fn copied_frames<'w>(
    alloc: Global,
    frames: &[Frame<'w>],
    all: &mut Row<Frame<'w>>,
) -> Result<(), NoMemory>
    ensures { OnOk result (map frame_view all.new ≡ map frame_view all.old ++ map frame_view frames.now) }
{
    for frame in frames {
        all.push(frame.copy(alloc)?)?;
    }
    Ok(())
}

// The same parameters, kept once for all scopes that will have them.
fn kept_once<'w>(
    alloc: Global,
    bound: Row<(&'w Name, Slot)>,
) -> Result<Option<Rc<Row<(&'w Name, Slot)>, Global>>, NoMemory>
    ensures { IfOk result (λ all. bound_in (option_map (λ b. b.value) all) ≡ map bound_view bound.entry) }
{
    if bound.items().is_empty() {
        return Ok(None);
    }
    Ok(Some(Rc::new(alloc, bound)?))
}

/// The same scope again.
pub fn copied_scope<'w>(alloc: Global, scope: &Scope<'w>) -> Result<Scope<'w>, NoMemory>
    ensures { IfOk result (λ s. scope_view s ≡ scope_view scope.now) }
{
    let mut frames = Row::new(alloc);
    copied_frames(alloc, scope.frames.items(), &mut frames)?;
    let bound = shared(&scope.bound)?;
    Ok(Scope { frames, bound })
}

impl<'w> Site<'w> {
    /// The scope of an entry along the site's chain: its parameters, bound to what the arguments lead to.
    pub fn entry_scope(
        &self,
        alloc: Global,
        world: &'w World,
        plain: &'w PlainTypes,
        entry: EntryAt<'w>,
    ) -> Result<Scope<'w>, NoMemory>
        ensures { IfOk result (λ scope. scope_view scope ≡ spec.entry_scope (world_view world.now) (site_view self.now) (entry_view entry.entry)) }
    {
        let bound = bound_to(
            alloc,
            world,
            plain,
            &self.scope,
            entry.is.parameters.items(),
            self.used.arguments,
        )?;
        Ok(Scope {
            frames: Row::new(alloc),
            bound: kept_once(alloc, bound)?,
        })
    }

    /// The scope in which paths are read that stand there.
    pub fn origin_scope(
        &self,
        alloc: Global,
        world: &'w World,
        plain: &'w PlainTypes,
        from: Origin<'w>,
    ) -> Result<Scope<'w>, NoMemory>
        ensures { IfOk result (λ scope. scope_view scope ≡ spec.origin_scope (world_view world.now) (site_view self.now) (origin_view from.entry)) }
    {
        match from {
            Origin::Use => copied_scope(alloc, &self.scope),
            Origin::Entry(entry) => self.entry_scope(alloc, world, plain, entry),
        }
    }

    /// The place of what stands there.
    pub fn origin_place(&self, alloc: Global, from: Origin<'w>) -> Result<Row<usize>, NoMemory>
        ensures { IfOk result (λ at. at ≡ spec.origin_place (site_view self.now) (origin_view from.entry)) }
    {
        match from {
            Origin::Use => copied(alloc, self.at.items()),
            Origin::Entry(entry) => {
                let mut at = Row::new(alloc);
                at.push(entry.acn)?;
                at.push(entry.entry)?;
                Ok(at)
            }
        }
    }
}
