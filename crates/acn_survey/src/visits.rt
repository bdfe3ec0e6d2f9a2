ghost use Rattle.std.specs.Prelude.{◌≡◌, ◌≤◌, ℕ, List, ◌++◌, ◌∷◌, [], map, flat_map, filter_map, option_map, option_to_list, IfOk, IfErr, OnOk, Some, None, Ok};
ghost use Rattle.acn_grammar.specs.declared.limits.TheConstants.{MOST_NODES};
ghost use Rattle.acn_index.specs.World as world_of;
ghost use Rattle.acn_reasons.specs.Named.{paths_view};
ghost use Rattle.acn_reasons.specs.Paths.{paths_in};
ghost use Rattle.acn_slots.specs.View.{scope_view};
ghost use Rattle.acn_sites.specs.Sites as sites;
ghost use Rattle.acn_sites.specs.View.{given_view, position_view, site_view, sites_view};
ghost use Rattle.acn_survey.specs.Reasons.{fault_from};
ghost use Rattle.acn_survey.specs.Seen.{behind, surveyed};
ghost use Rattle.acn_survey.specs.View.{Tells, answer, noted_of};
ghost use Rattle.acn_survey.specs.Walk as spec;
ghost use Rattle.acn_world.specs.Viewed.{world_view};

use crate::judge::reason_at;
use crate::place::text_below;
use crate::{MergeFault, Refused};
use acn_acn_syntax::AcnPath;
use acn_homes::Use;
use acn_num::{MOST_STEPS, Name, NoMemory, Row};
use acn_reasons::push_paths;
use acn_sites::{AttrKind, Given, Position, Site, nearest, root_site, scope_of, sites_below};
use acn_slots::{Lead, PlainTypes, Scope, copied, leads, sort_of};
use acn_world::{TypeId, World};
use std::alloc::Global;

/// What a walk over the sites of a type notes.
#[derive(Drop)]
pub struct Walk {
    // The number of the next site.
    next: u32,
    /// The paths of the inserted fields other than NULL, in preorder.
    pub fields: Row<Row<usize>>,
    /// Who uses which determinant, in preorder of the users.
    pub uses: Row<Use>,
}

// Whether the site is that of an inserted field.
fn is_inserted(position: &Position<'_>) -> bool
    ensures { result ≡ spec.is_inserted (position_view position.now) }
{
    match position {
        Position::Inserted { .. } => true,
        Position::Root { .. } => false,
        Position::Component { .. } => false,
        Position::Alternative { .. } => false,
        Position::Element => false,
        Position::Content => false,
    }
}

// Whether the site is that of an inserted field other than NULL.
fn has_number(site: &Site<'_>) -> bool
    ensures { result ≡ spec.has_number (site_view site.now) }
{
    is_inserted(&site.position) && sort_of(&site.chain).is_some()
}

// Adds the path of an inserted field other than NULL.
fn push_field(alloc: Global, site: &Site<'_>, fields: &mut Row<Row<usize>>) -> Result<(), NoMemory>
    ensures { OnOk result (fields.new ≡ fields.old ++ spec.field_at (site_view site.now)) }
{
    if has_number(site) {
        fields.push(copied(alloc, site.path.items())?)?;
    }
    Ok(())
}

// Adds the use of what a path leads to.
fn push_use(alloc: Global, user: &[usize], lead: Lead, uses: &mut Row<Use>) -> Result<(), NoMemory>
    ensures { OnOk result (uses.new ≡ uses.old ++ map (λ f. record { user = user.now; field = f }) (option_to_list (spec.field_path lead))) }
{
    match lead {
        Lead::Slot(slot) => {
            let user = copied(alloc, user)?;
            uses.push(Use {
                user,
                field: slot.path,
            })
        }
        Lead::Nowhere => Ok(()),
        Lead::Absent { .. } => Ok(()),
    }
}

// Adds the uses of what these paths lead to, read in a scope.
fn push_uses<'w>(
    alloc: Global,
    world: &'w World,
    plain: &'w PlainTypes,
    user: &[usize],
    scope: &Scope<'w>,
    paths: &[&AcnPath],
    uses: &mut Row<Use>,
) -> Result<(), NoMemory>
    ensures { OnOk result (uses.new ≡ uses.old ++ map (λ f. record { user = user.now; field = f }) (filter_map (spec.named_field (world_view world.now) (scope_view scope.now)) (paths_view paths.now))) }
{
    for path in paths {
        let lead = leads(alloc, world, plain, scope, path.names.items())?;
        push_use(alloc, user, lead, uses)?;
    }
    Ok(())
}

// Adds the uses of what the paths of an attribute lead to.
fn push_given<'w>(
    alloc: Global,
    world: &'w World,
    plain: &'w PlainTypes,
    site: &Site<'w>,
    given: Option<Given<'w>>,
    uses: &mut Row<Use>,
) -> Result<(), NoMemory>
    ensures { OnOk result (uses.new ≡ uses.old ++ map (λ f. record { user = (site_view site.now).path; field = f }) (spec.fields_named (world_view world.now) (site_view site.now) (option_map given_view given.entry))) }
{
    match given {
        None => Ok(()),
        Some(given) => {
            let mut paths = Vec::new(alloc);
            push_paths(given.attr, &mut paths)?;
            let scope = scope_of(alloc, world, plain, site, given)?;
            let user = site.path.items();
            push_uses(alloc, world, plain, user, &scope, paths.as_slice(), uses)
        }
    }
}

// Adds the uses of a site.
fn push_site<'w>(
    alloc: Global,
    world: &'w World,
    plain: &'w PlainTypes,
    site: &Site<'w>,
    uses: &mut Row<Use>,
) -> Result<(), NoMemory>
    ensures { OnOk result (uses.new ≡ uses.old ++ spec.uses_at (world_view world.now) (site_view site.now)) }
{
    let size = nearest(AttrKind::Size, site);
    push_given(alloc, world, plain, site, size, uses)?;
    let conditions = nearest(AttrKind::PresentWhen, site);
    push_given(alloc, world, plain, site, conditions, uses)?;
    let determinant = nearest(AttrKind::Determinant, site);
    push_given(alloc, world, plain, site, determinant, uses)?;
    Ok(())
}

impl Walk {
    // Nothing is noted, and the next site is the first.
    fn new(alloc: Global) -> Walk
        ensures { noted_of result ≡ record { next = 1; fields = []; uses = [] } }
    {
        Walk {
            next: 1,
            fields: Row::new(alloc),
            uses: Row::new(alloc),
        }
    }

    // Notes the next site.
    fn note<'w>(
        &mut self,
        alloc: Global,
        world: &'w World,
        plain: &'w PlainTypes,
        site: &Site<'w>,
    ) -> Result<(), NoMemory>
        requires few { self.old.next ≤ MOST_NODES }
        ensures { OnOk result ((text : List ℕ) → noted_of self.new ≡ behind (world_view world.now) (noted_of self.old) (record { text = text; site = site_view site.now } ∷ [])) }
    {
        push_field(alloc, site, &mut self.fields)?;
        push_site(alloc, world, plain, site, &mut self.uses)?;
        self.next += 1;
        Ok(())
    }

    // Notes the next site, unless a reason holds there.
    #[tactic(auto, using(crate::proofs::Noting::few, crate::proofs::Noting::gone, crate::proofs::Noting::refused))]
    fn meet<'w>(
        &mut self,
        alloc: Global,
        world: &'w World,
        plain: &'w PlainTypes,
        text: &[u8],
        site: &Site<'w>,
    ) -> Result<Option<Refused>, NoMemory>
        ensures { IfOk result (λ told. answer told (noted_of self.new) ≡ Some (surveyed (world_view world.now) (noted_of self.old) (record { text = text.now; site = site_view site.now } ∷ []))) }
    {
        match reason_at(alloc, world, plain, self.next, site)? {
            Some(reason) => {
                let place = Name::copy(alloc, text)?;
                Ok(Some(Refused { place, reason }))
            }
            None => {
                self.note(alloc, world, plain, site)?;
                Ok(None)
            }
        }
    }
}

// A site and those below it, at most so many steps down.
#[cycle(sites)]
#[tactic(auto, using(crate::proofs::Joined::ends))]
fn visit<'w>(
    alloc: Global,
    world: &'w World,
    plain: &'w PlainTypes,
    depth: usize,
    above: &[u8],
    site: &Site<'w>,
    walk: &mut Walk,
) -> Result<Option<Refused>, NoMemory>
    ensures { IfOk result (λ told. answer told (noted_of walk.new) ≡ Some (surveyed (world_view world.now) (noted_of walk.old) (sites.sites depth (world_view world.now) above.now (site_view site.now)))) }
{
    let text = text_below(alloc, above, &site.position)?;
    match walk.meet(alloc, world, plain, text.as_slice(), site)? {
        Some(refused) => return Ok(Some(refused)),
        None => (),
    }
    if depth == 0 {
        return Ok(None);
    }
    let below = sites_below(alloc, world, plain, site)?;
    let told = visit_all(
        alloc,
        world,
        plain,
        depth - 1,
        text.as_slice(),
        below.items(),
        walk,
    )?;
    Ok(told)
}

// These sites and those below them.
#[cycle(sites)]
fn visit_all<'w>(
    alloc: Global,
    world: &'w World,
    plain: &'w PlainTypes,
    depth: usize,
    above: &[u8],
    below: &[Site<'w>],
    walk: &mut Walk,
) -> Result<Option<Refused>, NoMemory>
    ensures { IfOk result (λ told. answer told (noted_of walk.new) ≡ Some (surveyed (world_view world.now) (noted_of walk.old) (flat_map (sites.sites depth (world_view world.now) above.now) (sites_view below.now)))) }
{
    for site in below {
        match visit(alloc, world, plain, depth, above, site, walk)? {
            Some(refused) => return Ok(Some(refused)),
            None => (),
        }
    }
    Ok(None)
}

/// A walk over the sites of an asked type, in preorder.
///
/// `At` comes exactly where a site has a reason: it keeps the text of the path of the first such site, and its first reason.
pub fn survey<'w>(
    alloc: Global,
    world: &'w World,
    plain: &'w PlainTypes,
    of: TypeId,
) -> Result<Walk, MergeFault>
    requires { world_of.IsType (world_view world.now) of }
    ensures none { IfOk result (λ walk. fault_from (world_view world.now) 1 (sites.sites_of (world_view world.now) of) ≡ None) }
    ensures fields { IfOk result (λ walk. walk.fields ≡ spec.inserted_fields (sites.sites_of (world_view world.now) of)) }
    ensures uses { IfOk result (λ walk. walk.uses ≡ spec.uses_of (world_view world.now) (sites.sites_of (world_view world.now) of)) }
    ensures fault { IfErr result (Tells (fault_from (world_view world.now) 1 (sites.sites_of (world_view world.now) of))) }
{
    let site = root_site(alloc, world, of)?;
    let mut walk = Walk::new(alloc);
    match visit(alloc, world, plain, MOST_STEPS + 1, b"", &site, &mut walk)? {
        Some(refused) => Err(MergeFault::At(refused)),
        None => Ok(walk),
    }
}
