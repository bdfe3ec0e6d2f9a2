ghost use Rattle.std.specs.Prelude.{◌≡◌, ◌≤◌, ◌+◌, Some, None, true, length, option_map, IfOk, IfErr};
ghost use Rattle.acn_grammar.specs.ItemsNamed.{ItemsNamed};
ghost use Rattle.acn_grammar.specs.Tree.{is_tree};
ghost use Rattle.acn_grammar.specs.View.{grammar_of};
ghost use Rattle.acn_homes.specs.Homes as homes;
ghost use Rattle.acn_homes.specs.declared.homes.TheConstants.{MOST_SLOTS};
ghost use Rattle.acn_index.specs.World as world_of;
ghost use Rattle.acn_made.specs.Made.{made};
ghost use Rattle.acn_num.specs.declared.limits.TheConstants.{MOST_STEPS};
ghost use Rattle.acn_sites.specs.Sites as sites;
ghost use Rattle.acn_survey.specs.Walk.{inserted_fields, uses_of};
ghost use Rattle.acn_merge.specs.Merged as spec;
ghost use Rattle.acn_merge.specs.declared.fault.MergeFault.TheVariants as fault;
ghost use Rattle.acn_merge.specs.Told.{Tells, handed_on};
ghost use Rattle.acn_tree_laws.specs.Laws.{IsOfSources};
ghost use Rattle.acn_world.specs.Viewed.{world_view};

use crate::fault::MergeFault;
use acn_grammar::Node;
use acn_homes::{Homes, MOST_SLOTS, Use, slots_are_named};
use acn_made::made;
use acn_num::{Boxed, Name, NoMemory, Row};
use acn_sites::{Position, root_site};
use acn_slots::PlainTypes;
use acn_survey::{Walk, survey, text_below};
use acn_tree::{Tree, items_named};
use acn_tree_laws::made_trees_are_trees;
use acn_world::{TypeId, World};
use std::alloc::Global;

// Whether there are no more paths than slots have numbers.
fn are_few(inserted: &[Row<usize>], uses: &[Use]) -> bool
    ensures { result ≡ true → length (homes.slots inserted.now uses.now) ≤ MOST_SLOTS }
{
    let _law = slots_are_named();
    inserted.len() <= MOST_SLOTS && uses.len() <= MOST_SLOTS - inserted.len()
}

// The root of the tree whose inserted fields and uses these are.
fn root_of(
    alloc: Global,
    world: &World,
    plain: &PlainTypes,
    of: TypeId,
    inserted: &[Row<usize>],
    uses: &[Use],
) -> Result<Boxed<Node>, NoMemory>
    requires { world_of.IsType (world_view world.now) of }
    ensures { IfOk result (λ root. Some (grammar_of root) ≡ option_map (made (MOST_STEPS + 1) (world_view world.now) (homes.slots inserted.now uses.now)) (sites.root_site (world_view world.now) of)) }
{
    if !are_few(inserted, uses) {
        return Err(NoMemory);
    }
    let homes = Homes::new(alloc, inserted, uses)?;
    let site = root_site(alloc, world, of)?;
    made(alloc, world, plain, &homes, &site)
}

// The root of the tree of a type, by what the walk over its sites noted.
fn root_made(
    alloc: Global,
    world: &World,
    plain: &PlainTypes,
    of: TypeId,
    walk: &Walk,
) -> Result<Boxed<Node>, NoMemory>
    requires is_type { world_of.IsType (world_view world.now) of }
    requires fields { walk.now.fields ≡ inserted_fields (sites.sites_of (world_view world.now) of) }
    requires uses { walk.now.uses ≡ uses_of (world_view world.now) (sites.sites_of (world_view world.now) of) }
    ensures { IfOk result (λ root. Some (grammar_of root) ≡ spec.merged (world_view world.now) of) }
{
    root_of(
        alloc,
        world,
        plain,
        of,
        walk.fields.items(),
        walk.uses.items(),
    )
}

// The names of a type and its module as one text.
fn full_name(alloc: Global, world: &World, of: TypeId) -> Result<Name, NoMemory>
    requires { world_of.IsType (world_view world.now) of }
    ensures { IfOk result (λ name. name ≡ spec.full_name (world_view world.now) of) }
{
    let (owner, name) = world.name_of(of);
    let text = text_below(alloc, b"", &Position::Root { owner, name })?;
    Name::copy(alloc, text.as_slice())
}

// The tree, where its items have numbers of 32 bits.
fn named(tree: Tree) -> Result<Tree, MergeFault>
    ensures same { IfOk result (λ t. t ≡ tree) }
    ensures items { IfOk result (λ t. ItemsNamed (grammar_of t.root)) }
    ensures fault { IfErr result (λ e. e ≡ fault.NoMemory) }
{
    if items_named(&tree) {
        Ok(tree)
    } else {
        Err(MergeFault::NoMemory)
    }
}

// The tree of this name and root, which is well formed, where its items have numbers of 32 bits.
fn formed(name: Name, root: Boxed<Node>) -> Result<Tree, MergeFault>
    requires { is_tree (grammar_of root) ≡ true }
    ensures name { IfOk result (λ tree. tree.name ≡ name) }
    ensures root { IfOk result (λ tree. tree.root ≡ root) }
    ensures items { IfOk result (λ tree. ItemsNamed (grammar_of tree.root)) }
    ensures fault { IfErr result (λ e. e ≡ fault.NoMemory) }
{
    match Tree::form(name, root.into_inner()) {
        Ok(tree) => named(tree),
        Err(_) => unreachable!(),
    }
}

// A refusal of the sites, handed on.
fn refusal(fault: acn_survey::MergeFault) -> MergeFault
    ensures { result ≡ handed_on fault }
{
    match fault {
        acn_survey::MergeFault::At(refused) => MergeFault::At(refused),
        acn_survey::MergeFault::NoMemory => MergeFault::NoMemory,
    }
}

// The tree of a type, of which each node can be made.
fn tree_of(
    alloc: Global,
    world: &World,
    plain: &PlainTypes,
    of: TypeId,
    walk: &Walk,
) -> Result<Tree, MergeFault>
    requires is_type { world_of.IsType (world_view world.now) of }
    requires sources { IsOfSources (world_view world.now) }
    requires none { spec.reason_against (world_view world.now) of ≡ None }
    requires fields { walk.now.fields ≡ inserted_fields (sites.sites_of (world_view world.now) of) }
    requires uses { walk.now.uses ≡ uses_of (world_view world.now) (sites.sites_of (world_view world.now) of) }
    ensures root { IfOk result (λ tree. Some (grammar_of tree.root) ≡ spec.merged (world_view world.now) of) }
    ensures name { IfOk result (λ tree. tree.name ≡ spec.full_name (world_view world.now) of) }
    ensures items { IfOk result (λ tree. ItemsNamed (grammar_of tree.root)) }
    ensures fault { IfErr result (λ e. e ≡ fault.NoMemory) }
{
    made_trees_are_trees();
    let root = root_made(alloc, world, plain, of, walk)?;
    let name = full_name(alloc, world, of)?;
    formed(name, root)
}

/// The tree of a type: its root is the node of the type with all that is below it, by constraints and attributes, and its name is
/// that of the type behind that of its module.
///
/// The world is one that proper sources give, as `load` of acn_front has it: what is made is then well formed.
///
/// `At` comes exactly where a node can't be made, and keeps the text of the path of the first such and the first of its reasons.
/// `NoMemory` comes where memory is wanting, also where more than 2^32 paths are noted or an enumeration has as many items.
pub fn merge(alloc: Global, world: &World, of: TypeId) -> Result<Tree, MergeFault>
    requires is_type { world_of.IsType (world_view world.now) of }
    requires sources { IsOfSources (world_view world.now) }
    ensures none { IfOk result (λ tree. spec.reason_against (world_view world.now) of ≡ None) }
    ensures root { IfOk result (λ tree. Some (grammar_of tree.root) ≡ spec.merged (world_view world.now) of) }
    ensures name { IfOk result (λ tree. tree.name ≡ spec.full_name (world_view world.now) of) }
    ensures items { IfOk result (λ tree. ItemsNamed (grammar_of tree.root)) }
    ensures fault { IfErr result (Tells (world_view world.now) of) }
{
    let plain = PlainTypes::new(alloc);
    match survey(alloc, world, &plain, of) {
        Ok(walk) => tree_of(alloc, world, &plain, of, &walk),
        Err(fault) => Err(refusal(fault)),
    }
}
