//! From types of a world to the grammars by which their packets are decoded.

ghost use Rattle.std.specs.Prelude.{◌≡◌, ◌++◌, ◌∷◌, [], IfOk, IfErr, OnOk, map};
ghost use Rattle.std.specs.List.{All};
ghost use Rattle.acn_front.specs.Grammars as spec;
ghost use Rattle.acn_front.specs.Grammars.{IsGrammarOf, IsTypeFault, AreGrammarsOf, IsFirstTypeFault};
ghost use Rattle.acn_front.specs.declared.grammars.TypeFault.TheVariants as fault;
ghost use Rattle.acn_index.specs.World as world_of;
ghost use Rattle.acn_tree_laws.specs.Laws.{IsOfSources};
ghost use Rattle.acn_world.specs.Viewed.{world_view};

use acn_check::{Checked, check};
use acn_grammar::CheckFault;
use acn_index::TypeId;
use acn_merge::{MergeFault, merge};
use acn_num::{Boxed, NoMemory};
use acn_survey::Refused;
use acn_tree::Tree;
use acn_world::World;
use std::alloc::Global;

/// Why a type has no grammar by which its packets can be decoded.
#[derive(Drop)]
pub enum TypeFault {
    /// A node of the type can't be made: the first such, with the first of its reasons.
    Refused(Refused),
    /// The packets of this tree can't be decoded, for this fault, the first.
    Undecodable(Boxed<Tree>, CheckFault),
    /// Memory ran out.
    NoMemory,
}

impl From<NoMemory> for TypeFault {
    ghost use Rattle.acn_front.specs.declared.grammars.TypeFault.TheVariants as fault;

    ghost from_gives = { λ _ e. e ≡ fault.NoMemory };

    fn from(_: NoMemory) -> Self {
        TypeFault::NoMemory
    }
}

fn refusal(fault: MergeFault) -> TypeFault
    ensures { result ≡ spec.merge_told fault }
{
    match fault {
        MergeFault::At(refused) => TypeFault::Refused(refused),
        MergeFault::NoMemory => TypeFault::NoMemory,
    }
}

// A tree that the checker hands back, with its fault.
fn boxed(alloc: Global, tree: Tree, fault: CheckFault) -> TypeFault
    ensures { spec.Tells tree fault result }
{
    match Boxed::new(alloc, tree) {
        Ok(tree) => TypeFault::Undecodable(tree, fault),
        Err(_) => TypeFault::NoMemory,
    }
}

fn undecodable(alloc: Global, back: (Tree, CheckFault)) -> TypeFault
    ensures { spec.TellsOf back.0 back.1 result }
{
    let (tree, fault) = back;
    match fault {
        CheckFault::NoMemory => TypeFault::NoMemory,
        fault => boxed(alloc, tree, fault),
    }
}

/// The grammar of a type of a world that proper sources give: its tree, in which nothing keeps packets from being decoded.
///
/// # Errors
///
/// `Refused` comes exactly where a node of the type can't be made, and `Undecodable` where its packets can't be decoded, with the
/// first fault. `NoMemory` comes where memory is wanting.
pub fn grammar_of_type(alloc: Global, world: &World, of: TypeId) -> Result<Checked, TypeFault>
    requires is_type { world_of.IsType (world_view world.now) of }
    requires sources { IsOfSources (world_view world.now) }
    ensures grammar { IfOk result (λ checked. IsGrammarOf (world_view world.now) of checked.tree) }
    ensures fault { IfErr result (IsTypeFault (world_view world.now) of) }
{
    match merge(alloc, world, of) {
        Ok(tree) => match check(alloc, tree) {
            Ok(checked) => Ok(checked),
            Err(back) => Err(undecodable(alloc, back)),
        },
        Err(fault) => Err(refusal(fault)),
    }
}

// Adds one more grammar.
fn keep(all: &mut Vec<Checked>, checked: Checked) -> Result<(), TypeFault>
    ensures kept { OnOk result (map (λ c. c.tree) all.new.items ≡ map (λ c. c.tree) all.old.items ++ checked.tree ∷ []) }
    ensures fault { IfErr result (λ e. e ≡ fault.NoMemory) }
{
    match all.push(checked) {
        Ok(()) => Ok(()),
        Err(_) => Err(TypeFault::NoMemory),
    }
}

/// The grammars of these types of a world that proper sources give, in their order.
///
/// # Errors
///
/// Where a type has none, it is said of the first such why. `NoMemory` comes where memory is wanting.
pub fn grammars_of_types(
    alloc: Global,
    world: &World,
    types: &[TypeId],
) -> Result<Vec<Checked>, TypeFault>
    requires types { All (world_of.IsType (world_view world.now)) types.now }
    requires sources { IsOfSources (world_view world.now) }
    ensures grammars { IfOk result (λ all. AreGrammarsOf (world_view world.now) types.now (map (λ c. c.tree) all.items)) }
    ensures fault { IfErr result (IsFirstTypeFault (world_view world.now) types.now) }
{
    let mut all = Vec::new(alloc);
    for of in types {
        match grammar_of_type(alloc, world, *of) {
            Ok(checked) => match keep(&mut all, checked) {
                Ok(()) => {}
                Err(full) => return Err(full),
            },
            Err(fault) => return Err(fault),
        }
    }
    Ok(all)
}
