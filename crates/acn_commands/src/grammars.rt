//! From a world to the grammars of the types in question.

ghost use Rattle.std.specs.Prelude.{◌≡◌, ◌∷◌, [], Some, None, map, All, IfOk, IfErr, OnOk};
ghost use Rattle.acn_index.specs.World as index;
ghost use Rattle.acn_commands.specs.Asked.{types_named};
ghost use Rattle.acn_commands.specs.Missing.{IsMissing};
ghost use Rattle.acn_commands.specs.Outside.{IsSilent, Says};
ghost use Rattle.acn_commands.specs.Refusals.{unknown_line};
ghost use Rattle.acn_commands.specs.Steps as spec;
ghost use Rattle.acn_commands.specs.declared.status.Status.TheVariants as status;
ghost use Rattle.acn_tree_laws.specs.Laws.{IsOfSources};
ghost use Rattle.acn_words.specs.View.{type_view};
ghost use Rattle.acn_world.specs.Viewed.{world_view};

use crate::reports::no_memory;
use crate::status::Status;
use acn_check::Checked;
use acn_front::{TypeFault, grammar_of_type, grammars_of_types};
use acn_index::TypeId;
use acn_outside::Sink;
use acn_report::put_check_fault;
use acn_source_report::{put_refused, put_unknown_type};
use acn_words::TypeName;
use acn_world::World;
use std::alloc::Global;

/// Says why a type has no grammar.
pub fn type_refused<E: Sink>(fault: &TypeFault, err: &mut E) -> Status
    ensures { spec.TellsTypeFault fault.now (E.taken err.old, E.faults err.old) (E.taken err.new, E.faults err.new) result }
{
    let _ = match fault {
        TypeFault::Refused(refused) => put_refused(refused, err),
        TypeFault::Undecodable(tree, fault) => put_check_fault(tree.get(), fault, err),
        TypeFault::NoMemory => return no_memory(err),
    };
    Status::NoGrammar
}

// No type has this name.
fn type_unknown<E: Sink>(of: &TypeName<'_>, err: &mut E) -> Status
    ensures status { result ≡ status.NoGrammar }
    ensures says { Says (unknown_line (type_view of.now)) (E.taken err.old, E.faults err.old) (E.taken err.new, E.faults err.new) }
{
    let _ = put_unknown_type(of.module, of.name, err);
    Status::NoGrammar
}

/// The grammar of the type of this name. Where there is none, the line that says why was written to the output for errors.
pub fn named_grammar<E: Sink>(
    alloc: Global,
    world: &World,
    of: &TypeName<'_>,
    err: &mut E,
) -> Result<Checked, Status>
    requires { IsOfSources (world_view world.now) }
    ensures grammars { IfOk result (λ checked. spec.Answers (world_view world.now) (Some (type_view of.now ∷ [])) (checked.tree ∷ [])) }
    ensures silent { OnOk result (IsSilent (E.taken err.old, E.faults err.old) (E.taken err.new, E.faults err.new)) }
    ensures fails { IfErr result (spec.EndsForWorld (world_view world.now) (Some (type_view of.now ∷ [])) (E.taken err.old, E.faults err.old) (E.taken err.new, E.faults err.new)) }
{
    match world.find(of.module, of.name) {
        None => Err(type_unknown(of, err)),
        Some(found) => match grammar_of_type(alloc, world, found) {
            Ok(checked) => Ok(checked),
            Err(fault) => Err(type_refused(&fault, err)),
        },
    }
}

// Why types that are named aren't there.
#[derive(Drop)]
enum Missing<'a> {
    // No type has this name.
    Unknown(&'a TypeName<'a>),
    // Memory ran out.
    NoMemory,
}

// The types of these names, in order, or the first name that no type has.
fn types_of<'a>(
    alloc: Global,
    world: &World,
    names: &'a [TypeName<'a>],
) -> Result<Vec<TypeId>, Missing<'a>>
    ensures types { IfOk result (λ types. types_named (world_view world.now) (map type_view names.now) ≡ Some types.items) }
    ensures of_types { IfOk result (λ types. All (index.IsType (world_view world.now)) types.items) }
    ensures unknown { IfErr result (IsMissing (world_view world.now) (map type_view names.now)) }
{
    let mut types = Vec::new(alloc);
    for of in names {
        match world.find(of.module, of.name) {
            None => return Err(Missing::Unknown(of)),
            Some(found) => match types.push(found) {
                Ok(()) => {}
                Err(_) => return Err(Missing::NoMemory),
            },
        }
    }
    Ok(types)
}

/// The grammars of the types of these names, in order. Where one has none, the line that says why was written to the output for errors.
pub fn named_grammars<E: Sink>(
    alloc: Global,
    world: &World,
    names: &[TypeName<'_>],
    err: &mut E,
) -> Result<Vec<Checked>, Status>
    requires { IsOfSources (world_view world.now) }
    ensures grammars { IfOk result (λ all. spec.Answers (world_view world.now) (Some (map type_view names.now)) (map (λ c. c.tree) all.items)) }
    ensures silent { OnOk result (IsSilent (E.taken err.old, E.faults err.old) (E.taken err.new, E.faults err.new)) }
    ensures fails { IfErr result (spec.EndsForWorld (world_view world.now) (Some (map type_view names.now)) (E.taken err.old, E.faults err.old) (E.taken err.new, E.faults err.new)) }
{
    let types = match types_of(alloc, world, names) {
        Ok(types) => types,
        Err(Missing::Unknown(of)) => return Err(type_unknown(of, err)),
        Err(Missing::NoMemory) => return Err(no_memory(err)),
    };
    match grammars_of_types(alloc, world, &types) {
        Ok(all) => Ok(all),
        Err(fault) => Err(type_refused(&fault, err)),
    }
}
