//! Space packets, each by the type of its application process.

ghost use Rattle.std.specs.Prelude.{◌≡◌, ◌++◌, ◌∷◌, [], ℕ, List, length, map, string_bytes, IfOk, OnOk, false, true};
ghost use Rattle.std.specs.List.{AllByRecursion};
ghost use Rattle.acn_grammar.specs.ItemsNamed.{ItemsNamed};
ghost use Rattle.acn_grammar.specs.View.{grammar_of};
ghost use Rattle.acn_route.specs.Listed.{has_route};
ghost use Rattle.acn_print.specs.Printing.{Prints};
ghost use Rattle.acn_commands.specs.Outside.{Says};
ghost use Rattle.acn_commands.specs.Routed.{listed_by, route_line};
ghost use Rattle.acn_commands.specs.Steps as spec;
ghost use Rattle.acn_tree_laws.specs.Laws.{IsOfSources};
ghost use Rattle.acn_words.specs.Requests as requests;
ghost use Rattle.acn_words.specs.Routes.{route_of};
ghost use Rattle.acn_words.specs.View.{type_view};
ghost use Rattle.acn_world.specs.Viewed.{world_view};

use crate::grammars::named_grammars;
use crate::reports::no_memory;
use crate::status::Status;
use crate::streams::MOST_INPUT_BYTES;
use acn_check::Checked;
use acn_num::NoMemory;
use acn_outside::{Failed, Sink, Source};
use acn_plan::compile;
use acn_print::{Piece, put_all, put_piece};
use acn_report::{put_input_too_long, put_no_memory};
use acn_route::{AddFault, RouteCount, RouteFault, Routes, route_all};
use acn_words::{RouteWords, TypeName, route_at};
use acn_world::World;
use std::alloc::Global;

// The types that routes name, in order.
fn types_of<'a>(alloc: Global, words: &RouteWords<'a>) -> Result<Vec<TypeName<'a>>, NoMemory>
    ensures { IfOk result (λ names. map type_view names.items ≡ map (λ r. r.of) (map route_of (map string_bytes words.now.words.now))) }
{
    let mut names = Vec::new(alloc);
    for i in 0..words.count() {
        names.push(route_at(words, i).of)?;
    }
    Ok(names)
}

// Adds the route of an application process that has none.
fn add_route(
    alloc: Global,
    routes: &mut Routes,
    apid: u32,
    checked: Checked,
) -> Result<(), NoMemory>
    requires free { has_route routes.old apid ≡ false }
    requires named { ItemsNamed (grammar_of checked.tree.root) }
    ensures added { OnOk result (routes.new ≡ routes.old ++ record { apid = apid; tree = checked.tree } ∷ []) }
{
    let plan = compile(alloc, &checked)?;
    match routes.add(apid, checked, plan) {
        Ok(()) => Ok(()),
        Err(AddFault::NoMemory) => Err(NoMemory),
        Err(AddFault::Taken { .. }) => unreachable!(),
    }
}

// Each application process with the grammar of its type.
fn routes_of(alloc: Global, words: &RouteWords<'_>, all: Vec<Checked>) -> Result<Routes, NoMemory>
    requires same { length all.items ≡ length words.now.words.now }
    requires named { AllByRecursion (λ c. ItemsNamed (grammar_of c.tree.root)) all.items }
    ensures { IfOk result (λ routes. routes ≡ listed_by (map route_of (map string_bytes words.now.words.now)) (map (λ c. c.tree) all.items)) }
{
    let mut routes = Routes::new(alloc);
    let mut i = 0;
    for checked in all {
        add_route(alloc, &mut routes, route_at(words, i).apid, checked)?;
        i += 1;
    }
    Ok(routes)
}

// Writes why space packets weren't routed to their end.
fn put_route_fault<E: Sink>(fault: RouteFault, err: &mut E) -> Result<(), Failed>
    ensures { Prints (route_line fault) (E.taken err.old, E.faults err.old) (E.taken err.new, E.faults err.new) result }
{
    match fault {
        RouteFault::Cut { number, left } => put_all(
            err,
            &[
                Piece::Text("acn: packet "),
                Piece::Count(number),
                Piece::Text(": Cut "),
                Piece::Count(left),
                Piece::Text("\n"),
            ],
        ),
        RouteFault::InputTooLong => put_input_too_long(err),
        RouteFault::InputFault => put_piece(err, &Piece::Text("acn: input failed\n")),
        RouteFault::OutputFault => put_piece(err, &Piece::Text("acn: output failed\n")),
        RouteFault::NoMemory => put_no_memory(err),
    }
}

// The status with which space packets come that weren't routed to their end.
fn status_of_routes(fault: RouteFault) -> Status
    ensures { result ≡ spec.status_of_routes fault }
{
    match fault {
        RouteFault::Cut { .. } => Status::BadInput,
        RouteFault::InputTooLong => Status::BadInput,
        RouteFault::InputFault => Status::InputFailed,
        RouteFault::OutputFault => Status::OutputFailed,
        RouteFault::NoMemory => Status::NoMemory,
    }
}

// Space packets weren't routed to their end.
fn route_failed<E: Sink>(fault: RouteFault, err: &mut E) -> Status
    ensures status { result ≡ spec.status_of_routes fault }
    ensures says { Says (route_line fault) (E.taken err.old, E.faults err.old) (E.taken err.new, E.faults err.new) }
{
    let _ = put_route_fault(fault, err);
    status_of_routes(fault)
}

// The status behind space packets: they were routed to their end, or the line that says why not was written.
fn behind_routes<E: Sink>(ended: Result<RouteCount, RouteFault>, err: &mut E) -> Status
    ensures { spec.TellsRoutes ended (E.taken err.old, E.faults err.old) (E.taken err.new, E.faults err.new) result }
{
    match ended {
        Ok(_) => Status::Done,
        Err(fault) => route_failed(fault, err),
    }
}

// Space packets of the input become lines of the output.
fn route_input<S: Source, O: Sink, E: Sink>(
    alloc: Global,
    words: &RouteWords<'_>,
    all: Vec<Checked>,
    input: &mut S,
    out: &mut O,
    err: &mut E,
) -> Status
    requires same { length all.items ≡ length words.now.words.now }
    requires named { AllByRecursion (λ c. ItemsNamed (grammar_of c.tree.root)) all.items }
    ensures { spec.EndsRoutes (listed_by (map route_of (map string_bytes words.now.words.now)) (map (λ c. c.tree) all.items)) (S.rest input.old) (S.rest input.new) (S.faults input.old) (S.faults input.new) (O.taken out.old, O.faults out.old) (O.taken out.new, O.faults out.new) (E.taken err.old, E.faults err.old) (E.taken err.new, E.faults err.new) result }
{
    let Ok(routes) = routes_of(alloc, words, all) else {
        return no_memory(err);
    };
    let ended = route_all(alloc, &routes, input, out, MOST_INPUT_BYTES);
    behind_routes(ended, err)
}

// The same with the types of these names.
fn route_types<S: Source, O: Sink, E: Sink>(
    alloc: Global,
    world: &World,
    words: &RouteWords<'_>,
    names: &[TypeName<'_>],
    input: &mut S,
    out: &mut O,
    err: &mut E,
) -> Status
    requires sources { IsOfSources (world_view world.now) }
    requires named { map type_view names.now ≡ map (λ r. r.of) (map route_of (map string_bytes words.now.words.now)) }
    ensures { (names : List (List ℕ)) → spec.AnswersStream (requests.route (map route_of (map string_bytes words.now.words.now)) names) (world_view world.now) (S.rest input.old) (S.rest input.new) (S.faults input.old) (S.faults input.new) (O.taken out.old, O.faults out.old) (O.taken out.new, O.faults out.new) (E.taken err.old, E.faults err.old) (E.taken err.new, E.faults err.new) result }
{
    match named_grammars(alloc, world, names, err) {
        Ok(all) => route_input(alloc, words, all, input, out, err),
        Err(status) => status,
    }
}

/// Space packets of the input become lines of the output, each by the type of its application process.
pub fn route<S: Source, O: Sink, E: Sink>(
    alloc: Global,
    world: &World,
    words: &RouteWords<'_>,
    input: &mut S,
    out: &mut O,
    err: &mut E,
) -> Status
    requires { IsOfSources (world_view world.now) }
    ensures { (names : List (List ℕ)) → spec.AnswersStream (requests.route (map route_of (map string_bytes words.now.words.now)) names) (world_view world.now) (S.rest input.old) (S.rest input.new) (S.faults input.old) (S.faults input.new) (O.taken out.old, O.faults out.old) (O.taken out.new, O.faults out.new) (E.taken err.old, E.faults err.old) (E.taken err.new, E.faults err.new) result }
{
    let Ok(names) = types_of(alloc, words) else {
        return no_memory(err);
    };
    route_types(alloc, world, words, &names, input, out, err)
}
