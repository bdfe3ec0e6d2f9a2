//! What each command does, where the files say a world.

ghost use Rattle.std.specs.Prelude.{◌≡◌, ◌*◌, ◌^◌, ◌<◌, ℕ, true, List, IfOk};
ghost use Rattle.acn_grammar.specs.ItemsNamed.{ItemsNamed};
ghost use Rattle.acn_grammar.specs.View.{grammar_of};
ghost use Rattle.acn_grammar.specs.declared.limits.TheConstants.{MOST_PACKET_BITS};
ghost use Rattle.acn_commands.specs.Steps as spec;
ghost use Rattle.acn_tree_laws.specs.Laws.{IsOfSources};
ghost use Rattle.acn_work.specs.Summaries.{IsSummary};
ghost use Rattle.acn_words.specs.Requests as requests;
ghost use Rattle.acn_words.specs.View.{type_view, request_view};
ghost use Rattle.acn_world.specs.Viewed.{world_view};

use crate::comparing::compare_types;
use crate::extremes::type_extremes;
use crate::grammars::named_grammar;
use crate::reports::no_memory;
use crate::roots::{RootLine, root_lines};
use crate::routing::route;
use crate::status::Status;
use crate::streams;
use crate::texts::behind_text;
use acn_check::Checked;
use acn_layout::put_layout;
use acn_num::NoMemory;
use acn_outside::{Sink, Source};
use acn_plan::compile;
use acn_print::{Piece, put_piece};
use acn_words::{Request, TypeName};
use acn_work::{Summary, Watch, put_summary, work as work_by};
use acn_world::World;
use std::alloc::Global;

fn check<O: Sink, E: Sink>(alloc: Global, world: &World, out: &mut O, err: &mut E) -> Status
    requires { IsOfSources (world_view world.now) }
    ensures { (names : List (List ℕ)) → spec.AnswersText (requests.check names) (world_view world.now) (O.taken out.old, O.faults out.old) (O.taken out.new, O.faults out.new) (E.taken err.old, E.faults err.old) (E.taken err.new, E.faults err.new) result }
{
    match root_lines(alloc, world, RootLine::Decodable, err) {
        Ok(text) => behind_text(put_piece(out, &Piece::Name(&text)), err),
        Err(status) => status,
    }
}

fn bounds<O: Sink, E: Sink>(alloc: Global, world: &World, out: &mut O, err: &mut E) -> Status
    requires { IsOfSources (world_view world.now) }
    ensures { (names : List (List ℕ)) → spec.AnswersText (requests.bounds names) (world_view world.now) (O.taken out.old, O.faults out.old) (O.taken out.new, O.faults out.new) (E.taken err.old, E.faults err.old) (E.taken err.new, E.faults err.new) result }
{
    match root_lines(alloc, world, RootLine::Bounds, err) {
        Ok(text) => behind_text(put_piece(out, &Piece::Name(&text)), err),
        Err(status) => status,
    }
}

fn layout<O: Sink, E: Sink>(
    alloc: Global,
    world: &World,
    of: &TypeName<'_>,
    out: &mut O,
    err: &mut E,
) -> Status
    requires { IsOfSources (world_view world.now) }
    ensures { (names : List (List ℕ)) → spec.AnswersText (requests.layout (type_view of.now) names) (world_view world.now) (O.taken out.old, O.faults out.old) (O.taken out.new, O.faults out.new) (E.taken err.old, E.faults err.old) (E.taken err.new, E.faults err.new) result }
{
    match named_grammar(alloc, world, of, err) {
        Ok(checked) => behind_text(put_layout(&checked, out), err),
        Err(status) => status,
    }
}

// What came of the values that are made.
fn plan_and_work<W: Watch>(
    alloc: Global,
    checked: &Checked,
    start: u64,
    count: u64,
    watch: &W,
) -> Result<Summary, NoMemory>
    requires few { count * MOST_PACKET_BITS < 2 ^ 64 }
    requires named { ItemsNamed (grammar_of checked.now.tree.root) }
    ensures { IfOk result (λ s. IsSummary (grammar_of checked.now.tree.root) start count s) }
{
    let plan = compile(alloc, checked)?;
    work_by(alloc, checked, &plan, start, count, watch)
}

// The line of what came of the values that are made.
fn summary<O: Sink, E: Sink, W: Watch>(
    alloc: Global,
    checked: &Checked,
    start: u64,
    count: u64,
    out: &mut O,
    err: &mut E,
    watch: &W,
) -> Status
    requires few { count * MOST_PACKET_BITS < 2 ^ 64 }
    requires named { ItemsNamed (grammar_of checked.now.tree.root) }
    ensures { spec.TextEnds (spec.IsSummaryLine (grammar_of checked.now.tree.root) start count) (O.taken out.old, O.faults out.old) (O.taken out.new, O.faults out.new) (E.taken err.old, E.faults err.old) (E.taken err.new, E.faults err.new) result }
{
    match plan_and_work(alloc, checked, start, count, watch) {
        Ok(summary) => behind_text(put_summary(&summary, out), err),
        Err(_) => no_memory(err),
    }
}

fn work<O: Sink, E: Sink, W: Watch>(
    alloc: Global,
    world: &World,
    of: &TypeName<'_>,
    start: u64,
    count: u64,
    out: &mut O,
    err: &mut E,
    watch: &W,
) -> Status
    requires few { count * MOST_PACKET_BITS < 2 ^ 64 }
    requires sources { IsOfSources (world_view world.now) }
    ensures { (names : List (List ℕ)) → spec.AnswersText (requests.work (type_view of.now) start count names) (world_view world.now) (O.taken out.old, O.faults out.old) (O.taken out.new, O.faults out.new) (E.taken err.old, E.faults err.old) (E.taken err.new, E.faults err.new) result }
{
    match named_grammar(alloc, world, of, err) {
        Ok(checked) => summary(alloc, &checked, start, count, out, err, watch),
        Err(status) => status,
    }
}

fn encode<S: Source, O: Sink, E: Sink>(
    alloc: Global,
    world: &World,
    of: &TypeName<'_>,
    input: &mut S,
    out: &mut O,
    err: &mut E,
) -> Status
    requires { IsOfSources (world_view world.now) }
    ensures { (names : List (List ℕ)) → spec.AnswersStream (requests.encode (type_view of.now) names) (world_view world.now) (S.rest input.old) (S.rest input.new) (S.faults input.old) (S.faults input.new) (O.taken out.old, O.faults out.old) (O.taken out.new, O.faults out.new) (E.taken err.old, E.faults err.old) (E.taken err.new, E.faults err.new) result }
{
    match named_grammar(alloc, world, of, err) {
        Ok(checked) => streams::encode(alloc, &checked, input, out, err),
        Err(status) => status,
    }
}

fn decode<S: Source, O: Sink, E: Sink>(
    alloc: Global,
    world: &World,
    of: &TypeName<'_>,
    input: &mut S,
    out: &mut O,
    err: &mut E,
) -> Status
    requires { IsOfSources (world_view world.now) }
    ensures { (names : List (List ℕ)) → spec.AnswersStream (requests.decode (type_view of.now) names) (world_view world.now) (S.rest input.old) (S.rest input.new) (S.faults input.old) (S.faults input.new) (O.taken out.old, O.faults out.old) (O.taken out.new, O.faults out.new) (E.taken err.old, E.faults err.old) (E.taken err.new, E.faults err.new) result }
{
    match named_grammar(alloc, world, of, err) {
        Ok(checked) => streams::decode(alloc, &checked, input, out, err),
        Err(status) => status,
    }
}

fn explain<S: Source, O: Sink, E: Sink>(
    alloc: Global,
    world: &World,
    of: &TypeName<'_>,
    input: &mut S,
    out: &mut O,
    err: &mut E,
) -> Status
    requires { IsOfSources (world_view world.now) }
    ensures { (names : List (List ℕ)) → spec.AnswersStream (requests.explain (type_view of.now) names) (world_view world.now) (S.rest input.old) (S.rest input.new) (S.faults input.old) (S.faults input.new) (O.taken out.old, O.faults out.old) (O.taken out.new, O.faults out.new) (E.taken err.old, E.faults err.old) (E.taken err.new, E.faults err.new) result }
{
    match named_grammar(alloc, world, of, err) {
        Ok(checked) => streams::explain(alloc, &checked, input, out, err),
        Err(status) => status,
    }
}

/// Does what the words ask for, with the world of their files.
pub fn answer<S: Source, O: Sink, E: Sink, W: Watch>(
    alloc: Global,
    request: &Request<'_>,
    world: &World,
    input: &mut S,
    out: &mut O,
    err: &mut E,
    watch: &W,
) -> Status
    requires count { requests.has_count (request_view request.now) ≡ true }
    requires sources { IsOfSources (world_view world.now) }
    ensures { spec.AnswersStream (request_view request.now) (world_view world.now) (S.rest input.old) (S.rest input.new) (S.faults input.old) (S.faults input.new) (O.taken out.old, O.faults out.old) (O.taken out.new, O.faults out.new) (E.taken err.old, E.faults err.old) (E.taken err.new, E.faults err.new) result }
{
    match request {
        Request::Check { .. } => check(alloc, world, out, err),
        Request::Bounds { .. } => bounds(alloc, world, out, err),
        Request::Layout { of, .. } => layout(alloc, world, of, out, err),
        Request::Encode { of, .. } => encode(alloc, world, of, input, out, err),
        Request::Decode { of, .. } => decode(alloc, world, of, input, out, err),
        Request::Compare { old, new, .. } => compare_types(alloc, world, old, new, out, err),
        Request::Extremes { of, .. } => type_extremes(alloc, world, of, out, err),
        Request::Route { routes, .. } => route(alloc, world, routes, input, out, err),
        Request::Explain { of, .. } => explain(alloc, world, of, input, out, err),
        Request::Work {
            of,
            start,
            count,
            ..
        } => work(alloc, world, of, *start, *count, out, err, watch),
    }
}
