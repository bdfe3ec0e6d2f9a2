//! The top call.

ghost use Rattle.std.specs.Prelude.{◌≡◌, ◌↔◌, ◌≤◌, None, Some, map, string_bytes, List};
ghost use Rattle.std.specs.List.{AllByRecursion};
ghost use Rattle.acn_commands.specs.Asked.{HasGrammars};
ghost use Rattle.acn_run.specs.Complete.{CountsStay, IsComplete, NothingFailed};
ghost use Rattle.acn_run.specs.Exactly.{EndsInRefusal, EndsUnfailed, IsRefused};
ghost use Rattle.acn_run.specs.Headline.{KeepsItsPromise};
ghost use Rattle.acn_commands.specs.Outside.{seen};
ghost use Rattle.acn_run.specs.Run as spec;
ghost use Rattle.acn_commands.specs.Steps.{FilesStay};
ghost use Rattle.acn_run.specs.Stuck.{IsRefusedRun, IsStuckRun};
ghost use Rattle.acn_grammar.specs.View.{grammar_of};
ghost use Rattle.acn_tree.specs.declared.tree.Tree.{Tree};
ghost use Rattle.acn_words.specs.Requests.{Request, request_in};

use crate::laws::each_grammar_keeps_its_promise;
use acn_commands::{Status, serve, usage};
use acn_front::{
    faulty_files_have_no_world, one_grammar, one_world, refused_types_have_no_grammars,
};
use acn_outside::{Files, Sink, Source};
use acn_route::one_space;
use acn_stream_laws::{
    lines_are_encoded, recordings_are_decoded, recordings_are_shown, refused_lines_are_named,
    stuck_recordings_are_refused,
};
use acn_words::read_words;
use acn_work::{Unwatched, Watch};
use std::alloc::Global;

// Does what the words ask for.
fn run_words<F: Files, S: Source, O: Sink, E: Sink, W: Watch>(
    alloc: Global,
    words: &[String],
    files: &mut F,
    input: &mut S,
    out: &mut O,
    err: &mut E,
    watch: &W,
) -> Status
    ensures ends { spec.Ends (seen (F.contents files.old) (F.faults files.old) (S.rest input.old) (S.faults input.old) (O.taken out.old, O.faults out.old) (E.taken err.old, E.faults err.old)) (seen (F.contents files.old) (F.faults files.new) (S.rest input.new) (S.faults input.new) (O.taken out.new, O.faults out.new) (E.taken err.new, E.faults err.new)) (map string_bytes words.now) result }
    ensures files { FilesStay (F.faults files.old) (F.faults files.new) result }
{
    match read_words(words) {
        Some(request) => serve(alloc, &request, files, input, out, err, watch),
        None => usage(err),
    }
}

/// The top call: does what the words behind the program's name ask for, and answers the status with which the program ends.
///
/// Where nothing is refused and no device fails, that is 0, and the whole was written, or 7, where memory ran out. Where the sources
/// are refused it is 2, unless a file can't be read (4) or memory runs out; where a packet or a line of the input is refused it is 3,
/// with the number of the first one and the reason. 4, 5 and 6 come only where a count of faults rose, so never
/// over devices that can't fail. With 2 and 3 no count changed, of no file, not of the input, and not of the output.
pub fn run<F: Files, S: Source, O: Sink, E: Sink>(
    alloc: Global,
    words: &Vec<String>,
    files: &mut F,
    input: &mut S,
    out: &mut O,
    err: &mut E,
) -> u8
    ensures ends { spec.EndsWith (seen (F.contents files.old) (F.faults files.old) (S.rest input.old) (S.faults input.old) (O.taken out.old, O.faults out.old) (E.taken err.old, E.faults err.old)) (seen (F.contents files.old) (F.faults files.new) (S.rest input.new) (S.faults input.new) (O.taken out.new, O.faults out.new) (E.taken err.new, E.faults err.new)) (map string_bytes words.now.items) result }
    ensures complete { (request : Request) → request_in (map string_bytes words.now.items) ≡ Some request → IsComplete (seen (F.contents files.old) (F.faults files.old) (S.rest input.old) (S.faults input.old) (O.taken out.old, O.faults out.old) (E.taken err.old, E.faults err.old)) (seen (F.contents files.old) (F.faults files.new) (S.rest input.new) (S.faults input.new) (O.taken out.new, O.faults out.new) (E.taken err.new, E.faults err.new)) request result }
    ensures stuck { (request : Request) → request_in (map string_bytes words.now.items) ≡ Some request → IsStuckRun (seen (F.contents files.old) (F.faults files.old) (S.rest input.old) (S.faults input.old) (O.taken out.old, O.faults out.old) (E.taken err.old, E.faults err.old)) (seen (F.contents files.old) (F.faults files.new) (S.rest input.new) (S.faults input.new) (O.taken out.new, O.faults out.new) (E.taken err.new, E.faults err.new)) request result }
    ensures lines { (request : Request) → request_in (map string_bytes words.now.items) ≡ Some request → IsRefusedRun (seen (F.contents files.old) (F.faults files.old) (S.rest input.old) (S.faults input.old) (O.taken out.old, O.faults out.old) (E.taken err.old, E.faults err.old)) (seen (F.contents files.old) (F.faults files.new) (S.rest input.new) (S.faults input.new) (O.taken out.new, O.faults out.new) (E.taken err.new, E.faults err.new)) request result }
    ensures refused { (request : Request) → request_in (map string_bytes words.now.items) ≡ Some request → IsRefused (F.contents files.old) request result }
    ensures unfailed { NothingFailed (seen (F.contents files.old) (F.faults files.old) (S.rest input.old) (S.faults input.old) (O.taken out.old, O.faults out.old) (E.taken err.old, E.faults err.old)) (seen (F.contents files.old) (F.faults files.new) (S.rest input.new) (S.faults input.new) (O.taken out.new, O.faults out.new) (E.taken err.new, E.faults err.new)) → EndsUnfailed result }
    ensures quiet { EndsInRefusal result → CountsStay (seen (F.contents files.old) (F.faults files.old) (S.rest input.old) (S.faults input.old) (O.taken out.old, O.faults out.old) (E.taken err.old, E.faults err.old)) (seen (F.contents files.old) (F.faults files.new) (S.rest input.new) (S.faults input.new) (O.taken out.new, O.faults out.new) (E.taken err.new, E.faults err.new)) }
    ensures promise { (request : Request) (trees : List Tree) → HasGrammars (F.contents files.old) request trees → AllByRecursion (λ tree. KeepsItsPromise (grammar_of tree.root)) trees }
    ensures usage { (result ≡ 1) ↔ (request_in (map string_bytes words.now.items) ≡ None) }
    ensures known { result ≤ 7 }
{
    run_watched(alloc, words, files, input, out, err, &Unwatched)
}

/// `run`, where `watch` is told of the values that `work` makes, while it makes them. The answer is that of `run`, and has its clauses.
pub fn run_watched<F: Files, S: Source, O: Sink, E: Sink, W: Watch>(
    alloc: Global,
    words: &Vec<String>,
    files: &mut F,
    input: &mut S,
    out: &mut O,
    err: &mut E,
    watch: &W,
) -> u8
    ensures ends { spec.EndsWith (seen (F.contents files.old) (F.faults files.old) (S.rest input.old) (S.faults input.old) (O.taken out.old, O.faults out.old) (E.taken err.old, E.faults err.old)) (seen (F.contents files.old) (F.faults files.new) (S.rest input.new) (S.faults input.new) (O.taken out.new, O.faults out.new) (E.taken err.new, E.faults err.new)) (map string_bytes words.now.items) result }
    ensures complete { (request : Request) → request_in (map string_bytes words.now.items) ≡ Some request → IsComplete (seen (F.contents files.old) (F.faults files.old) (S.rest input.old) (S.faults input.old) (O.taken out.old, O.faults out.old) (E.taken err.old, E.faults err.old)) (seen (F.contents files.old) (F.faults files.new) (S.rest input.new) (S.faults input.new) (O.taken out.new, O.faults out.new) (E.taken err.new, E.faults err.new)) request result }
    ensures stuck { (request : Request) → request_in (map string_bytes words.now.items) ≡ Some request → IsStuckRun (seen (F.contents files.old) (F.faults files.old) (S.rest input.old) (S.faults input.old) (O.taken out.old, O.faults out.old) (E.taken err.old, E.faults err.old)) (seen (F.contents files.old) (F.faults files.new) (S.rest input.new) (S.faults input.new) (O.taken out.new, O.faults out.new) (E.taken err.new, E.faults err.new)) request result }
    ensures lines { (request : Request) → request_in (map string_bytes words.now.items) ≡ Some request → IsRefusedRun (seen (F.contents files.old) (F.faults files.old) (S.rest input.old) (S.faults input.old) (O.taken out.old, O.faults out.old) (E.taken err.old, E.faults err.old)) (seen (F.contents files.old) (F.faults files.new) (S.rest input.new) (S.faults input.new) (O.taken out.new, O.faults out.new) (E.taken err.new, E.faults err.new)) request result }
    ensures refused { (request : Request) → request_in (map string_bytes words.now.items) ≡ Some request → IsRefused (F.contents files.old) request result }
    ensures unfailed { NothingFailed (seen (F.contents files.old) (F.faults files.old) (S.rest input.old) (S.faults input.old) (O.taken out.old, O.faults out.old) (E.taken err.old, E.faults err.old)) (seen (F.contents files.old) (F.faults files.new) (S.rest input.new) (S.faults input.new) (O.taken out.new, O.faults out.new) (E.taken err.new, E.faults err.new)) → EndsUnfailed result }
    ensures quiet { EndsInRefusal result → CountsStay (seen (F.contents files.old) (F.faults files.old) (S.rest input.old) (S.faults input.old) (O.taken out.old, O.faults out.old) (E.taken err.old, E.faults err.old)) (seen (F.contents files.old) (F.faults files.new) (S.rest input.new) (S.faults input.new) (O.taken out.new, O.faults out.new) (E.taken err.new, E.faults err.new)) }
    ensures promise { (request : Request) (trees : List Tree) → HasGrammars (F.contents files.old) request trees → AllByRecursion (λ tree. KeepsItsPromise (grammar_of tree.root)) trees }
    ensures usage { (result ≡ 1) ↔ (request_in (map string_bytes words.now.items) ≡ None) }
    ensures known { result ≤ 7 }
{
    each_grammar_keeps_its_promise();
    recordings_are_decoded();
    recordings_are_shown();
    stuck_recordings_are_refused();
    refused_lines_are_named();
    lines_are_encoded();
    one_space();
    one_world();
    faulty_files_have_no_world();
    refused_types_have_no_grammars();
    one_grammar();
    run_words(alloc, words, files, input, out, err, watch).code()
}
