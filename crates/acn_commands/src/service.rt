//! A request is served: its files are read, and what it asks for is done with what they say.

ghost use Rattle.std.specs.Prelude.{◌≡◌, true, IsTrue};
ghost use Rattle.std.specs.List.{list_all};
ghost use Rattle.acn_commands.specs.Outside.{seen};
ghost use Rattle.acn_commands.specs.Serves.{Serves};
ghost use Rattle.acn_commands.specs.Steps.{FilesStay};
ghost use Rattle.acn_words.specs.Files.{is_file};
ghost use Rattle.acn_words.specs.Requests.{files_of, has_count};
ghost use Rattle.acn_words.specs.View.{request_view};

use crate::answers::answer;
use crate::sources::read_world;
use crate::status::Status;
use acn_outside::{Files, Sink, Source};
use acn_words::Request;
use acn_work::Watch;
use std::alloc::Global;

/// Does what a request asks for, and answers how it ended. Its files are read first, in order, then the sources are looked at, then what was
/// asked is done. (This program's own.)
pub fn serve<F: Files, S: Source, O: Sink, E: Sink, W: Watch>(
    alloc: Global,
    request: &Request<'_>,
    files: &mut F,
    input: &mut S,
    out: &mut O,
    err: &mut E,
    watch: &W,
) -> Status
    requires files { IsTrue (list_all is_file (files_of (request_view request.now))) }
    requires count { has_count (request_view request.now) ≡ true }
    ensures serves { Serves (seen (F.contents files.old) (F.faults files.old) (S.rest input.old) (S.faults input.old) (O.taken out.old, O.faults out.old) (E.taken err.old, E.faults err.old)) (seen (F.contents files.old) (F.faults files.new) (S.rest input.new) (S.faults input.new) (O.taken out.new, O.faults out.new) (E.taken err.new, E.faults err.new)) (request_view request.now) result }
    ensures files { FilesStay (F.faults files.old) (F.faults files.new) result }
{
    match read_world(alloc, request.files(), files, err) {
        Ok(world) => answer(alloc, request, &world, input, out, err, watch),
        Err(status) => status,
    }
}
