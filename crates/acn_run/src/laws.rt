//! What holds of every grammar that the checker accepts, and of every run.

ghost use Rattle.acn_run.specs.Headline.{EachGrammarKeepsItsPromise};
ghost use Rattle.acn_run.specs.OneAnswer.{OneAnswer};

use acn_front::{
    faulty_files_have_no_world, one_grammar, one_world, refused_types_have_no_grammars,
};
use acn_packet_laws::{
    bounds_hold, each_input_is_read_or_fails, each_value_is_written_or_refused,
    fronts_exclude_failures, no_fault_without_a_first, one_failure, one_front, one_writing,
    refused_is_not_spelled, spelled_values_meet, written_is_read,
};
use acn_route::one_space;
use acn_stream_laws::{lines_are_encoded, recordings_are_decoded, recordings_are_shown};

/// By every accepted grammar a value is written exactly where some numbers satisfy its determinants, and then it meets its constraints;
/// what is written is read as that value whatever follows, with exactly its bits, whose number lies between the bounds; and an input is
/// read exactly where it begins with a spelling, and fails in one way where it doesn't.
pub fn each_grammar_keeps_its_promise()
    ensures { EachGrammarKeepsItsPromise }
{
    bounds_hold();
    each_input_is_read_or_fails();
    each_value_is_written_or_refused();
    fronts_exclude_failures();
    no_fault_without_a_first();
    one_failure();
    one_front();
    one_writing();
    refused_is_not_spelled();
    spelled_values_meet();
    written_is_read();
}

/// Two runs of the same words over the same files and the same input end with the same status, where no device fails in them and memory
/// lasts: so the words, the files and the input tell it.
pub fn one_answer()
    ensures { OneAnswer }
{
    recordings_are_decoded();
    recordings_are_shown();
    lines_are_encoded();
    one_space();
    one_world();
    faulty_files_have_no_world();
    refused_types_have_no_grammars();
    one_grammar();
    refused_is_not_spelled();
}
