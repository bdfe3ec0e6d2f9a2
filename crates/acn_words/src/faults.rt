//! What is wrong with words that have no form.

ghost use Rattle.std.specs.Prelude.{◌≡◌, map, string_bytes, option_map, is_some, not};
ghost use Rattle.acn_words.specs.Faults as spec;
ghost use Rattle.acn_words.specs.Requests.{request_in};
ghost use Rattle.acn_words.specs.View.{fault_view};

use crate::files::{MOST_FILES, is_file, one_has_modules};
use crate::names::type_named;
use crate::requests::count_of;
use crate::routes::{apid_of, count_routes, has_apid, is_route};
use acn_lex::number_of;

/// Why words have none of the forms of `Request`: the first of the command, TYPE, APID=TYPE, START, COUNT and the FILEs that isn't as it has to be.
#[derive(Clone, Copy)]
pub enum WordsFault<'a> {
    /// There are no words.
    NoCommand,
    /// The first word, this one, is no command.
    Command(&'a String),
    /// No word stands where TYPE has to.
    NoType,
    /// This word stands where TYPE has to, and is none.
    Type(&'a String),
    /// No word stands where the first APID=TYPE has to.
    NoRoute,
    /// This word stands where the first APID=TYPE has to, and is none.
    Route(&'a String),
    /// The application process of this word is that of one behind it too.
    RouteTwice(&'a String),
    /// No word stands where START has to.
    NoStart,
    /// This word stands where START has to, and is no number.
    Start(&'a String),
    /// No word stands where COUNT has to.
    NoCount,
    /// This word stands where COUNT has to, and is no number from 1 to `MOST_MADE`.
    Count(&'a String),
    /// There are no FILEs.
    NoFile,
    /// There are more than `MOST_FILES` FILEs.
    TooManyFiles,
    /// This word stands among the FILEs, and doesn't end as one.
    File(&'a String),
    /// No FILE has modules of ASN.1.
    NoModules,
}

// The first word that is no FILE.
fn stranger(words: &[String]) -> Option<&String>
    ensures { option_map (λ word. string_bytes word.now) result ≡ spec.stranger (map string_bytes words.now) }
{
    for word in words {
        if !is_file(word.as_str().as_bytes()) {
            return Some(word);
        }
    }
    None
}

// What is wrong with FILEs that aren't too many.
fn few_files_fault(files: &[String]) -> Option<WordsFault<'_>>
    ensures { option_map fault_view result ≡ spec.unless_modules (map string_bytes files.now) (spec.stranger (map string_bytes files.now)) }
{
    match stranger(files) {
        Some(word) => Some(WordsFault::File(word)),
        None => {
            if one_has_modules(files) {
                None
            } else {
                Some(WordsFault::NoModules)
            }
        }
    }
}

fn files_fault(files: &[String]) -> Option<WordsFault<'_>>
    ensures { option_map fault_view result ≡ spec.files_fault (map string_bytes files.now) }
{
    match files {
        [] => Some(WordsFault::NoFile),
        [_, ..] => {
            if files.len() <= MOST_FILES {
                few_files_fault(files)
            } else {
                Some(WordsFault::TooManyFiles)
            }
        }
    }
}

fn type_fault(rest: &[String]) -> Option<WordsFault<'_>>
    ensures { option_map fault_view result ≡ spec.type_fault (map string_bytes rest.now) }
{
    match rest {
        [] => Some(WordsFault::NoType),
        [of, files @ ..] => {
            if type_named(of.as_str().as_bytes()).is_some() {
                files_fault(files)
            } else {
                Some(WordsFault::Type(of))
            }
        }
    }
}

fn types_fault(rest: &[String]) -> Option<WordsFault<'_>>
    ensures { option_map fault_view result ≡ spec.types_fault (map string_bytes rest.now) }
{
    match rest {
        [] => Some(WordsFault::NoType),
        [of, words @ ..] => {
            if type_named(of.as_str().as_bytes()).is_some() {
                type_fault(words)
            } else {
                Some(WordsFault::Type(of))
            }
        }
    }
}

// The first route whose application process comes again.
fn repeated(routes: &[String]) -> Option<&String>
    ensures { option_map (λ word. string_bytes word.now) result ≡ spec.repeated (map string_bytes routes.now) }
{
    let mut rest = routes;
    while let [word, behind @ ..] = rest {
        if has_apid(behind, apid_of(word.as_str().as_bytes())) {
            return Some(word);
        }
        rest = behind;
    }
    None
}

// What is wrong with routes and the FILEs behind them.
fn routed_fault<'a>(routes: &'a [String], files: &'a [String]) -> Option<WordsFault<'a>>
    ensures { option_map fault_view result ≡ spec.unless_repeated (spec.repeated (map string_bytes routes.now)) (map string_bytes files.now) }
{
    match repeated(routes) {
        Some(word) => Some(WordsFault::RouteTwice(word)),
        None => files_fault(files),
    }
}

fn routes_fault(rest: &[String]) -> Option<WordsFault<'_>>
    ensures { option_map fault_view result ≡ spec.routes_fault (map string_bytes rest.now) }
{
    match rest {
        [] => Some(WordsFault::NoRoute),
        [first, ..] => {
            if is_route(first.as_str().as_bytes()) {
                let count = count_routes(rest);
                routed_fault(&rest[..count], &rest[count..])
            } else {
                Some(WordsFault::Route(first))
            }
        }
    }
}

fn count_fault(rest: &[String]) -> Option<WordsFault<'_>>
    ensures { option_map fault_view result ≡ spec.count_fault (map string_bytes rest.now) }
{
    match rest {
        [] => Some(WordsFault::NoCount),
        [count, files @ ..] => match count_of(count.as_str().as_bytes()) {
            Some(_) => files_fault(files),
            None => Some(WordsFault::Count(count)),
        },
    }
}

fn start_fault(rest: &[String]) -> Option<WordsFault<'_>>
    ensures { option_map fault_view result ≡ spec.start_fault (map string_bytes rest.now) }
{
    match rest {
        [] => Some(WordsFault::NoStart),
        [start, rest @ ..] => match number_of(start.as_str().as_bytes()) {
            Some(_) => count_fault(rest),
            None => Some(WordsFault::Start(start)),
        },
    }
}

fn work_fault(rest: &[String]) -> Option<WordsFault<'_>>
    ensures { option_map fault_view result ≡ spec.work_fault (map string_bytes rest.now) }
{
    match rest {
        [] => Some(WordsFault::NoType),
        [of, rest @ ..] => {
            if type_named(of.as_str().as_bytes()).is_some() {
                start_fault(rest)
            } else {
                Some(WordsFault::Type(of))
            }
        }
    }
}

// What is wrong with the words.
fn fault_of(words: &[String]) -> Option<WordsFault<'_>>
    ensures { option_map fault_view result ≡ spec.fault_in (map string_bytes words.now) }
{
    let Some((command, rest)) = words.split_first() else {
        return Some(WordsFault::NoCommand);
    };
    match command.as_str() {
        "check" => files_fault(rest),
        "bounds" => files_fault(rest),
        "layout" => type_fault(rest),
        "encode" => type_fault(rest),
        "decode" => type_fault(rest),
        "compare" => types_fault(rest),
        "extremes" => type_fault(rest),
        "route" => routes_fault(rest),
        "explain" => type_fault(rest),
        "work" => work_fault(rest),
        _ => Some(WordsFault::Command(command)),
    }
}

/// What is wrong with the words behind the program's name. None comes exactly where they have one of the forms of `Request`.
pub fn words_fault(words: &[String]) -> Option<WordsFault<'_>>
    ensures fault { option_map fault_view result ≡ spec.fault_in (map string_bytes words.now) }
    ensures none { is_some result ≡ not (is_some (request_in (map string_bytes words.now))) }
{
    fault_of(words)
}
