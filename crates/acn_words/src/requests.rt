//! What words ask for.

ghost use Rattle.std.specs.Prelude.{◌≡◌, ◌∷◌, option_map, map, string_bytes, IfSome, IsTrue, true};
ghost use Rattle.std.specs.List.{list_all};
ghost use Rattle.acn_words.specs.Files.{is_file};
ghost use Rattle.acn_words.specs.Asking.{asks};
ghost use Rattle.acn_words.specs.Requests as spec;
ghost use Rattle.acn_words.specs.View.{request_view, type_view};

use crate::files::are_files;
use crate::names::{TypeName, type_named};
use crate::route_words::RouteWords;
use crate::routes::count_routes;
use acn_lex::number_of;

/// The most values that `work` makes.
pub const MOST_MADE: u64 = 1_000_000;

/// What the words of a command ask for. The files are the words behind the others.
#[derive(Clone, Copy)]
pub enum Request<'a> {
    /// `check FILE..`: whether each root type can be decoded.
    Check {
        files: &'a [String],
    },
    /// `bounds FILE..`: the two bounds of each root type.
    Bounds {
        files: &'a [String],
    },
    /// `layout TYPE FILE..`: the nodes of a type.
    Layout {
        of: TypeName<'a>,
        files: &'a [String],
    },
    /// `encode TYPE FILE..`: lines of JSON to packets.
    Encode {
        of: TypeName<'a>,
        files: &'a [String],
    },
    /// `decode TYPE FILE..`: packets to lines of JSON.
    Decode {
        of: TypeName<'a>,
        files: &'a [String],
    },
    /// `compare OLD NEW FILE..`: whether packets of one type can be read as those of another.
    Compare {
        old: TypeName<'a>,
        new: TypeName<'a>,
        files: &'a [String],
    },
    /// `extremes TYPE FILE..`: the shortest and the longest packet of a type.
    Extremes {
        of: TypeName<'a>,
        files: &'a [String],
    },
    /// `route APID=TYPE .. FILE..`: space packets to lines, each by the type of its application process.
    Route {
        routes: RouteWords<'a>,
        files: &'a [String],
    },
    /// `explain TYPE FILE..`: packets to lines that say what each bit is.
    Explain {
        of: TypeName<'a>,
        files: &'a [String],
    },
    /// `work TYPE START COUNT FILE..`: COUNT values that are drawn from START on, written and read.
    Work {
        of: TypeName<'a>,
        start: u64,
        count: u64,
        files: &'a [String],
    },
}

impl<'a> Request<'a> {
    /// The FILEs.
    pub fn files(&self) -> &'a [String]
        ensures { map string_bytes result.now ≡ spec.files_of (request_view self.now) }
    {
        match self {
            Request::Check { files } => files,
            Request::Bounds { files } => files,
            Request::Layout { files, .. } => files,
            Request::Encode { files, .. } => files,
            Request::Decode { files, .. } => files,
            Request::Compare { files, .. } => files,
            Request::Extremes { files, .. } => files,
            Request::Route { files, .. } => files,
            Request::Explain { files, .. } => files,
            Request::Work { files, .. } => files,
        }
    }
}

fn check<'a>(files: &'a [String]) -> Option<Request<'a>>
    ensures { option_map request_view result ≡ spec.with_files spec.check (map string_bytes files.now) }
{
    if are_files(files) {
        Some(Request::Check { files })
    } else {
        None
    }
}

fn bounds<'a>(files: &'a [String]) -> Option<Request<'a>>
    ensures { option_map request_view result ≡ spec.with_files spec.bounds (map string_bytes files.now) }
{
    if are_files(files) {
        Some(Request::Bounds { files })
    } else {
        None
    }
}

// A command that names one type.
#[derive(Clone, Copy)]
enum OfType {
    Layout,
    Encode,
    Decode,
    Extremes,
    Explain,
}

fn asked<'a>(command: OfType, of: &TypeName<'a>, files: &'a [String]) -> Request<'a>
    ensures request { request_view result ≡ asks command (type_view of.now) (map string_bytes files.now) }
{
    match command {
        OfType::Layout => Request::Layout { of: *of, files },
        OfType::Encode => Request::Encode { of: *of, files },
        OfType::Decode => Request::Decode { of: *of, files },
        OfType::Extremes => Request::Extremes { of: *of, files },
        OfType::Explain => Request::Explain { of: *of, files },
    }
}

// TYPE and the FILEs behind it.
fn type_and_files<'a>(of: &'a String, files: &'a [String]) -> Option<TypeName<'a>>
    ensures name { option_map type_view result ≡ option_map (λ p. p.0) (spec.type_and_files (string_bytes of.now ∷ map string_bytes files.now)) }
    ensures files { IfSome result (λ name. IsTrue (list_all is_file (map string_bytes files.now))) }
{
    match type_named(of.as_str().as_bytes()) {
        Some(of) => { if are_files(files) { Some(of) } else { None } }
        None => None,
    }
}

fn with_type<'a>(command: OfType, rest: &'a [String]) -> Option<Request<'a>>
    ensures request { option_map request_view result ≡ spec.with_type (asks command) (map string_bytes rest.now) }
    ensures files { IfSome result (λ request. IsTrue (list_all is_file (spec.files_of (request_view request)))) }
    ensures count { IfSome result (λ request. spec.has_count (request_view request) ≡ true) }
{
    match rest {
        [] => None,
        [of, files @ ..] => match type_and_files(of, files) {
            Some(of) => Some(asked(command, &of, files)),
            None => None,
        },
    }
}

// The type that packets of the old one are to be read by, and the FILEs behind it.
fn against<'a>(old: &TypeName<'a>, rest: &'a [String]) -> Option<Request<'a>>
    ensures request { option_map request_view result ≡ option_map (λ p. spec.compare (type_view old.now) p.0 p.1) (spec.type_and_files (map string_bytes rest.now)) }
    ensures files { IfSome result (λ request. IsTrue (list_all is_file (spec.files_of (request_view request)))) }
    ensures count { IfSome result (λ request. spec.has_count (request_view request) ≡ true) }
{
    match rest {
        [] => None,
        [newer, files @ ..] => match type_and_files(newer, files) {
            Some(new) => Some(Request::Compare {
                old: *old,
                new,
                files,
            }),
            None => None,
        },
    }
}

fn compare<'a>(rest: &'a [String]) -> Option<Request<'a>>
    ensures request { option_map request_view result ≡ spec.with_types (map string_bytes rest.now) }
    ensures files { IfSome result (λ request. IsTrue (list_all is_file (spec.files_of (request_view request)))) }
    ensures count { IfSome result (λ request. spec.has_count (request_view request) ≡ true) }
{
    match rest {
        [] => None,
        [old, words @ ..] => match type_named(old.as_str().as_bytes()) {
            Some(old) => against(&old, words),
            None => None,
        },
    }
}

// The routes, and the FILEs behind them.
fn route<'a>(rest: &'a [String]) -> Option<Request<'a>>
    ensures request { option_map request_view result ≡ spec.with_routes (map string_bytes rest.now) }
    ensures files { IfSome result (λ request. IsTrue (list_all is_file (spec.files_of (request_view request)))) }
    ensures count { IfSome result (λ request. spec.has_count (request_view request) ≡ true) }
{
    let count = count_routes(rest);
    routed(&rest[..count], &rest[count..])
}

fn routed<'a>(routes: &'a [String], files: &'a [String]) -> Option<Request<'a>>
    ensures request { option_map request_view result ≡ spec.routed (map string_bytes routes.now) (map string_bytes files.now) }
    ensures files { IfSome result (λ request. IsTrue (list_all is_file (spec.files_of (request_view request)))) }
    ensures count { IfSome result (λ request. spec.has_count (request_view request) ≡ true) }
{
    match RouteWords::of_words(routes) {
        Some(routes) => {
            if are_files(files) {
                Some(Request::Route { routes, files })
            } else {
                None
            }
        }
        None => None,
    }
}

/// A number of values from 1 to `MOST_MADE`.
pub fn count_of(word: &[u8]) -> Option<u64>
    ensures count { result ≡ spec.count_in word.now }
    ensures few { IfSome result (λ count. spec.is_count count ≡ true) }
{
    let count = number_of(word)?;
    if 1 <= count && count <= MOST_MADE {
        Some(count)
    } else {
        None
    }
}

fn made<'a>(
    of: &TypeName<'a>,
    start: Option<u64>,
    count: Option<u64>,
    files: &'a [String],
) -> Option<Request<'a>>
    requires few { IfSome count (λ n. spec.is_count n ≡ true) }
    requires files { IsTrue (list_all is_file (map string_bytes files.now)) }
    ensures request { option_map request_view result ≡ spec.made (type_view of.now) start count (map string_bytes files.now) }
    ensures files { IfSome result (λ request. IsTrue (list_all is_file (spec.files_of (request_view request)))) }
    ensures count { IfSome result (λ request. spec.has_count (request_view request) ≡ true) }
{
    match (start, count) {
        (Some(start), Some(count)) => Some(Request::Work {
            of: *of,
            start,
            count,
            files,
        }),
        (Some(_), None) => None,
        (None, _) => None,
    }
}

fn work_with<'a>(
    of: &'a String,
    start: &'a String,
    count: &'a String,
    files: &'a [String],
) -> Option<Request<'a>>
    ensures request { option_map request_view result ≡ spec.work_with (string_bytes of.now) (string_bytes start.now) (string_bytes count.now) (map string_bytes files.now) }
    ensures files { IfSome result (λ request. IsTrue (list_all is_file (spec.files_of (request_view request)))) }
    ensures count { IfSome result (λ request. spec.has_count (request_view request) ≡ true) }
{
    match type_named(of.as_str().as_bytes()) {
        Some(of) => {
            if are_files(files) {
                let start = number_of(start.as_str().as_bytes());
                let count = count_of(count.as_str().as_bytes());
                made(&of, start, count, files)
            } else {
                None
            }
        }
        None => None,
    }
}

fn work<'a>(rest: &'a [String]) -> Option<Request<'a>>
    ensures request { option_map request_view result ≡ spec.with_work (map string_bytes rest.now) }
    ensures files { IfSome result (λ request. IsTrue (list_all is_file (spec.files_of (request_view request)))) }
    ensures count { IfSome result (λ request. spec.has_count (request_view request) ≡ true) }
{
    match rest {
        [of, start, count, files @ ..] => work_with(of, start, count, files),
        _ => None,
    }
}

/// What the words behind the program's name ask for. None exactly where they have none of the forms of `Request`.
pub fn read_words(words: &[String]) -> Option<Request<'_>>
    ensures request { option_map request_view result ≡ spec.request_in (map string_bytes words.now) }
    ensures files { IfSome result (λ request. IsTrue (list_all is_file (spec.files_of (request_view request)))) }
    ensures count { IfSome result (λ request. spec.has_count (request_view request) ≡ true) }
{
    let (command, rest) = words.split_first()?;
    match command.as_str() {
        "check" => check(rest),
        "bounds" => bounds(rest),
        "layout" => with_type(OfType::Layout, rest),
        "encode" => with_type(OfType::Encode, rest),
        "decode" => with_type(OfType::Decode, rest),
        "compare" => compare(rest),
        "extremes" => with_type(OfType::Extremes, rest),
        "route" => route(rest),
        "explain" => with_type(OfType::Explain, rest),
        "work" => work(rest),
        _ => None,
    }
}
