//! The program: it hands the real files, input and outputs to the top call.
#![tactic(auto)]

use acn_advice::{Heard, Recalled};
use acn_advisor::advise;
use acn_outside::{StdError, StdFiles, StdInput, StdOutput};
use acn_progress::{Cleared, Progress, Watched, way_of};
use acn_run::run_watched;
use acn_words::question_in;
use std::env;
use std::io::ErrorKind;
use std::process::ExitCode;

/// Why the words behind the program's name can't be taken.
enum WordsFault {
    /// One of them isn't UTF-8.
    NotText,
    /// Memory ran out.
    NoMemory,
}

/// What the program is called with.
#[derive(Drop)]
struct Call {
    /// Whether `--hints` stands in front of the words.
    hints: bool,
    /// Whether `--progress` does.
    progress: bool,
    /// The words behind them.
    words: Vec<String>,
}

impl Call {
    // Takes the next word.
    fn take(&mut self, word: String) -> Result<(), WordsFault> {
        let in_front = self.words.is_empty();
        if in_front && !self.hints && word.as_str() == "--hints" {
            self.hints = true;
        } else if in_front && !self.progress && word.as_str() == "--progress" {
            self.progress = true;
        } else if self.words.push(word).is_err() {
            return Err(WordsFault::NoMemory);
        }
        Ok(())
    }
}

/// A call without words.
fn empty_call(rt: &HostRuntime) -> Call {
    Call {
        hints: false,
        progress: false,
        words: Vec::new(rt.alloc()),
    }
}

/// The words behind the program's name.
fn called(rt: &HostRuntime) -> Result<Call, WordsFault> {
    let mut call = empty_call(rt);
    let all = match env::args(rt) {
        Ok(all) => all,
        Err(e) if e.kind() == ErrorKind::OutOfMemory => return Err(WordsFault::NoMemory),
        Err(_) => return Err(WordsFault::NotText),
    };
    for (i, word) in all.enumerate() {
        if i > 0 {
            call.take(word)?;
        }
    }
    Ok(call)
}

/// Says that memory ran out, and answers the status for it.
fn out_of_memory(rt: &HostRuntime) -> ExitCode {
    let _ = eprint!(rt; "acn: out of memory\n");
    ExitCode::from(7)
}

/// Says that the output failed, and answers the status for it.
fn output_failed(rt: &HostRuntime) -> ExitCode {
    let _ = eprint!(rt; "acn: output failed\n");
    ExitCode::from(6)
}

fn main(rt: HostRuntime) -> ExitCode {
    let Call {
        hints,
        progress,
        words,
    } = match called(&rt) {
        Ok(call) => call,
        Err(WordsFault::NotText) => empty_call(&rt),
        Err(WordsFault::NoMemory) => return out_of_memory(&rt),
    };
    if let Some(question) = question_in(&words) {
        let text = question.text();
        return match print!(rt; "{text}") {
            Ok(()) => ExitCode::from(0),
            Err(_) => output_failed(&rt),
        };
    }
    let stdout = rt.stdout();
    let stderr = rt.stderr();
    let way = if progress { way_of(&words) } else { None };
    let progress = Progress::new(rt.alloc(), &rt, &stderr, way);
    let mut files = StdFiles::new(rt.alloc(), &rt);
    let input = Watched::new(StdInput::new(rt.reader()), &progress);
    let mut input = Recalled::new(rt.alloc(), input, hints);
    let mut out = Watched::new(StdOutput::new(&stdout), &progress);
    let err = Cleared::new(StdError::new(&stderr), &progress);
    let mut err = Heard::new(rt.alloc(), err);
    let status = run_watched(
        rt.alloc(),
        &words,
        &mut files,
        &mut input,
        &mut out,
        &mut err,
        &progress,
    );
    progress.clear();
    if hints {
        let (mut err, line) = err.into_parts();
        advise(
            rt.alloc(),
            &words,
            status,
            &line,
            input.kept(),
            &mut files,
            &mut err,
        );
    }
    ExitCode::from(status)
}
