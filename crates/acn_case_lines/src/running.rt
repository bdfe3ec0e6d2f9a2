use crate::line::{Line, line_of};
use acn_num::NoMemory;
use std::alloc::Global;
use std::io;

/// What a program over cases keeps from line to line.
pub trait Answers {
    /// What stands behind the arrow of a case.
    fn answer(&mut self, alloc: Global, case: &str) -> Result<String, NoMemory>;

    /// Takes a line that is neither a case nor a comment. Whether it is understood.
    fn take(&mut self, alloc: Global, line: &str) -> Result<bool, NoMemory>;
}

// What is printed for a line.
fn reply<A: Answers>(alloc: Global, answers: &mut A, line: &str) -> Result<String, NoMemory> {
    match line_of(line) {
        Line::Case(case) => {
            let said = answers.answer(alloc, case)?;
            Ok(format!(in alloc; "{case}=> {said}")?)
        }
        Line::Note => Ok(line.to_string(alloc)?),
        Line::Other(text) => {
            if answers.take(alloc, text)? {
                Ok(line.to_string(alloc)?)
            } else {
                Ok(format!(in alloc; "not understood: {line}")?)
            }
        }
    }
}

/// Prints the input, line by line, with the answer behind the arrow of each case.
pub fn run_cases<R, A>(rt: &R, alloc: Global, answers: &mut A) -> io::Result<()>
where
    R: Input + Print,
    A: Answers,
{
    for line in rt.lines(alloc) {
        let line = line?;
        match reply(alloc, answers, line.as_str()) {
            Ok(text) => println!(rt; "{text}")?,
            Err(NoMemory) => println!(rt; "no memory")?,
        }
    }
    Ok(())
}
