//! What a value is refused for, where its moments can't all be met.

ghost use Rattle.std.specs.Prelude.{◌≡◌, ◌≤◌, length, option_map};
ghost use Rattle.acn_num.specs.declared.limits.TheConstants.{MOST_STEPS};
ghost use Rattle.acn_asks.specs.Moments.{unfit_of as unfit_of_moment};
ghost use Rattle.acn_grammar.specs.Faults.{ask_of, unfit_of};
ghost use Rattle.acn_plain.specs.Encoded.{HasPaths, HasPathsAt, heard_till, unfit_in};

use crate::encode::PlainFault;
use acn_asks::{Halt, Moment};
use acn_grammar::{Ask, Unfit, UnfitReason};
use acn_num::Path;

fn path_of(steps: &[u32]) -> Path
    requires { length steps.now ≤ MOST_STEPS }
    ensures { result ≡ steps.now }
{
    let mut path = Path::new();
    for step in steps {
        path.push(*step);
    }
    path
}

// What a value is refused for where this moment is the first that can't be met.
fn unfit_at(moment: &Moment<'_>, earlier: Option<Ask>) -> Unfit
    requires { HasPaths moment.now }
    ensures { unfit_of result ≡ unfit_of_moment moment.now (option_map ask_of earlier) }
{
    match moment {
        Moment::Asks {
            path,
            field,
            wanted,
            ..
        } => Unfit {
            path: path_of(path.items()),
            reason: UnfitReason::Conflict {
                slot: path_of(field.items()),
                earlier,
                wanted: *wanted,
            },
        },
        Moment::Counts { path, octets, .. } => Unfit {
            path: path_of(path.items()),
            reason: UnfitReason::ContentSize { octets: *octets },
        },
    }
}

/// Why a value isn't written, by its moments and by where hearing them ended.
pub fn halted(moments: &[Moment<'_>], halt: Halt) -> PlainFault
    requires { HasPathsAt moments.now halt }
    ensures { unfit_in result ≡ heard_till moments.now halt }
{
    match halt {
        Halt::Unmet { at, earlier } => match moments.get(at) {
            Some(moment) => PlainFault::Unfit(unfit_at(moment, earlier)),
            None => unreachable!(),
        },
        Halt::NoMemory => PlainFault::NoMemory,
    }
}
