//! The call.

ghost use Rattle.std.specs.Prelude.{◌≡◌, [], map, IfOk};
ghost use Rattle.acn_grammar.specs.Asks as asks;
ghost use Rattle.acn_grammar.specs.View.{data_of, grammar_of};
ghost use Rattle.acn_asking.specs.Gathered.{with_numbers, with_domain};
ghost use Rattle.acn_asks.specs.Moments.{moment_of};
ghost use Rattle.acn_gather_laws.specs.CanGather.{CanGather};

use crate::walk::gather;
use acn_asks::Moment;
use acn_grammar::{Node, Value};
use acn_num::{NoMemory, Path, Row};
use std::alloc::Global;

/// The moments of a value, in the order of the walk: what each part of it asks of the numbers of the slots round it, and the
/// octets that its contents take. The node is the root of a tree. `NoMemory` comes where memory runs out.
pub fn moments<'t>(alloc: Global, root: &'t Node, v: &Value) -> Result<Row<Moment<'t>>, NoMemory>
    requires { CanGather (grammar_of root.now) 0 [] (grammar_of root.now) (data_of v.now) }
    ensures said { IfOk result (λ ms. map moment_of ms ≡ asks.moments (grammar_of root.now) (grammar_of root.now) [] [] (data_of v.now)) }
    ensures numbers { IfOk result (λ ms. map with_numbers ms ≡ map (with_domain (grammar_of root.now)) (asks.moments (grammar_of root.now) (grammar_of root.now) [] [] (data_of v.now))) }
{
    let none = Row::new(alloc);
    let mut path = Path::new();
    let mut gathered = Row::new(alloc);
    gather(alloc, root, v, root, none.items(), &mut path, &mut gathered)?;
    Ok(gathered)
}
