//! What is asked, as the definitions say it.

ghost use Rattle.std.specs.Prelude.{◌≡◌, ℕ, List, pos, nat_eq};
ghost use Rattle.acn_grammar.specs.Asks as asks;
ghost use Rattle.acn_grammar.specs.Faults.{ask_of};
ghost use Rattle.acn_grammar.specs.Length.{number_of};
ghost use Rattle.acn_grammar.specs.View.{data_of};
ghost use Rattle.acn_asking.specs.Wanted.{test_wants, slot_of_test};

use acn_grammar::{Ask, Test, Value};
use acn_num::Name;

fn equal(n: &i128) -> Ask
    ensures { ask_of result ≡ asks.Equal n.now }
{
    let n = *n;
    Ask::Equal(n)
}

fn avoid(k: &i128) -> Ask
    ensures { ask_of result ≡ asks.Avoid k.now }
{
    let k = *k;
    Ask::Avoid(k)
}

/// That the number is this size.
pub fn size_wanted(n: u64) -> Ask
    ensures { ask_of result ≡ asks.Equal (pos n) }
{
    Ask::Equal(i128::from(n))
}

/// That the number is that of the value.
pub fn own_wanted(v: &Value) -> Ask
    ensures { ask_of result ≡ asks.Equal (number_of (data_of v.now)) }
{
    Ask::Equal(v.number())
}

/// What a condition asks of its slot, where what it stands at is there or not.
pub fn test_wanted(test: &Test, there: bool) -> Ask
    ensures { ask_of result ≡ test_wants there test.now }
{
    match test {
        Test::Flag(_) => { if there { Ask::Equal(1) } else { Ask::Equal(0) } }
        Test::Equals(_, k) => { if there { equal(k) } else { avoid(k) } }
    }
}

/// The slot of a condition.
pub fn tested_slot(test: &Test) -> u32
    ensures { result ≡ slot_of_test test.now }
{
    match test {
        Test::Flag(slot) => *slot,
        Test::Equals(slot, _) => *slot,
    }
}

fn are_same(a: &[u8], b: &[u8]) -> bool
    ensures { result ≡ asks.same_name a.now b.now }
{
    a == b
}

/// The place of the first item of a name; where there is none, how many there are.
pub fn item_place(name: &[u8], items: &[(Name, i128)]) -> u64
    ensures { result ≡ asks.index_of (asks.same_name name.now) items.now }
{
    let mut place = 0u64;
    for item in items {
        if are_same(name, item.0.bytes()) {
            return place;
        }
        place += 1;
    }
    place
}
