ghost use Rattle.std.specs.Prelude.{◌≡◌, ◌++◌, ◌∷◌, [], List, ℤ, IfErr, OnErr, OnOk, MatchOption};
ghost use Rattle.std.specs.Ordering.{int_eq};
ghost use Rattle.acn_num.specs.Ranges.{In, has, among as is_one_of};
ghost use Rattle.acn_grammar.specs.Asks.{Ask as Wanted, Equal, Avoid};
ghost use Rattle.acn_grammar.specs.AsksOn.{LeastAnswer};
ghost use Rattle.acn_grammar.specs.Faults.{ask_of};
ghost use Rattle.acn_asks.specs.Kept.{Keeps, Refuses};

use acn_grammar::Ask;
use acn_num::RangeSet;
use std::alloc::Global;

/// What was asked so far of the number of one slot, in one occurrence of the slot's home, and the least permitted number
/// that meets it. The permitted numbers are handed in with each ask; they are those of the slot. (This profile's own.)
#[derive(Drop)]
pub struct Asked {
    // The least permitted number that meets all that was asked.
    least: i128,
    // Whether an ask wants this number and no other.
    fixed: bool,
    // The numbers to avoid, each once: those that were asked while nothing was fixed.
    avoided: Vec<i128>,
}

/// Why an ask isn't added.
#[derive(Clone, Copy)]
pub enum Unmet {
    /// No permitted number meets it and all that was asked before. `earlier` is the `Equal` before it that contradicts it,
    /// else the `Avoid` that does.
    Conflict { earlier: Option<Ask> },
    /// Memory is wanting.
    NoMemory,
}

fn is_same(x: &i128, y: &i128) -> bool
    ensures { result ≡ int_eq x.now y.now }
{
    *x == *y
}

// Whether the number is one of these.
fn among(x: &i128, others: &[i128]) -> bool
    ensures { result ≡ is_one_of others.now x.now }
{
    for other in others {
        if *other <= *x && *x <= *other {
            return true;
        }
    }
    false
}

fn is_permitted(set: &RangeSet, x: &i128) -> bool
    ensures { result ≡ has set.now x.now }
{
    let x = *x;
    set.holds(x)
}

fn equal(n: &i128) -> Ask
    ensures { ask_of result ≡ Equal n.now }
{
    let n = *n;
    Ask::Equal(n)
}

fn avoid(k: &i128) -> Ask
    ensures { ask_of result ≡ Avoid k.now }
{
    let k = *k;
    Ask::Avoid(k)
}

impl Asked {
    /// Nothing is asked yet. None comes exactly where no number is permitted. It takes no memory.
    pub fn new(alloc: Global, set: &RangeSet) -> Option<Asked>
        ensures { MatchOption result ((x : ℤ) → In set.now x → ⊥) (λ asked. Keeps set.now [] asked) }
    {
        match set.least_except(&[]) {
            None => None,
            Some(least) => Some(Asked {
                least,
                fixed: false,
                avoided: Vec::new(alloc),
            }),
        }
    }

    /// The least permitted number that meets all that was asked. It takes no memory.
    pub fn least(&self) -> i128
        ensures { (set : List (ℤ × ℤ)) (wanted : List Wanted) → Keeps set wanted self.now → LeastAnswer set wanted result }
    {
        self.least
    }

    /// Adds an ask, behind those that were asked before. `Conflict` comes exactly where no permitted number meets it and
    /// them. After an `Err` the asks before it are kept as they were.
    pub fn add(&mut self, set: &RangeSet, wanted: &Ask) -> Result<(), Unmet>
        ensures kept { OnOk result ((before : List Wanted) → Keeps set.now before self.old → Keeps set.now (before ++ ask_of wanted.now ∷ []) self.new) }
        ensures refused { IfErr result (λ unmet. Refuses set.now self.old (ask_of wanted.now) unmet) }
        ensures unchanged { OnErr result ((before : List Wanted) → Keeps set.now before self.old → Keeps set.now before self.new) }
    {
        match wanted {
            Ask::Equal(n) => self.add_equal(set, n),
            Ask::Avoid(k) => self.add_avoid(set, k),
        }
    }

    // The number is to be this one.
    fn add_equal(&mut self, set: &RangeSet, n: &i128) -> Result<(), Unmet>
        ensures kept { OnOk result ((before : List Wanted) → Keeps set.now before self.old → Keeps set.now (before ++ Equal n.now ∷ []) self.new) }
        ensures refused { IfErr result (λ unmet. Refuses set.now self.old (Equal n.now) unmet) }
        ensures unchanged { OnErr result ((before : List Wanted) → Keeps set.now before self.old → Keeps set.now before self.new) }
    {
        if self.fixed {
            if is_same(&self.least, n) {
                return Ok(());
            }
            return Err(Unmet::Conflict {
                earlier: Some(equal(&self.least)),
            });
        }
        if among(n, &self.avoided) {
            return Err(Unmet::Conflict {
                earlier: Some(avoid(n)),
            });
        }
        if !is_permitted(set, n) {
            return Err(Unmet::Conflict { earlier: None });
        }
        let n = *n;
        self.least = n;
        self.fixed = true;
        Ok(())
    }

    // The number is to be another than this one.
    fn add_avoid(&mut self, set: &RangeSet, k: &i128) -> Result<(), Unmet>
        ensures kept { OnOk result ((before : List Wanted) → Keeps set.now before self.old → Keeps set.now (before ++ Avoid k.now ∷ []) self.new) }
        ensures refused { IfErr result (λ unmet. Refuses set.now self.old (Avoid k.now) unmet) }
        ensures unchanged { OnErr result ((before : List Wanted) → Keeps set.now before self.old → Keeps set.now before self.new) }
    {
        if self.fixed {
            if is_same(&self.least, k) {
                return Err(Unmet::Conflict {
                    earlier: Some(equal(&self.least)),
                });
            }
            return Ok(());
        }
        if among(k, &self.avoided) {
            return Ok(());
        }
        let count = self.avoided.len();
        match self.avoided.push(*k) {
            Ok(()) => {}
            Err(_) => return Err(Unmet::NoMemory),
        }
        if !is_same(&self.least, k) {
            return Ok(());
        }
        match set.least_except(&self.avoided) {
            Some(least) => {
                self.least = least;
                Ok(())
            }
            None => {
                self.avoided.truncate(count);
                Err(Unmet::Conflict { earlier: None })
            }
        }
    }
}
