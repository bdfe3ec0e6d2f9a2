//! What is kept of one slot. (This profile's own.)

ghost use Rattle.std.specs.Prelude.{◌≡◌, ◌<◌, ◌≤◌, ◌∷◌, ◌++◌, [], List, ℤ, length, Option, Some, None, IfOk, IfErr, MatchOption, is_some, option_map, true, slice_set, take, ◌-◌};
ghost use Rattle.arrayvec.specs.ArrayVec.{array_vec_len};
ghost use Rattle.std.specs.Ordering.{int_eq};
ghost use Rattle.acn_num.specs.Ranges.{In, has, among, IsLeastExcept};
ghost use Rattle.acn_grammar.specs.Asks.{Ask as Wanted, Equal, Avoid};
ghost use Rattle.acn_grammar.specs.Faults.{ask_of};
ghost use Rattle.acn_asks.specs.Kept.{Contradicted};
ghost use Rattle.acn_fill.specs.declared.spot.TheConstants.{MOST_AVOIDED};
ghost use Rattle.acn_fill.specs.Table.{KeepsIn, avoided_on, set_of};

use acn_grammar::Ask;
use acn_num::RangeSet;
use arrayvec::ArrayVec;

/// At most so many different numbers are to be avoided on one slot: no more conditions than these compare it with a number.
pub const MOST_AVOIDED: usize = 64;

/// At most so many numbers are to be avoided on all slots that can be open at once.
pub const MOST_AVOIDED_IN_ALL: usize = 16_384;

/// A slot, and the least permitted number that meets what was asked of it. The set is that of a slot with a hole.
#[derive(Clone, Copy, Default)]
pub struct Spot<'p> {
    pub slot: u32,
    pub set: Option<&'p RangeSet>,
    pub least: i128,
    // Whether an ask wants this number and no other.
    pub fixed: bool,
}

pub fn is_same(x: &i128, y: &i128) -> bool
    ensures { result ≡ int_eq x.now y.now }
{
    *x == *y
}

pub fn equal(n: &i128) -> Ask
    ensures { ask_of result ≡ Equal n.now }
{
    let n = *n;
    Ask::Equal(n)
}

pub fn avoid(k: &i128) -> Ask
    ensures { ask_of result ≡ Avoid k.now }
{
    let k = *k;
    Ask::Avoid(k)
}

fn is_permitted(set: Option<&RangeSet>, x: &i128) -> bool
    ensures { result ≡ has (set_of set.entry) x.now }
{
    match set {
        Some(set) => {
            let x = *x;
            set.holds(x)
        }
        None => false,
    }
}

/// Whether a number is to be avoided on a slot.
pub fn is_avoided(pool: &[(u32, i128)], slot: u32, x: &i128) -> bool
    ensures { result ≡ among (avoided_on slot pool.now) x.now }
{
    for entry in pool {
        if entry.0 == slot {
            if entry.1 <= *x && *x <= entry.1 {
                return true;
            }
        }
    }
    false
}

/// How many numbers are to be avoided on a slot.
pub fn count_avoided(pool: &[(u32, i128)], slot: u32) -> usize
    ensures { result ≡ length (avoided_on slot pool.now) }
{
    let mut count = 0;
    for entry in pool {
        if entry.0 == slot {
            count += 1;
        }
    }
    count
}

/// The numbers to avoid on a slot.
pub fn list_avoided(pool: &[(u32, i128)], slot: u32, all: &mut ArrayVec<i128, MOST_AVOIDED>)
    requires none { all.old.items ≡ [] }
    requires few { length (avoided_on slot pool.now) ≤ MOST_AVOIDED }
    ensures { all.new.items ≡ avoided_on slot pool.now }
{
    for entry in pool {
        if entry.0 == slot {
            let x = entry.1;
            all.push(x);
        }
    }
}

/// The least permitted number that isn't to be avoided.
#[inline(never)]
pub fn least_free(set: Option<&RangeSet>, pool: &[(u32, i128)], slot: u32) -> Option<i128>
    requires few { length (avoided_on slot pool.now) ≤ MOST_AVOIDED }
    ensures { MatchOption result ((x : ℤ) → has (set_of set.entry) x ≡ true → among (avoided_on slot pool.now) x ≡ true) (λ x. IsLeastExcept (set_of set.entry) (avoided_on slot pool.now) x) }
{
    match set {
        None => None,
        Some(set) => {
            let mut all = ArrayVec::new();
            list_avoided(pool, slot, &mut all);
            set.least_except(all.as_slice())
        }
    }
}

/// A spot of which the number is asked.
pub fn with_number<'p>(spot: &Spot<'p>, n: &i128) -> Spot<'p>
    ensures { result ≡ record spot.now { least = n.now; fixed = true } }
{
    let n = *n;
    Spot {
        slot: spot.slot,
        set: spot.set,
        least: n,
        fixed: true,
    }
}

/// A spot with another least number.
pub fn with_least<'p>(spot: &Spot<'p>, n: &i128) -> Spot<'p>
    ensures { result ≡ record spot.now { least = n.now } }
{
    let n = *n;
    Spot {
        slot: spot.slot,
        set: spot.set,
        least: n,
        fixed: spot.fixed,
    }
}

/// A spot with a number of its own, which is asked.
pub fn fixed_spot<'p>(slot: u32, n: &i128) -> Spot<'p>
    ensures { result ≡ record { slot = slot; set = None; least = n.now; fixed = true } }
{
    let n = *n;
    Spot {
        slot,
        set: None,
        least: n,
        fixed: true,
    }
}

/// A spot of which nothing is asked.
pub fn first_spot<'p>(slot: u32, set: &'p RangeSet) -> Spot<'p>
    requires { (x : ℤ) × In set.now x }
    ensures slot { result.slot ≡ slot }
    ensures hole { is_some result.set ≡ true }
    ensures kept { KeepsIn set.now [] result [] }
{
    match set.least_except(&[]) {
        Some(least) => Spot {
            slot,
            set: Some(set),
            least,
            fixed: false,
        },
        None => unreachable!(),
    }
}

/// Whether a slot was begun with a hole.
pub fn has_set(spot: &Spot<'_>) -> bool
    ensures { result ≡ is_some spot.now.set }
{
    match spot.set {
        Some(_) => true,
        None => false,
    }
}

/// Puts a spot in the place of another.
pub fn put_spot<'p, const S: usize>(spots: &mut ArrayVec<Spot<'p>, S>, i: usize, spot: Spot<'p>)
    requires { i < array_vec_len spots.old }
    ensures { spots.new.items ≡ slice_set spots.old.items i spot.entry }
{
    spots[i] = spot;
}

/// Adds a number that is to be avoided on a slot.
pub fn push_avoided<const A: usize>(pool: &mut ArrayVec<(u32, i128), A>, slot: u32, k: &i128)
    requires { array_vec_len pool.old < A }
    ensures { pool.new.items ≡ pool.old.items ++ (slot, k.now) ∷ [] }
{
    let k = *k;
    pool.push((slot, k));
}

/// Takes the last number away.
pub fn pop_avoided<const A: usize>(pool: &mut ArrayVec<(u32, i128), A>)
    requires { 0 < array_vec_len pool.old }
    ensures { pool.new.items ≡ take (array_vec_len pool.old - 1) pool.old.items }
{
    let _last = pool.pop();
}

/// A spot that is asked to be a number, or the ask before it that contradicts this.
pub fn equal_on<'p>(
    spot: &Spot<'p>,
    pool: &[(u32, i128)],
    n: &i128,
) -> Result<Spot<'p>, Option<Ask>>
    ensures kept { IfOk result (λ new. (set : List (ℤ × ℤ)) (before : List Wanted) → KeepsIn set before spot.now (avoided_on spot.now.slot pool.now) → KeepsIn set (before ++ Equal n.now ∷ []) new (avoided_on spot.now.slot pool.now)) }
    ensures slot { IfOk result (λ new. new.slot ≡ spot.now.slot) }
    ensures set { IfOk result (λ new. is_some new.set ≡ is_some spot.now.set) }
    ensures refused { IfErr result (λ earlier. (set : List (ℤ × ℤ)) (before : List Wanted) → KeepsIn set before spot.now (avoided_on spot.now.slot pool.now) → Contradicted set before (Equal n.now) (option_map ask_of earlier)) }
{
    if spot.fixed {
        if is_same(&spot.least, n) {
            return Ok(*spot);
        }
        return Err(Some(equal(&spot.least)));
    }
    if is_avoided(pool, spot.slot, n) {
        return Err(Some(avoid(n)));
    }
    if !is_permitted(spot.set, n) {
        return Err(None);
    }
    Ok(with_number(spot, n))
}
