//! Whether the fields of a SEQUENCE, or the alternatives of a CHOICE, have different names (X.680 clauses 25 and 29).
//!
//! The names of two blocks at a time are listed on the stack and sorted there, which takes no memory: the same ones are
//! neighbours then. Each pair of blocks is looked at.
ghost use Rattle.std.specs.Prelude.{◌≡◌, ◌≤◌, ◌+◌, ◌++◌, ◌&&◌, length, map};
ghost use Rattle.acn_grammar.specs.Asks.{same_name};
ghost use Rattle.acn_grammar.specs.Leaves.{all_differ};
ghost use Rattle.acn_grammar.specs.Tree as tree;
ghost use Rattle.acn_grammar.specs.View.{field_of, fields_view, alternatives_view};
ghost use Rattle.acn_grammar.specs.Walk.{conditions_of};
ghost use Rattle.acn_well_formed.specs.declared.names.TheConstants.{BLOCK, TWO_BLOCKS};
ghost use Rattle.acn_well_formed.specs.Kept as kept;

use acn_grammar::{Alternative, Field};
use acn_leaf::names_differ;
use arrayvec::ArrayVec;

/// So many fields or alternatives make a block.
const BLOCK: usize = 1024;

/// The names of two blocks are sorted at once: their list takes 32 KiB of the stack.
const TWO_BLOCKS: usize = 2048;

/// So few names are sorted in a list of their own, which takes 512 octets of the stack.
const FEW: usize = 32;

fn field_name(field: &Field) -> &[u8]
    ensures { result.now ≡ kept.name_in (field_of field.now) }
{
    match field {
        Field::Component { name, .. } => name.bytes(),
        Field::Inserted { name, .. } => name.bytes(),
    }
}

// Whether no two fields of both lists together, of which there are `MOST` at most, have one name, by
// their order.
#[inline(never)]
fn listed_fields_differ<'a, const MOST: usize>(front: &'a [Field], behind: &'a [Field]) -> bool
    requires room { length front.now + length behind.now ≤ MOST }
    requires most { MOST ≤ TWO_BLOCKS }
    ensures { result ≡ all_differ same_name (tree.field_names (fields_view front.now) ++ tree.field_names (fields_view behind.now)) }
{
    let mut names: ArrayVec<&[u8], MOST> = ArrayVec::new();
    for field in front {
        names.push(field_name(field));
    }
    for field in behind {
        names.push(field_name(field));
    }
    names_differ(names.as_mut_slice())
}

// Whether no two fields of both lists together have one name.
fn both_fields_differ(front: &[Field], behind: &[Field]) -> bool
    requires front { length front.now ≤ BLOCK }
    requires behind { length behind.now ≤ BLOCK }
    ensures { result ≡ all_differ same_name (tree.field_names (fields_view front.now) ++ tree.field_names (fields_view behind.now)) }
{
    if front.len() + behind.len() <= FEW {
        listed_fields_differ::<FEW>(front, behind)
    } else {
        listed_fields_differ::<TWO_BLOCKS>(front, behind)
    }
}

// Whether the names of a block of fields differ from each other and from those behind it.
fn field_block_differs(block: &[Field], behind: &[Field]) -> bool
    requires { length block.now ≤ BLOCK }
    ensures { all_differ same_name (tree.field_names (fields_view block.now) ++ tree.field_names (fields_view behind.now)) ≡ (result && all_differ same_name (tree.field_names (fields_view behind.now))) }
{
    if !both_fields_differ(block, &[]) {
        return false;
    }
    let mut rest = behind;
    while !rest.is_empty() {
        let (next, more) = rest.split_at(rest.len().min(BLOCK));
        if !both_fields_differ(block, next) {
            return false;
        }
        rest = more;
    }
    true
}

/// Whether no two fields have one name.
pub fn field_names_differ(fields: &[Field]) -> bool
    ensures { result ≡ all_differ same_name (tree.field_names (fields_view fields.now)) }
{
    let mut rest = fields;
    while !rest.is_empty() {
        let (block, behind) = rest.split_at(rest.len().min(BLOCK));
        if !field_block_differs(block, behind) {
            return false;
        }
        rest = behind;
    }
    true
}

// Whether no two alternatives of both lists together, of which there are `MOST` at most, have one
// name, by their order.
#[inline(never)]
fn listed_alternatives_differ<'a, const MOST: usize>(
    front: &'a [Alternative],
    behind: &'a [Alternative],
) -> bool
    requires room { length front.now + length behind.now ≤ MOST }
    requires most { MOST ≤ TWO_BLOCKS }
    ensures { result ≡ all_differ same_name (map (λ c. c.0) (conditions_of (alternatives_view front.now)) ++ map (λ c. c.0) (conditions_of (alternatives_view behind.now))) }
{
    let mut names: ArrayVec<&[u8], MOST> = ArrayVec::new();
    for alternative in front {
        names.push(alternative.name.bytes());
    }
    for alternative in behind {
        names.push(alternative.name.bytes());
    }
    names_differ(names.as_mut_slice())
}

// Whether no two alternatives of both lists together have one name.
fn both_alternatives_differ(front: &[Alternative], behind: &[Alternative]) -> bool
    requires front { length front.now ≤ BLOCK }
    requires behind { length behind.now ≤ BLOCK }
    ensures { result ≡ all_differ same_name (map (λ c. c.0) (conditions_of (alternatives_view front.now)) ++ map (λ c. c.0) (conditions_of (alternatives_view behind.now))) }
{
    if front.len() + behind.len() <= FEW {
        listed_alternatives_differ::<FEW>(front, behind)
    } else {
        listed_alternatives_differ::<TWO_BLOCKS>(front, behind)
    }
}

// Whether the names of a block of alternatives differ from each other and from those behind it.
fn alternative_block_differs(block: &[Alternative], behind: &[Alternative]) -> bool
    requires { length block.now ≤ BLOCK }
    ensures { all_differ same_name (map (λ c. c.0) (conditions_of (alternatives_view block.now)) ++ map (λ c. c.0) (conditions_of (alternatives_view behind.now))) ≡ (result && all_differ same_name (map (λ c. c.0) (conditions_of (alternatives_view behind.now)))) }
{
    if !both_alternatives_differ(block, &[]) {
        return false;
    }
    let mut rest = behind;
    while !rest.is_empty() {
        let (next, more) = rest.split_at(rest.len().min(BLOCK));
        if !both_alternatives_differ(block, next) {
            return false;
        }
        rest = more;
    }
    true
}

/// Whether no two alternatives have one name.
pub fn alternative_names_differ(alternatives: &[Alternative]) -> bool
    ensures { result ≡ all_differ same_name (map (λ c. c.0) (conditions_of (alternatives_view alternatives.now))) }
{
    let mut rest = alternatives;
    while !rest.is_empty() {
        let (block, behind) = rest.split_at(rest.len().min(BLOCK));
        if !alternative_block_differs(block, behind) {
            return false;
        }
        rest = behind;
    }
    true
}
