//! The heads of list types, which are read one behind the other.

ghost use Rattle.std.specs.Prelude.{◌≡◌, [], ◌∷◌, IfOk};
ghost use Rattle.acn_asn_types.specs.Types as spec;

use acn_asn_syntax::{AsnBase, AsnType, Constraint, Tag};
use acn_num::{Boxed, NoMemory, Row};
use std::alloc::Global;

/// What stands before the type of a list's elements.
#[derive(Drop)]
pub struct ListHead {
    /// The tag of the list.
    pub tag: Option<Tag>,
    /// The constraint between `SEQUENCE` and `OF`.
    pub constraint: Boxed<Option<Constraint>>,
}

/// What one step of reading a type gives.
#[derive(Drop)]
pub enum Step {
    /// The head of a list type, whose element is read next.
    Head(ListHead),
    /// A type that is no list.
    Inner(AsnType),
}

/// A row of one item.
pub fn row_of<T: Drop>(alloc: Global, first: T) -> Result<Row<T>, NoMemory>
    ensures { IfOk result (λ row. row ≡ first ∷ []) }
{
    let mut row = Row::new(alloc);
    row.push(first)?;
    Ok(row)
}

#[tactic(auto, unfolding(crate::specs::Types::typed))]
pub fn typed(tag: Option<Tag>, base: AsnBase, constraints: Row<Constraint>) -> AsnType
    ensures { result ≡ spec.typed tag base constraints }
{
    AsnType {
        tag,
        base,
        constraints,
    }
}

#[tactic(auto, unfolding(crate::specs::Types::list_type))]
fn list_type(alloc: Global, head: ListHead, of: AsnType) -> Result<AsnType, NoMemory>
    ensures { IfOk result (λ t. t ≡ spec.list_type head of) }
{
    let of = Boxed::new(alloc, of)?;
    Ok(typed(
        head.tag,
        AsnBase::SequenceOf(head.constraint.into_inner(), of),
        Row::new(alloc),
    ))
}

/// The type whose heads these are, the outermost first.
pub fn wrap(alloc: Global, heads: Row<ListHead>, inner: AsnType) -> Result<AsnType, NoMemory>
    ensures { IfOk result (λ t. t ≡ spec.wrap heads inner) }
{
    let mut heads = heads.into_vec();
    let mut of = inner;
    while let Some(head) = heads.pop() {
        of = list_type(alloc, head, of)?;
    }
    Ok(of)
}
