ghost use Rattle.std.specs.Prelude.{◌≡◌, None};
ghost use Rattle.acn_asn_syntax.specs.Mirror as plain;
ghost use Rattle.acn_asn_syntax.specs.View.{type_view};
ghost use Rattle.acn_asn_syntax.specs.declared.types.AsnBase.TheVariants as base;
ghost use Rattle.acn_slots.specs.Slots as spec;
ghost use Rattle.acn_slots.specs.Bare.{bare};

use acn_asn_syntax::{AsnBase, AsnType};
use acn_num::Row;
use std::alloc::Global;

/// The types of inserted fields that name none.
#[derive(Drop)]
pub struct PlainTypes {
    integer: AsnType,
    boolean: AsnType,
    null: AsnType,
    pub ghost integers: { integer ≡ bare (base.Integer None) },
    pub ghost booleans: { boolean ≡ bare base.Boolean },
    pub ghost nulls: { null ≡ bare base.Null },
}

// A type without tag and constraints.
fn plain_type(alloc: Global, base: AsnBase) -> AsnType
    ensures { result ≡ bare base }
{
    AsnType {
        tag: None,
        base,
        constraints: Row::new(alloc),
    }
}

impl PlainTypes {
    /// It takes no memory.
    pub fn new(alloc: Global) -> PlainTypes {
        let integer = plain_type(alloc, AsnBase::Integer(None));
        let boolean = plain_type(alloc, AsnBase::Boolean);
        let null = plain_type(alloc, AsnBase::Null);
        PlainTypes {
            integer,
            boolean,
            null,
        }
    }

    /// `INTEGER`.
    #[tactic(auto, using(acn_asn_syntax::proofs::Views::view_type, acn_asn_syntax::proofs::Views::view_Integer))]
    pub fn integer(&self) -> &AsnType
        ensures { type_view result.now ≡ spec.plain_type (plain.integer None) }
    {
        &self.integer
    }

    /// `BOOLEAN`.
    #[tactic(auto, using(acn_asn_syntax::proofs::Views::view_type, acn_asn_syntax::proofs::Views::view_Boolean))]
    pub fn boolean(&self) -> &AsnType
        ensures { type_view result.now ≡ spec.plain_type plain.boolean }
    {
        &self.boolean
    }

    /// `NULL`.
    #[tactic(auto, using(acn_asn_syntax::proofs::Views::view_type, acn_asn_syntax::proofs::Views::view_Null))]
    pub fn null(&self) -> &AsnType
        ensures { type_view result.now ≡ spec.plain_type plain.null }
    {
        &self.null
    }
}
