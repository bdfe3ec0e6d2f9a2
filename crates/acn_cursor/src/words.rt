//! Identifiers and references.

ghost use Rattle.std.specs.Prelude.{◌≡◌, IfErr};
ghost use Rattle.acn_lex.specs.Words as words;
ghost use Rattle.acn_cursor.specs.Steps.{Reads, word};

use crate::{Cursor, Stop};
use acn_lex::{Kind, is_identifier, is_reference};
use acn_num::Name;
use std::alloc::Global;

/// Takes the next token, which has to be an identifier.
#[tactic(auto, unfolding(crate::specs::Steps::word))]
pub fn identifier(alloc: Global, cursor: &mut Cursor<'_>) -> Result<Name, Stop>
    ensures read { Reads (word words.is_identifier cursor.old) result cursor.new }
    ensures kept { IfErr result (λ _. cursor.new ≡ cursor.old) }
{
    match cursor.text_of(Kind::Word) {
        None => Err(cursor.refuse()),
        Some(text) => {
            if is_identifier(text) {
                let name = Name::copy(alloc, text)?;
                cursor.skip();
                Ok(name)
            } else {
                Err(cursor.refuse())
            }
        }
    }
}

/// Takes the next token, which has to be a reference.
#[tactic(auto, unfolding(crate::specs::Steps::word))]
pub fn reference(alloc: Global, cursor: &mut Cursor<'_>) -> Result<Name, Stop>
    ensures read { Reads (word words.is_reference cursor.old) result cursor.new }
    ensures kept { IfErr result (λ _. cursor.new ≡ cursor.old) }
{
    match cursor.text_of(Kind::Word) {
        None => Err(cursor.refuse()),
        Some(text) => {
            if is_reference(text) {
                let name = Name::copy(alloc, text)?;
                cursor.skip();
                Ok(name)
            } else {
                Err(cursor.refuse())
            }
        }
    }
}
