//! The texts of the paths of sites.

ghost use Rattle.std.specs.Prelude.{◌≡◌, ◌++◌, ◌∷◌, [], codes, IfOk, OnOk};
ghost use Rattle.acn_sites.specs.Sites as spec;
ghost use Rattle.acn_sites.specs.View.{position_view};

use acn_num::NoMemory;
use acn_sites::Position;
use std::alloc::Global;

// Adds a name behind a full stop.
fn push_name(name: &[u8], text: &mut Vec<u8>) -> Result<(), NoMemory>
    ensures { OnOk result (text.new.items ≡ text.old.items ++ (codes "." ++ name.now)) }
{
    text.push(b'.')?;
    text.extend_from_slice(name)?;
    Ok(())
}

// Adds what a node adds to the text of the node above it.
fn push_mark(position: &Position<'_>, text: &mut Vec<u8>) -> Result<(), NoMemory>
    ensures { OnOk result (text.new.items ≡ text.old.items ++ spec.mark (position_view position.now)) }
{
    match position {
        Position::Root { owner, name } => {
            text.extend_from_slice(owner.bytes())?;
            push_name(name.bytes(), text)
        }
        Position::Component { name, .. } => push_name(name.bytes(), text),
        Position::Inserted { name, .. } => push_name(name.bytes(), text),
        Position::Alternative { name } => push_name(name.bytes(), text),
        Position::Element => {
            text.extend_from_slice(b"[0]")?;
            Ok(())
        }
        Position::Content => {
            text.extend_from_slice(b"()")?;
            Ok(())
        }
    }
}

/// The text of a node below one with this text.
pub fn text_below(alloc: Global, above: &[u8], position: &Position<'_>) -> Result<Vec<u8>, NoMemory>
    ensures { IfOk result (λ text. text.items ≡ above.now ++ spec.mark (position_view position.now)) }
{
    let mut text = Vec::from_slice(alloc, above)?;
    push_mark(position, &mut text)?;
    Ok(text)
}
