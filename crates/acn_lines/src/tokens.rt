//! The tokens that may come next in a line.

ghost use Rattle.std.specs.Prelude.{◌≡◌, ◌∷◌, IfSome, OnSome, IsTrue, IsFalse, option_map};
ghost use Rattle.json.specs.Token as word;
ghost use Rattle.acn_lines.specs.Taken.{key_or_end};

use json::{Reader, Token};

/// Takes a string.
pub fn take_text<'a>(reader: &mut Reader<'a>) -> Option<&'a str>
    ensures { IfSome result (λ text. reader.old ≡ word.string text.now ∷ reader.new) }
{
    let token = reader.next()?;
    match token {
        Token::String(text) => Some(text),
        _ => None,
    }
}

/// Takes the text of a number.
pub fn take_digits<'a>(reader: &mut Reader<'a>) -> Option<&'a str>
    ensures { IfSome result (λ text. reader.old ≡ word.number text.now ∷ reader.new) }
{
    let token = reader.next()?;
    match token {
        Token::Number(text) => Some(text),
        _ => None,
    }
}

/// Takes `true` or `false`.
pub fn take_bool(reader: &mut Reader<'_>) -> Option<bool>
    ensures { IfSome result (λ truth. reader.old ≡ word.boolean truth ∷ reader.new) }
{
    let token = reader.next()?;
    match token {
        Token::Bool(truth) => Some(truth),
        _ => None,
    }
}

/// Takes `null`.
pub fn take_nothing(reader: &mut Reader<'_>) -> Option<()>
    ensures { OnSome result (reader.old ≡ word.null ∷ reader.new) }
{
    let token = reader.next()?;
    match token {
        Token::Null => Some(()),
        _ => None,
    }
}

/// Takes the brace that opens an object.
pub fn open_object(reader: &mut Reader<'_>) -> Option<()>
    ensures { OnSome result (reader.old ≡ word.begin_object ∷ reader.new) }
{
    let token = reader.next()?;
    match token {
        Token::BeginObject => Some(()),
        _ => None,
    }
}

/// Takes the bracket that opens an array.
pub fn open_array(reader: &mut Reader<'_>) -> Option<()>
    ensures { OnSome result (reader.old ≡ word.begin_array ∷ reader.new) }
{
    let token = reader.next()?;
    match token {
        Token::BeginArray => Some(()),
        _ => None,
    }
}

/// Takes the key of a member, or the brace behind the last.
pub fn take_key<'a>(reader: &mut Reader<'a>) -> Option<Option<&'a str>>
    ensures { IfSome result (λ name. reader.old ≡ key_or_end (option_map (λ text. text.now) name) ∷ reader.new) }
{
    let token = reader.next()?;
    match token {
        Token::Key(name) => Some(Some(name)),
        Token::EndObject => Some(None),
        _ => None,
    }
}

/// Takes the bracket that closes an array, if it comes next.
pub fn close_array(reader: &mut Reader<'_>) -> bool
    ensures closed { IsTrue result → reader.old ≡ word.end_array ∷ reader.new }
    ensures other { IsFalse result → reader.new ≡ reader.old }
{
    reader.take_end_array()
}
