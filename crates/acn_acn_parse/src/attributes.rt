//! Paths, conditions and attributes.

ghost use Rattle.std.specs.Prelude.{◌≡◌, ◌∷◌, IfOk, IfErr};
ghost use Rattle.acn_cursor.specs.Steps.{Reads, many, word, ReadsFreely};
ghost use Rattle.acn_acn_syntax.specs.ModuleTokens.{is_acn_identifier};
ghost use Rattle.acn_lex.specs.declared.Kind.TheVariants.{Word, Number, Bits, Hex};
ghost use Rattle.acn_acn_parse.specs.AttributeReading as spec;
ghost use Rattle.acn_acn_parse.specs.declared.words.Attribute.TheVariants as words;

use crate::maps::signed;
use crate::words::{Attribute, acn_identifier, alignment, attribute_name, encoding, endianness};
use acn_acn_syntax::{AcnPath, Attr, Condition, Literal, Signed, SizeAttr};
use acn_cursor::{Cursor, Stop};
use acn_lex::Kind;
use acn_num::{Boxed, Name, NoMemory, Row};
use std::alloc::Global;

/// The first item and those behind it.
pub fn with_first<T: Drop>(alloc: Global, first: T, more: Row<T>) -> Result<Row<T>, NoMemory>
    ensures { IfOk result (λ all. all ≡ first ∷ more) }
{
    let mut all = Vec::new(alloc);
    all.push(first)?;
    all.append(&mut more.into_vec())?;
    Ok(Row::from_vec(all))
}

fn has_stop(cursor: &Cursor<'_>) -> bool
    ensures { result ≡ spec.has_stop cursor.now }
{
    cursor.sees(Kind::Mark, b".")
}

#[tactic(auto, unfolding(crate::specs::AttributeReading::next_name))]
fn next_name(alloc: Global, cursor: &mut Cursor<'_>) -> Result<Name, Stop>
    ensures { Reads (spec.next_name cursor.old) result cursor.new }
{
    cursor.expect(Kind::Mark, b".")?;
    acn_identifier(alloc, cursor)
}

fn more_names(alloc: Global, cursor: &mut Cursor<'_>) -> Result<Row<Name>, Stop>
    ensures { Reads (many spec.has_stop spec.next_name cursor.old) result cursor.new }
{
    let mut names = Row::new(alloc);
    for _ in 0..cursor.left() {
        if !has_stop(cursor) {
            return Ok(names);
        }
        let name = next_name(alloc, cursor)?;
        names.push(name)?;
    }
    Ok(names)
}

/// Takes a path.
#[tactic(auto, unfolding(crate::specs::AttributeReading::path))]
pub fn path(alloc: Global, cursor: &mut Cursor<'_>) -> Result<AcnPath, Stop>
    ensures { Reads (spec.path cursor.old) result cursor.new }
{
    let first = acn_identifier(alloc, cursor)?;
    let more = more_names(alloc, cursor)?;
    let names = with_first(alloc, first, more)?;
    Ok(AcnPath { names })
}

#[tactic(auto, unfolding(crate::specs::AttributeReading::equals))]
fn equals(cursor: &mut Cursor<'_>) -> Result<Option<Signed>, Stop>
    ensures { ReadsFreely (spec.equals cursor.old) result cursor.new }
{
    if cursor.eat(Kind::Mark, b"==") {
        Ok(Some(signed(cursor)?))
    } else {
        Ok(None)
    }
}

#[tactic(auto, unfolding(crate::specs::AttributeReading::condition))]
fn condition(alloc: Global, cursor: &mut Cursor<'_>) -> Result<Condition, Stop>
    ensures { Reads (spec.condition cursor.old) result cursor.new }
{
    let path = path(alloc, cursor)?;
    let equals = equals(cursor)?;
    Ok(Condition { path, equals })
}

fn has_word(cursor: &Cursor<'_>) -> bool
    ensures { result ≡ spec.has_kind Word cursor.now }
{
    cursor.text_of(Kind::Word).is_some()
}

fn more_conditions(alloc: Global, cursor: &mut Cursor<'_>) -> Result<Row<Condition>, Stop>
    ensures { Reads (many (spec.has_kind Word) spec.condition cursor.old) result cursor.new }
{
    let mut conditions = Row::new(alloc);
    for _ in 0..cursor.left() {
        if !has_word(cursor) {
            return Ok(conditions);
        }
        let condition = condition(alloc, cursor)?;
        conditions.push(condition)?;
    }
    Ok(conditions)
}

#[tactic(auto, unfolding(crate::specs::AttributeReading::conditions))]
fn conditions(alloc: Global, cursor: &mut Cursor<'_>) -> Result<Row<Condition>, Stop>
    ensures { Reads (spec.conditions cursor.old) result cursor.new }
{
    let first = condition(alloc, cursor)?;
    let more = more_conditions(alloc, cursor)?;
    Ok(with_first(alloc, first, more)?)
}

fn has_number(cursor: &Cursor<'_>) -> bool
    ensures { result ≡ spec.has_kind Number cursor.now }
{
    cursor.text_of(Kind::Number).is_some()
}

#[tactic(auto, unfolding(crate::specs::AttributeReading::word_size))]
fn word_size(alloc: Global, cursor: &mut Cursor<'_>) -> Result<SizeAttr, Stop>
    ensures { Reads (spec.word_size cursor.old) result cursor.new }
{
    if cursor.eat(Kind::Word, b"null-terminated") {
        Ok(SizeAttr::NullTerminated)
    } else {
        Ok(SizeAttr::Path(path(alloc, cursor)?))
    }
}

#[tactic(auto, unfolding(crate::specs::AttributeReading::size_of))]
fn size(alloc: Global, cursor: &mut Cursor<'_>) -> Result<SizeAttr, Stop>
    ensures { Reads (spec.size_of cursor.old) result cursor.new }
{
    if has_number(cursor) {
        Ok(SizeAttr::Number(cursor.number()?))
    } else {
        word_size(alloc, cursor)
    }
}

#[tactic(auto, unfolding(crate::specs::AttributeReading::literal_of))]
fn literal(alloc: Global, cursor: &mut Cursor<'_>) -> Result<Literal, Stop>
    ensures read { Reads (spec.literal_of cursor.old) result cursor.new }
    ensures kept { IfErr result (λ _. cursor.new ≡ cursor.old) }
{
    match cursor.text_of(Kind::Bits) {
        Some(text) => {
            let name = Name::copy(alloc, text)?;
            cursor.skip();
            Ok(Literal::Bits(name))
        }
        None => match cursor.text_of(Kind::Hex) {
            Some(text) => {
                let name = Name::copy(alloc, text)?;
                cursor.skip();
                Ok(Literal::Hex(name))
            }
            None => Err(cursor.refuse()),
        },
    }
}

// What stands behind the word of an attribute.

fn size_attribute(alloc: Global, cursor: &mut Cursor<'_>) -> Result<Attr, Stop>
    ensures { Reads (spec.attribute_by words.Size cursor.old) result cursor.new }
{
    Ok(Attr::Size(size(alloc, cursor)?))
}

fn encoding_attribute(cursor: &mut Cursor<'_>) -> Result<Attr, Stop>
    ensures { ReadsFreely (spec.attribute_by words.Encoding cursor.old) result cursor.new }
{
    Ok(Attr::Encoding(encoding(cursor)?))
}

fn endianness_attribute(cursor: &mut Cursor<'_>) -> Result<Attr, Stop>
    ensures { ReadsFreely (spec.attribute_by words.Endianness cursor.old) result cursor.new }
{
    Ok(Attr::Endianness(endianness(cursor)?))
}

fn alignment_attribute(cursor: &mut Cursor<'_>) -> Result<Attr, Stop>
    ensures { ReadsFreely (spec.attribute_by words.AlignToNext cursor.old) result cursor.new }
{
    Ok(Attr::AlignToNext(alignment(cursor)?))
}

fn true_value_attribute(alloc: Global, cursor: &mut Cursor<'_>) -> Result<Attr, Stop>
    ensures { Reads (spec.attribute_by words.TrueValue cursor.old) result cursor.new }
{
    Ok(Attr::TrueValue(literal(alloc, cursor)?))
}

fn false_value_attribute(alloc: Global, cursor: &mut Cursor<'_>) -> Result<Attr, Stop>
    ensures { Reads (spec.attribute_by words.FalseValue cursor.old) result cursor.new }
{
    Ok(Attr::FalseValue(literal(alloc, cursor)?))
}

fn pattern_attribute(alloc: Global, cursor: &mut Cursor<'_>) -> Result<Attr, Stop>
    ensures { Reads (spec.attribute_by words.Pattern cursor.old) result cursor.new }
{
    Ok(Attr::Pattern(literal(alloc, cursor)?))
}

fn termination_pattern_attribute(alloc: Global, cursor: &mut Cursor<'_>) -> Result<Attr, Stop>
    ensures { Reads (spec.attribute_by words.TerminationPattern cursor.old) result cursor.new }
{
    Ok(Attr::TerminationPattern(literal(alloc, cursor)?))
}

fn present_when_attribute(alloc: Global, cursor: &mut Cursor<'_>) -> Result<Attr, Stop>
    ensures { Reads (spec.attribute_by words.PresentWhen cursor.old) result cursor.new }
{
    Ok(Attr::PresentWhen(conditions(alloc, cursor)?))
}

fn determinant_attribute(alloc: Global, cursor: &mut Cursor<'_>) -> Result<Attr, Stop>
    ensures { Reads (spec.attribute_by words.Determinant cursor.old) result cursor.new }
{
    Ok(Attr::Determinant(path(alloc, cursor)?))
}

fn mapping_function_attribute(alloc: Global, cursor: &mut Cursor<'_>) -> Result<Attr, Stop>
    ensures { Reads (spec.attribute_by words.MappingFunction cursor.old) result cursor.new }
{
    Ok(Attr::MappingFunction(acn_identifier(alloc, cursor)?))
}

fn attribute_by(alloc: Global, name: Attribute, cursor: &mut Cursor<'_>) -> Result<Attr, Stop>
    ensures { Reads (spec.attribute_by name cursor.old) result cursor.new }
{
    match name {
        Attribute::Size => size_attribute(alloc, cursor),
        Attribute::Encoding => encoding_attribute(cursor),
        Attribute::Endianness => endianness_attribute(cursor),
        Attribute::AlignToNext => alignment_attribute(cursor),
        Attribute::EncodeValues => Ok(Attr::EncodeValues),
        Attribute::TrueValue => true_value_attribute(alloc, cursor),
        Attribute::FalseValue => false_value_attribute(alloc, cursor),
        Attribute::Pattern => pattern_attribute(alloc, cursor),
        Attribute::TerminationPattern => termination_pattern_attribute(alloc, cursor),
        Attribute::PresentWhen => present_when_attribute(alloc, cursor),
        Attribute::Determinant => determinant_attribute(alloc, cursor),
        Attribute::MappingFunction => mapping_function_attribute(alloc, cursor),
    }
}

#[tactic(auto, unfolding(crate::specs::AttributeReading::attribute))]
fn attribute(alloc: Global, cursor: &mut Cursor<'_>) -> Result<Attr, Stop>
    ensures { Reads (spec.attribute cursor.old) result cursor.new }
{
    let name = attribute_name(cursor)?;
    attribute_by(alloc, name, cursor)
}

/// Whether a comma comes next.
pub fn has_comma(cursor: &Cursor<'_>) -> bool
    ensures { result ≡ spec.has_comma cursor.now }
{
    cursor.sees(Kind::Mark, b",")
}

#[tactic(auto, unfolding(crate::specs::AttributeReading::next_attribute))]
fn next_attribute(alloc: Global, cursor: &mut Cursor<'_>) -> Result<Attr, Stop>
    ensures { Reads (spec.next_attribute cursor.old) result cursor.new }
{
    cursor.expect(Kind::Mark, b",")?;
    attribute(alloc, cursor)
}

fn more_attributes(alloc: Global, cursor: &mut Cursor<'_>) -> Result<Row<Attr>, Stop>
    ensures { Reads (many spec.has_comma spec.next_attribute cursor.old) result cursor.new }
{
    let mut attributes = Row::new(alloc);
    for _ in 0..cursor.left() {
        if !has_comma(cursor) {
            return Ok(attributes);
        }
        let attribute = next_attribute(alloc, cursor)?;
        attributes.push(attribute)?;
    }
    Ok(attributes)
}

#[tactic(auto, unfolding(crate::specs::AttributeReading::attributes))]
fn attributes(alloc: Global, cursor: &mut Cursor<'_>) -> Result<Row<Attr>, Stop>
    ensures { Reads (spec.attributes cursor.old) result cursor.new }
{
    if cursor.sees(Kind::Mark, b"]") {
        return Ok(Row::new(alloc));
    }
    let first = Boxed::new(alloc, attribute(alloc, cursor)?)?;
    let more = more_attributes(alloc, cursor)?;
    Ok(with_first(alloc, first.into_inner(), more)?)
}

/// Takes attributes between brackets.
#[tactic(auto, unfolding(crate::specs::AttributeReading::bracket))]
pub fn bracket(alloc: Global, cursor: &mut Cursor<'_>) -> Result<Row<Attr>, Stop>
    ensures { Reads (spec.bracket cursor.old) result cursor.new }
{
    cursor.expect(Kind::Mark, b"[")?;
    let attributes = attributes(alloc, cursor)?;
    cursor.expect(Kind::Mark, b"]")?;
    Ok(attributes)
}
