//! How numbers, sizes, characters and alternatives are written.

ghost use Rattle.std.specs.Prelude.{◌≡◌};
ghost use Rattle.std.specs.Ordering.{int_eq};
ghost use Rattle.acn_compare.specs.Tests as spec;
ghost use Rattle.acn_grammar.specs.View.{form_of};

use acn_num::RangeSet;
use acn_tree::{Body, ChoiceRule, NumCoding, NumLeaf, Pattern, SizeRule, Table, TextLeaf};

/// Whether two numbers are the same.
pub fn same_number(old: &i128, new: &i128) -> bool
    ensures { result ≡ int_eq old.now new.now }
{
    *old == *new
}

fn same_pattern(old: &Pattern, new: &Pattern) -> bool
    ensures { result ≡ spec.same_pattern old.now new.now }
{
    old.bits() == new.bits()
}

fn same_end(old: &Option<Pattern>, new: &Option<Pattern>) -> bool
    ensures { result ≡ spec.same_end old.now new.now }
{
    match old {
        None => new.is_none(),
        Some(a) => match new {
            None => false,
            Some(b) => same_pattern(a, b),
        },
    }
}

fn same_num_coding(old: &NumCoding, new: &NumCoding) -> bool
    ensures { result ≡ spec.same_num_coding old.now new.now }
{
    match old {
        NumCoding::Range { low, width } => match new {
            NumCoding::Range {
                low: least,
                width: bits,
            } => same_number(low, least) && width == bits,
            _ => false,
        },
        NumCoding::CountedFrom { low } => match new {
            NumCoding::CountedFrom { low: least } => same_number(low, least),
            _ => false,
        },
        NumCoding::CountedSigned => match new {
            NumCoding::CountedSigned => true,
            _ => false,
        },
        NumCoding::PosInt(n) => match new {
            NumCoding::PosInt(m) => n == m,
            _ => false,
        },
        NumCoding::Twos(n) => match new {
            NumCoding::Twos(m) => n == m,
            _ => false,
        },
        NumCoding::Bcd(n) => match new {
            NumCoding::Bcd(m) => n == m,
            _ => false,
        },
        NumCoding::BcdEnded => match new {
            NumCoding::BcdEnded => true,
            _ => false,
        },
        NumCoding::Ascii { bits, signed } => match new {
            NumCoding::Ascii {
                bits: wide,
                signed: sign,
            } => bits == wide && signed == sign,
            _ => false,
        },
        NumCoding::AsciiEnded { end, signed } => match new {
            NumCoding::AsciiEnded {
                end: last,
                signed: sign,
            } => signed == sign && same_pattern(end, last),
            _ => false,
        },
        NumCoding::Flag { yes, no } => match new {
            NumCoding::Flag { yes: one, no: zero } => same_end(yes, one) && same_end(no, zero),
            _ => false,
        },
        NumCoding::Fixed(pattern) => match new {
            NumCoding::Fixed(other) => same_pattern(pattern, other),
            _ => false,
        },
    }
}

fn same_table(old: &Option<Table>, new: &Option<Table>) -> bool
    ensures { result ≡ spec.same_table old.now new.now }
{
    match old {
        None => new.is_none(),
        Some(a) => match new {
            None => false,
            Some(b) => a.lines.items() == b.lines.items(),
        },
    }
}

fn same_leaf(old: &NumLeaf, new: &NumLeaf) -> bool
    ensures { result ≡ spec.same_leaf old.now new.now }
{
    same_num_coding(&old.coding, &new.coding)
        && (old.little == new.little
            && (same_table(&old.table, &new.table) && old.items.values == new.items.values))
}

fn same_rule(old: &SizeRule, new: &SizeRule) -> bool
    ensures { result ≡ spec.same_rule old.now new.now }
{
    match old {
        SizeRule::Prefix { low, width } => match new {
            SizeRule::Prefix {
                low: least,
                width: bits,
            } => low == least && width == bits,
            _ => false,
        },
        SizeRule::Slot(_) => match new {
            SizeRule::Slot(_) => true,
            _ => false,
        },
        SizeRule::Ended(pattern) => match new {
            SizeRule::Ended(other) => same_pattern(pattern, other),
            _ => false,
        },
    }
}

// Characters that are written by their places have to be the same.
fn same_places(indexed: bool, old: &RangeSet, new: &RangeSet) -> bool
    ensures { result ≡ spec.same_places indexed old.now new.now }
{
    if indexed {
        old.ranges() == new.ranges()
    } else {
        true
    }
}

fn same_characters(old: &TextLeaf, new: &TextLeaf) -> bool
    ensures { result ≡ spec.same_characters old.now new.now }
{
    old.width == new.width
        && (old.indexed == new.indexed && same_places(old.indexed, &old.alphabet, &new.alphabet))
}

fn same_text(old: &TextLeaf, new: &TextLeaf) -> bool
    ensures { result ≡ spec.same_text old.now new.now }
{
    same_rule(&old.sized.rule, &new.sized.rule)
        && (same_end(&old.ended, &new.ended) && same_characters(old, new))
}

fn same_index(old: ChoiceRule, new: ChoiceRule) -> bool
    ensures { result ≡ spec.same_index old new }
{
    match old {
        ChoiceRule::Index(width) => match new {
            ChoiceRule::Index(bits) => width == bits,
            ChoiceRule::Tests => true,
            ChoiceRule::Item(_) => true,
        },
        ChoiceRule::Tests => true,
        ChoiceRule::Item(_) => true,
    }
}

/// Whether two nodes of one kind are written in the same way, apart from the fields on which they rest.
pub fn same_coding(old: &Body, new: &Body) -> bool
    ensures { result ≡ spec.same_coding (form_of old.now) (form_of new.now) }
{
    match old {
        Body::Num(a) => match new {
            Body::Num(b) => same_leaf(a, b),
            _ => true,
        },
        Body::Octets(a) => match new {
            Body::Octets(b) => same_rule(&a.rule, &b.rule),
            _ => true,
        },
        Body::Bits(a) => match new {
            Body::Bits(b) => same_rule(&a.rule, &b.rule),
            _ => true,
        },
        Body::Text(a) => match new {
            Body::Text(b) => same_text(a, b),
            _ => true,
        },
        Body::Seq(_) => true,
        Body::List(a, _) => match new {
            Body::List(b, _) => same_rule(&a.rule, &b.rule),
            _ => true,
        },
        Body::Choice(a) => match new {
            Body::Choice(b) => same_index(a.rule, b.rule),
            _ => true,
        },
        Body::Contained(a, _) => match new {
            Body::Contained(b, _) => same_rule(&a.rule, &b.rule),
            _ => true,
        },
    }
}
