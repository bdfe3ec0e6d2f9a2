ghost use Rattle.std.specs.Prelude.{◌≡◌};
ghost use Rattle.acn_sites.specs.View.{site_view};
ghost use Rattle.acn_grammar.specs.Leaves as leaves;
ghost use Rattle.acn_written.specs.Patterns as spec;

use crate::says::literal_attr;
use acn_codings::pattern_of;
use acn_grammar::Pattern;
use acn_leaf::{begins_number, flag_patterns_fine, is_terminator};
use acn_reasons::{Class, class_of};
use acn_sites::{AttrKind, Site};

/// What the nearest attribute of a kind gives, where it is there: a pattern, or none where its literal has no bits or
/// more than `MOST_PATTERN_BITS`.
pub fn pattern_attr(kind: AttrKind, site: &Site<'_>) -> Option<Option<Pattern>>
    ensures { result ≡ spec.pattern_attr kind (site_view site.now) }
{
    match literal_attr(kind, site) {
        None => None,
        Some(literal) => Some(pattern_of(literal)),
    }
}

// Whether a literal has no bits or too many.
fn is_unfit(given: &Option<Option<Pattern>>) -> bool
    ensures { result ≡ spec.is_unfit given.now }
{
    match given {
        None => false,
        Some(None) => true,
        Some(Some(_)) => false,
    }
}

/// The pattern, where there is one.
pub fn bits_given(given: Option<Option<Pattern>>) -> Option<Pattern>
    ensures { result ≡ spec.bits_given given }
{
    match given {
        None => None,
        Some(pattern) => pattern,
    }
}

// Whether the patterns of a BOOLEAN clash.
fn flags_clash(yes: Option<Option<Pattern>>, no: Option<Option<Pattern>>) -> bool
    ensures { result ≡ spec.flags_clash yes no }
{
    if is_unfit(&yes) || is_unfit(&no) {
        return true;
    }
    !flag_patterns_fine(&bits_given(yes), &bits_given(no))
}

// Whether a pattern can end a number in digits.
fn ends_number(end: &Pattern) -> bool
    ensures { result ≡ spec.ends_number end.now }
{
    if is_terminator(end) {
        !begins_number(end)
    } else {
        false
    }
}

// Whether the end of a number clashes.
fn number_end_clashes(given: &Option<Option<Pattern>>) -> bool
    ensures { result ≡ spec.clashes spec.ends_number given.now }
{
    match given {
        None => false,
        Some(None) => true,
        Some(Some(end)) => !ends_number(end),
    }
}

// Whether the end of a text clashes.
fn text_end_clashes(given: &Option<Option<Pattern>>) -> bool
    ensures { result ≡ spec.clashes leaves.is_terminator given.now }
{
    match given {
        None => false,
        Some(None) => true,
        Some(Some(end)) => !is_terminator(end),
    }
}

/// Whether the patterns of a site clash: one without bits or with more than `MOST_PATTERN_BITS`; two of a BOOLEAN that are
/// equal or of different lengths; the end of a number or a text that isn't 1 to 8 whole octets; that of a number in digits
/// whose first octet is a digit or a sign. (This profile's own.)
#[tactic(auto, unfolding(crate::specs::Patterns::pattern_clash))]
pub fn pattern_clash(site: &Site<'_>) -> bool
    ensures { result ≡ spec.pattern_clash (site_view site.now) }
{
    let end = AttrKind::TerminationPattern;
    match class_of(site) {
        Class::Boolean => flags_clash(
            pattern_attr(AttrKind::TrueValue, site),
            pattern_attr(AttrKind::FalseValue, site),
        ),
        Class::Null => is_unfit(&pattern_attr(AttrKind::Pattern, site)),
        Class::Integer => number_end_clashes(&pattern_attr(end, site)),
        Class::Text => text_end_clashes(&pattern_attr(end, site)),
        Class::List => is_unfit(&pattern_attr(end, site)),
        Class::Enumerated => false,
        Class::Octets => false,
        Class::Bits => false,
        Class::Sequence => false,
        Class::Choice => false,
        Class::Reference => false,
    }
}
