//! The pattern that ends a number, a text or a list.

ghost use Rattle.std.specs.Prelude.{◌≡◌};
ghost use Rattle.acn_sites.specs.View.{site_view};
ghost use Rattle.acn_written.specs.Ends as spec;

use crate::patterns::{bits_given, pattern_attr};
use acn_acn_syntax::SizeAttr;
use acn_grammar::Pattern;
use acn_reasons::size_attr;
use acn_sites::{AttrKind, Site};

// The pattern that is given, or else an octet of zeros.
fn or_zero_octet(given: Option<Pattern>) -> Pattern
    ensures { result ≡ spec.or_zero_octet given }
{
    match given {
        Some(end) => end,
        None => Pattern::new(&[false, false, false, false, false, false, false, false]),
    }
}

/// The pattern that ends what has no size in front.
pub fn end_of(site: &Site<'_>) -> Pattern
    ensures { result ≡ spec.end_of (site_view site.now) }
{
    or_zero_octet(bits_given(pattern_attr(AttrKind::TerminationPattern, site)))
}

/// The same where `size null-terminated` says that there is one.
pub fn ended_by(site: &Site<'_>) -> Option<Pattern>
    ensures { result ≡ spec.ended_by (site_view site.now) }
{
    match size_attr(site) {
        Some(SizeAttr::NullTerminated) => Some(end_of(site)),
        Some(SizeAttr::Number(_)) => None,
        Some(SizeAttr::Path(_)) => None,
        None => None,
    }
}
