//! The walk from a type along a path.

use crate::asn::{inside, referred, root_of};
use crate::brackets::{braces_behind, field_named};
use crate::names::entry_of;
use crate::paths::{Step, first_step, module_and_type};
use crate::source::{Mark, Source, Span};

// The most references from type to type that are followed.
const MOST_REFERENCES: u32 = 64;

/// Where a node stands in the sources.
#[derive(Clone, Copy)]
pub struct Marks {
    /// Its name in ASN.1, or that of the nearest node above it that has one.
    pub asn: Mark,
    /// Its entry in ACN, or that of the nearest node above it that has one.
    pub acn: Option<Mark>,
    /// Where its type begins in ASN.1.
    pub of_type: Mark,
    /// The brace in ACN that opens what is inside it.
    pub braces: Option<Mark>,
}

// The entry of a type in ACN.
fn type_entry(sources: &[Source<'_>], name: &[u8]) -> Option<Mark> {
    for (number, source) in sources.iter().enumerate() {
        if source.is_acn {
            let span = Span {
                begins: 0,
                ends: source.list().len(),
            };
            if let Some(token) = entry_of(source.list(), span, name) {
                return Some(Mark {
                    source: number,
                    token,
                });
            }
        }
    }
    None
}

// The brace behind an entry.
fn braces_of(sources: &[Source<'_>], entry: Option<Mark>) -> Option<Mark> {
    let entry = entry?;
    let token = braces_behind(sources.get(entry.source)?.list(), entry.token)?;
    Some(Mark {
        source: entry.source,
        token,
    })
}

// The same node with its type followed to one that refers to no other. The first braces on the way
// are those that count.
fn followed(sources: &[Source<'_>], marks: Marks) -> Marks {
    let mut now = marks;
    for _ in 0..MOST_REFERENCES {
        let Some((name, assigned)) = referred(sources, now.of_type) else {
            return now;
        };
        let entry = type_entry(sources, name);
        now.of_type = Mark {
            source: assigned.source,
            token: assigned.token.saturating_add(2),
        };
        now.acn = now.acn.or(entry);
        now.braces = now.braces.or(braces_of(sources, entry));
    }
    now
}

// The entry of a field between the braces of the node above.
fn field_entry(sources: &[Source<'_>], braces: Option<Mark>, name: &[u8]) -> Option<Mark> {
    let braces = braces?;
    let token = field_named(sources.get(braces.source)?.list(), braces.token, name)?;
    Some(Mark {
        source: braces.source,
        token,
    })
}

// The entry of the element of a list, which is the only one between the braces.
fn element_entry(braces: Option<Mark>) -> Option<Mark> {
    let braces = braces?;
    Some(Mark {
        source: braces.source,
        token: braces.token.saturating_add(1),
    })
}

// The node to which a step leads.
fn stepped(sources: &[Source<'_>], above: Marks, step: Step<'_>) -> Option<Marks> {
    let tokens = sources.get(above.of_type.source)?.list();
    let (name, of_type) = inside(tokens, above.of_type.token, step)?;
    let asn = match name {
        Some(token) => Mark {
            source: above.of_type.source,
            token,
        },
        None => above.asn,
    };
    let entry = match step {
        Step::Named(name) => field_entry(sources, above.braces, name),
        Step::Element => element_entry(above.braces),
        Step::Content => None,
    };
    Some(Marks {
        asn,
        acn: entry,
        of_type: Mark {
            source: above.of_type.source,
            token: of_type,
        },
        braces: braces_of(sources, entry),
    })
}

// An inserted field: it stands in ACN alone.
fn inserted(sources: &[Source<'_>], above: Marks, step: Step<'_>) -> Option<Marks> {
    match step {
        Step::Named(name) => {
            let entry = field_entry(sources, above.braces, name)?;
            Some(Marks {
                acn: Some(entry),
                ..above
            })
        }
        Step::Element | Step::Content => None,
    }
}

/// Where the node of a path stands, as far as the path is followed.
pub fn marks_of(sources: &[Source<'_>], path: &[u8]) -> Option<Marks> {
    let (module, name, steps) = module_and_type(path)?;
    let root = root_of(sources, module, name)?;
    let entry = type_entry(sources, name);
    let mut now = followed(
        sources,
        Marks {
            asn: root,
            acn: entry,
            of_type: Mark {
                source: root.source,
                token: root.token.saturating_add(2),
            },
            braces: braces_of(sources, entry),
        },
    );
    let mut rest = steps;
    for _ in 0..steps.len() {
        let Some((step, more)) = first_step(rest) else {
            return Some(now);
        };
        match stepped(sources, now, step) {
            Some(next) => now = followed(sources, next),
            None => return Some(inserted(sources, now, step).unwrap_or(now)),
        }
        rest = more;
    }
    Some(now)
}
