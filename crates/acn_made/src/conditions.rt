//! The conditions of a component or an alternative.

ghost use Rattle.std.specs.Prelude.{◌≡◌, ◌++◌, filter_map, option_to_list, IfOk, OnOk};
ghost use Rattle.acn_world.specs.Viewed.{world_view};
ghost use Rattle.acn_slots.specs.View.{scope_view};
ghost use Rattle.acn_sites.specs.View.{site_view};
ghost use Rattle.acn_codings.specs.Tables as tables;
ghost use Rattle.acn_made.specs.Conditions as spec;

use crate::named::number_named;
use acn_acn_syntax::{Attr, Condition, Signed};
use acn_asn_syntax::Rest;
use acn_grammar::{Presence, Test};
use acn_homes::Homes;
use acn_num::{NoMemory, Row};
use acn_set_elements::signed;
use acn_sites::{AttrKind, Site, nearest, scope_of};
use acn_slots::{PlainTypes, Scope, is_optional};
use acn_world::World;
use std::alloc::Global;

// The conditions in an attribute.
fn conditions_in(attr: &Attr) -> &[Condition]
    ensures { result.now ≡ spec.conditions_in attr.now }
{
    match attr {
        Attr::PresentWhen(conditions) => conditions.items(),
        Attr::Size(_) => &[],
        Attr::Encoding(_) => &[],
        Attr::Endianness(_) => &[],
        Attr::AlignToNext(_) => &[],
        Attr::EncodeValues => &[],
        Attr::TrueValue(_) => &[],
        Attr::FalseValue(_) => &[],
        Attr::Pattern(_) => &[],
        Attr::TerminationPattern(_) => &[],
        Attr::Determinant(_) => &[],
        Attr::MappingFunction(_) => &[],
    }
}

fn number_of(written: &Signed) -> i128
    ensures { result ≡ tables.number_of written.now }
{
    signed(written.negative, written.n)
}

// The condition on this slot.
fn test_of(equals: &Option<Signed>, slot: u32) -> Test
    ensures { result ≡ spec.test_of equals.now slot }
{
    match equals {
        None => Test::Flag(slot),
        Some(number) => Test::Equals(slot, number_of(number)),
    }
}

// Adds a condition, where its path leads to a slot.
fn push_test<'w>(
    alloc: Global,
    world: &'w World,
    plain: &'w PlainTypes,
    homes: &Homes<'_>,
    scope: &Scope<'w>,
    one: &Condition,
    tests: &mut Row<Test>,
) -> Result<(), NoMemory>
    ensures { OnOk result (tests.new ≡ tests.old ++ option_to_list (spec.test_in (world_view world.now) homes.now (scope_view scope.now) one.now)) }
{
    match number_named(alloc, world, plain, homes, scope, one.path.names.items())? {
        None => Ok(()),
        Some(slot) => tests.push(test_of(&one.equals, slot)),
    }
}

// The conditions whose paths lead to slots, in their order.
fn tests_among<'w>(
    alloc: Global,
    world: &'w World,
    plain: &'w PlainTypes,
    homes: &Homes<'_>,
    scope: &Scope<'w>,
    conditions: &[Condition],
) -> Result<Row<Test>, NoMemory>
    ensures { IfOk result (λ tests. tests ≡ filter_map (spec.test_in (world_view world.now) homes.now (scope_view scope.now)) conditions.now) }
{
    let mut tests = Row::new(alloc);
    for one in conditions {
        push_test(alloc, world, plain, homes, scope, one, &mut tests)?;
    }
    Ok(tests)
}

/// The conditions of a site: those of its nearest `present-when`, in the order of the text.
pub fn tests_at<'w>(
    alloc: Global,
    world: &'w World,
    plain: &'w PlainTypes,
    homes: &Homes<'_>,
    site: &Site<'w>,
) -> Result<Row<Test>, NoMemory>
    ensures { IfOk result (λ tests. tests ≡ spec.tests_at (world_view world.now) homes.now (site_view site.now)) }
{
    match nearest(AttrKind::PresentWhen, site) {
        None => Ok(Row::new(alloc)),
        Some(given) => {
            let scope = scope_of(alloc, world, plain, site, given)?;
            let conditions = conditions_in(given.attr);
            tests_among(alloc, world, plain, homes, &scope, conditions)
        }
    }
}

/// When a component with these conditions is there: always, unless it is OPTIONAL or has a DEFAULT; then where all of them hold, and
/// without any where its bit says so.
pub fn presence_of(rest: &Rest, tests: Row<Test>) -> Presence
    ensures { result ≡ spec.presence_of rest.now tests }
{
    if !is_optional(rest) {
        return Presence::Always;
    }
    if tests.items().is_empty() {
        Presence::Bit
    } else {
        Presence::When(tests)
    }
}
