//! The parts of a node, each by itself.

ghost use Rattle.std.specs.Prelude.{◌≡◌, map, IfOk};
ghost use Rattle.std.specs.List.{list_any};
ghost use Rattle.acn_world.specs.Viewed.{world_view};
ghost use Rattle.acn_grammar.specs.Grammar.{node, num, octets, bits, text, seq, list, contained};
ghost use Rattle.acn_grammar.specs.View.{grammar_of, form_of, fields_view, alternative_of};
ghost use Rattle.acn_homes.specs.Homes.{at_home};
ghost use Rattle.acn_sites.specs.View.{site_view};
ghost use Rattle.acn_made.specs.Made as spec;
ghost use Rattle.acn_made.specs.Named as named;
ghost use Rattle.acn_made.specs.Sized.{sizing_at, list_sizing_at, text_at};
ghost use Rattle.acn_sites.specs.declared.attributes.AttrKind.TheVariants as kind;

use crate::named::determinant_by;
use crate::sized::{list_sizing_at, sizing_at, text_at};
use acn_acn_syntax::{Alignment, Attr};
use acn_grammar::{Alternative, Body, Choice, ChoiceRule, Field, Node, NumLeaf, Seq};
use acn_homes::Homes;
use acn_leaves::{leaf_at, least_width, null_leaf};
use acn_num::{Boxed, NoMemory, Row};
use acn_sites::{AttrKind, Site, nearest};
use acn_slots::PlainTypes;
use acn_world::World;
use std::alloc::Global;

fn bits_of(alignment: &Alignment) -> u32
    ensures { result ≡ spec.bits_of alignment.now }
{
    match alignment {
        Alignment::Byte => 8,
        Alignment::Word => 16,
        Alignment::Dword => 32,
    }
}

fn alignment_in(attr: &Attr) -> u32
    ensures { result ≡ spec.alignment_in attr.now }
{
    match attr {
        Attr::AlignToNext(alignment) => bits_of(alignment),
        Attr::Size(_) => 1,
        Attr::Encoding(_) => 1,
        Attr::Endianness(_) => 1,
        Attr::EncodeValues => 1,
        Attr::TrueValue(_) => 1,
        Attr::FalseValue(_) => 1,
        Attr::Pattern(_) => 1,
        Attr::TerminationPattern(_) => 1,
        Attr::PresentWhen(_) => 1,
        Attr::Determinant(_) => 1,
        Attr::MappingFunction(_) => 1,
    }
}

// The bits to a multiple of which a packet is filled before the node of a site.
fn alignment_at(site: &Site<'_>) -> u32
    ensures { result ≡ spec.alignment_at (site_view site.now) }
{
    match nearest(AttrKind::AlignToNext, site) {
        None => 1,
        Some(given) => alignment_in(given.attr),
    }
}

// A node in a box.
#[tactic(auto, using(crate::proofs::Views::node_views))]
fn boxed(alloc: Global, align: u32, body: Body) -> Result<Boxed<Node>, NoMemory>
    ensures { IfOk result (λ one. grammar_of one ≡ node align (form_of body)) }
{
    Boxed::new(alloc, Node { align, body })
}

/// What stands for a node that can't be made.
#[tactic(auto, using(crate::proofs::Views::node_views))]
pub fn nothing(alloc: Global, site: &Site<'_>) -> Result<Boxed<Node>, NoMemory>
    ensures { IfOk result (λ one. grammar_of one ≡ spec.nothing (site_view site.now)) }
{
    let leaf = null_leaf(alloc, site)?;
    boxed(alloc, 1, Body::Num(leaf))
}

fn number_at(alloc: Global, world: &World, site: &Site<'_>) -> Result<NumLeaf, NoMemory>
    ensures { IfOk result (λ leaf. leaf ≡ spec.number_at (world_view world.now) (site_view site.now)) }
{
    match leaf_at(alloc, world, site)? {
        Some(leaf) => Ok(leaf),
        None => null_leaf(alloc, site),
    }
}

/// The node of a number.
#[tactic(auto, using(crate::proofs::Views::node_views))]
pub fn number_node(alloc: Global, world: &World, site: &Site<'_>) -> Result<Boxed<Node>, NoMemory>
    ensures { IfOk result (λ one. grammar_of one ≡ node (spec.alignment_at (site_view site.now)) (num (spec.number_at (world_view world.now) (site_view site.now)))) }
{
    let leaf = number_at(alloc, world, site)?;
    boxed(alloc, alignment_at(site), Body::Num(leaf))
}

/// The node of a BIT STRING.
#[tactic(auto, using(crate::proofs::Views::node_views))]
pub fn bits_node<'w>(
    alloc: Global,
    world: &'w World,
    plain: &'w PlainTypes,
    homes: &Homes<'_>,
    site: &Site<'w>,
) -> Result<Boxed<Node>, NoMemory>
    ensures { IfOk result (λ one. grammar_of one ≡ node (spec.alignment_at (site_view site.now)) (bits (sizing_at (world_view world.now) homes.now (site_view site.now)))) }
{
    let sizing = sizing_at(alloc, world, plain, homes, site)?;
    boxed(alloc, alignment_at(site), Body::Bits(sizing))
}

/// The node of an IA5String.
#[tactic(auto, using(crate::proofs::Views::node_views))]
pub fn text_node<'w>(
    alloc: Global,
    world: &'w World,
    plain: &'w PlainTypes,
    homes: &Homes<'_>,
    site: &Site<'w>,
) -> Result<Boxed<Node>, NoMemory>
    ensures { IfOk result (λ one. grammar_of one ≡ node (spec.alignment_at (site_view site.now)) (text (text_at (world_view world.now) homes.now (site_view site.now)))) }
{
    let leaf = text_at(alloc, world, plain, homes, site)?;
    boxed(alloc, alignment_at(site), Body::Text(leaf))
}

/// The node of octets that contain nothing.
#[tactic(auto, using(crate::proofs::Views::node_views))]
pub fn octets_node<'w>(
    alloc: Global,
    world: &'w World,
    plain: &'w PlainTypes,
    homes: &Homes<'_>,
    site: &Site<'w>,
) -> Result<Boxed<Node>, NoMemory>
    ensures { IfOk result (λ one. grammar_of one ≡ node (spec.alignment_at (site_view site.now)) (octets (sizing_at (world_view world.now) homes.now (site_view site.now)))) }
{
    let sizing = sizing_at(alloc, world, plain, homes, site)?;
    boxed(alloc, alignment_at(site), Body::Octets(sizing))
}

/// The node of octets with this content.
#[tactic(auto, using(crate::proofs::Views::node_views))]
pub fn contained_node<'w>(
    alloc: Global,
    world: &'w World,
    plain: &'w PlainTypes,
    homes: &Homes<'_>,
    site: &Site<'w>,
    content: Boxed<Node>,
) -> Result<Boxed<Node>, NoMemory>
    ensures { IfOk result (λ one. grammar_of one ≡ node (spec.alignment_at (site_view site.now)) (contained (sizing_at (world_view world.now) homes.now (site_view site.now)) (grammar_of content))) }
{
    let sizing = sizing_at(alloc, world, plain, homes, site)?;
    boxed(alloc, alignment_at(site), Body::Contained(sizing, content))
}

/// The node of a list with this element.
#[tactic(auto, using(crate::proofs::Views::node_views))]
pub fn list_node<'w>(
    alloc: Global,
    world: &'w World,
    plain: &'w PlainTypes,
    homes: &Homes<'_>,
    site: &Site<'w>,
    element: Boxed<Node>,
) -> Result<Boxed<Node>, NoMemory>
    ensures { IfOk result (λ one. grammar_of one ≡ node (spec.alignment_at (site_view site.now)) (list (list_sizing_at (world_view world.now) homes.now (site_view site.now)) (grammar_of element))) }
{
    let sizing = list_sizing_at(alloc, world, plain, homes, site)?;
    boxed(alloc, alignment_at(site), Body::List(sizing, element))
}

fn numbers(alloc: Global, slots: &[u32]) -> Result<Row<u32>, NoMemory>
    ensures { IfOk result (λ all. all ≡ slots.now) }
{
    Ok(Row::from_vec(Vec::from_slice(alloc, slots)?))
}

/// The node of a SEQUENCE with these fields.
pub fn sequence_node(
    alloc: Global,
    homes: &Homes<'_>,
    site: &Site<'_>,
    fields: Row<Field>,
) -> Result<Boxed<Node>, NoMemory>
    ensures { IfOk result (λ one. grammar_of one ≡ node (spec.alignment_at (site_view site.now)) (seq (fields_view fields) (at_home homes.now (site_view site.now).path))) }
{
    let home = numbers(alloc, homes.at_home(site.path.items()))?;
    boxed(alloc, alignment_at(site), Body::Seq(Seq { fields, home }))
}

#[tactic(auto, using(crate::proofs::Views::open_alternative))]
fn has_tests(alternative: &Alternative) -> bool
    ensures { result ≡ spec.has_tests (alternative_of alternative.now) }
{
    !alternative.tests.items().is_empty()
}

// Whether an alternative has conditions.
fn some_has_tests(cases: &[Alternative]) -> bool
    ensures { result ≡ list_any spec.has_tests (map alternative_of cases.now) }
{
    for case in cases {
        if has_tests(case) {
            return true;
        }
    }
    false
}

// What says which of these alternatives is there.
fn told_by(slot: Option<u32>, cases: &[Alternative]) -> ChoiceRule
    ensures { result ≡ spec.told_by slot (map alternative_of cases.now) }
{
    match slot {
        Some(slot) => ChoiceRule::Item(slot),
        None => {
            if some_has_tests(cases) {
                ChoiceRule::Tests
            } else {
                ChoiceRule::Index(least_width(cases.len().saturating_sub(1) as u128))
            }
        }
    }
}

/// The node of a CHOICE with these alternatives.
#[tactic(auto, using(crate::proofs::Views::node_views))]
pub fn choice_node<'w>(
    alloc: Global,
    world: &'w World,
    plain: &'w PlainTypes,
    homes: &Homes<'_>,
    site: &Site<'w>,
    alternatives: Row<Alternative>,
) -> Result<Boxed<Node>, NoMemory>
    ensures { IfOk result (λ one. grammar_of one ≡ node (spec.alignment_at (site_view site.now)) (spec.choice_with (named.determinant_by kind.Determinant (world_view world.now) homes.now (site_view site.now)) (map alternative_of alternatives))) }
{
    let slot = determinant_by(alloc, world, plain, homes, AttrKind::Determinant, site)?;
    let rule = told_by(slot, alternatives.items());
    boxed(
        alloc,
        alignment_at(site),
        Body::Choice(Choice { alternatives, rule }),
    )
}
