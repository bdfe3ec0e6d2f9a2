//! What stands behind the coding of a node.

ghost use Rattle.std.specs.Prelude.{◌≡◌, [], ◌∷◌};
ghost use Rattle.std.specs.List.{flat_map};
ghost use Rattle.acn_grammar.specs.Walk.{presence_tests};
ghost use Rattle.acn_layout.specs.Layout as layout;
ghost use Rattle.acn_layout.specs.Walks as walks;
ghost use Rattle.acn_print.specs.Printing.{Prints};

use crate::coding::words_if;
use acn_outside::{Failed, Sink};
use acn_print::{Piece, put_piece};
use acn_report::{Part, put_parts};
use acn_tree::{Presence, Test, Tree};

/// What the node above says of a node: whether it is inserted, whether it may be absent, and its conditions.
#[derive(Clone, Copy)]
pub struct Tag<'t> {
    pub inserted: bool,
    pub optional: bool,
    pub tests: &'t [Test],
}

impl<'t> Tag<'t> {
    /// Of a node with these conditions, which is neither inserted nor a component.
    pub fn with_tests(tests: &'t [Test]) -> Tag<'t>
        ensures { walks.tag_seen result ≡ walks.with_tests tests.now }
    {
        Tag {
            inserted: false,
            optional: false,
            tests,
        }
    }

    /// The same, for a shorter time.
    pub fn again(&self) -> Tag<'_>
        ensures { walks.tag_seen result ≡ walks.tag_seen self.now }
    {
        Tag {
            inserted: self.inserted,
            optional: self.optional,
            tests: &*self.tests,
        }
    }

    /// Of an inserted field.
    pub fn inserted() -> Tag<'t>
        ensures { walks.tag_seen result ≡ walks.inserted_tag }
    {
        Tag {
            inserted: true,
            optional: false,
            tests: &[],
        }
    }

    /// Of a component.
    pub fn component(presence: &'t Presence) -> Tag<'t>
        ensures { walks.tag_seen result ≡ walks.component_tag presence.now }
    {
        match presence {
            Presence::Always => Tag {
                inserted: false,
                optional: false,
                tests: &[],
            },
            Presence::Bit => Tag {
                inserted: false,
                optional: true,
                tests: &[],
            },
            Presence::When(tests) => Tag {
                inserted: false,
                optional: true,
                tests: tests.items(),
            },
        }
    }
}

fn put_test<'a, O: Sink>(out: &mut O, tree: &'a Tree, test: &'a Test) -> Result<(), Failed>
    ensures { Prints (layout.test_text tree.now test.now) (O.taken out.old, O.faults out.old) (O.taken out.new, O.faults out.new) result }
{
    match test {
        Test::Flag(slot) => put_parts(out, &[Part::Text(" "), Part::SlotNames(tree, *slot)]),
        Test::Equals(slot, number) => put_parts(
            out,
            &[
                Part::Text(" "),
                Part::SlotNames(tree, *slot),
                Part::Text("=="),
                Part::Number(number),
            ],
        ),
    }
}

fn put_tests<'a, O: Sink>(out: &mut O, tree: &'a Tree, tests: &'a [Test]) -> Result<(), Failed>
    ensures { Prints (flat_map (layout.test_text tree.now) tests.now) (O.taken out.old, O.faults out.old) (O.taken out.new, O.faults out.new) result }
{
    for test in tests {
        put_test(out, tree, test)?;
    }
    Ok(())
}

fn put_conditions<'a, O: Sink>(out: &mut O, tree: &'a Tree, tests: &'a [Test]) -> Result<(), Failed>
    ensures { Prints (layout.conditions_text tree.now tests.now) (O.taken out.old, O.faults out.old) (O.taken out.new, O.faults out.new) result }
{
    put_piece(out, &Piece::Text(" when"))?;
    put_tests(out, tree, tests)
}

fn put_when<'a, O: Sink>(out: &mut O, tree: &'a Tree, tests: &'a [Test]) -> Result<(), Failed>
    ensures { Prints (layout.when_text tree.now tests.now) (O.taken out.old, O.faults out.old) (O.taken out.new, O.faults out.new) result }
{
    if tests.is_empty() {
        return Ok(());
    }
    put_conditions(out, tree, tests)
}

/// Prints to how many bits a node is aligned, if it is.
pub fn put_align<O: Sink>(out: &mut O, align: u32) -> Result<(), Failed>
    ensures { Prints (layout.align_text align) (O.taken out.old, O.faults out.old) (O.taken out.new, O.faults out.new) result }
{
    if align == 1 {
        return Ok(());
    }
    put_parts(out, &[Part::Text(" align "), Part::Count(u64::from(align))])
}

fn put_flags<O: Sink>(out: &mut O, tag: &Tag<'_>) -> Result<(), Failed>
    ensures { Prints (layout.flags_text (walks.tag_seen tag.now)) (O.taken out.old, O.faults out.old) (O.taken out.new, O.faults out.new) result }
{
    put_parts(
        out,
        &[
            Part::Text(words_if(tag.inserted, " inserted")),
            Part::Text(words_if(tag.optional, " optional")),
        ],
    )
}

/// Prints what the node above says of a node.
pub fn put_tag<'a, O: Sink>(out: &mut O, tree: &'a Tree, tag: &Tag<'a>) -> Result<(), Failed>
    ensures { Prints (layout.tag_text tree.now (walks.tag_seen tag.now)) (O.taken out.old, O.faults out.old) (O.taken out.new, O.faults out.new) result }
{
    put_flags(out, tag)?;
    put_when(out, tree, tag.tests)
}
