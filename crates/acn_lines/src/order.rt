//! What is kept of a tree for its lines.

ghost use Rattle.std.specs.Prelude.{◌≡◌, IfOk, IfSome};
ghost use Rattle.acn_cut.specs.Cuts.{IsCut};
ghost use Rattle.acn_cut.specs.Stretches.{AreStretches};
ghost use Rattle.acn_grammar.specs.Fails.{presence_count};
ghost use Rattle.acn_grammar.specs.View.{grammar_of, field_of, fields_view, alternatives_view};
ghost use Rattle.acn_lines.specs.Names as names;
ghost use Rattle.acn_lines.specs.Order as spec;
ghost use Rattle.acn_lines.specs.declared.order.Order.{out-Order};

use crate::flags::flags_of;
use crate::turns::{Turn, turns_of};
use acn_cut::{Cut, Stretch, cut_of, stretches_of};
use acn_grammar::{Alternative, Body, Field, Node, NumLeaf};
use acn_num::{NoMemory, Row};
use acn_printed::in_order_of_names;
use std::alloc::Global;

/// What is kept of a node: the turns of a SEQUENCE, and what is kept of the node of each field of a
/// SEQUENCE, or of each alternative of a CHOICE; of a number, how it is read out of one word, where
/// it can be so. `names` are the numbers of the alternatives of a CHOICE, or of the items of an
/// ENUMERATED, in byte order of their names, if they are many; no clause speaks of them. `flags` is
/// the number of bits of a SEQUENCE that say which components are there, and `stretches` say which
/// of its fields are read out of one word. Of a list, and of a string that contains a value, it is
/// what is kept of the node inside.
#[cycle(kept)]
#[derive(Drop)]
pub struct Order {
    pub turns: Row<Turn>,
    pub inside: Row<Order>,
    pub names: Row<u32>,
    pub cut: Option<Cut>,
    pub flags: u64,
    pub stretches: Row<Stretch>,
}

/// What is kept of a tree: what is kept of its root, and whether its names are UTF-8 for sure.
#[derive(Drop)]
pub struct TreeOrder {
    pub nodes: Order,
    pub text_names: bool,
}

// Of a number leaf, with what is kept of the names of its items.
fn leaf_order(alloc: Global, leaf: &NumLeaf, names: Row<u32>) -> Order
    ensures { IfSome (out-Order result).cut (λ cut. IsCut cut leaf.now) }
{
    Order {
        turns: Row::new(alloc),
        inside: Row::new(alloc),
        names,
        cut: cut_of(leaf),
        flags: 0,
        stretches: Row::new(alloc),
    }
}

// Of a number leaf of which lines speak.
fn number_order(alloc: Global, leaf: &NumLeaf) -> Result<Order, NoMemory>
    ensures { IfOk result (λ o. spec.IsLeafOrder leaf.now o) }
{
    let names = in_order_of_names(alloc, leaf.items.items.items())?;
    Ok(leaf_order(alloc, leaf, names))
}

// Of a node in which no object is.
fn nothing(alloc: Global) -> Order {
    Order {
        turns: Row::new(alloc),
        inside: Row::new(alloc),
        names: Row::new(alloc),
        cut: None,
        flags: 0,
        stretches: Row::new(alloc),
    }
}

// Of a field that ACN inserts, of which no line speaks.
fn inserted_order(alloc: Global, node: &Node) -> Order
    ensures { spec.IsInsertedOrder (grammar_of node.now) result }
{
    match &node.body {
        Body::Num(leaf) => leaf_order(alloc, leaf, Row::new(alloc)),
        _ => nothing(alloc),
    }
}

/// What is kept of a node. It fails only where memory runs out.
#[cycle(order)]
pub fn order_of(alloc: Global, node: &Node) -> Result<Order, NoMemory>
    requires { names.NamesDiffer (grammar_of node.now) }
    ensures { IfOk result (λ o. spec.IsNodeOrder (grammar_of node.now) o) }
{
    match &node.body {
        Body::Num(leaf) => number_order(alloc, leaf),
        Body::Octets(_) => Ok(nothing(alloc)),
        Body::Bits(_) => Ok(nothing(alloc)),
        Body::Text(_) => Ok(nothing(alloc)),
        Body::Seq(seq) => sequence_order(alloc, seq.fields.items()),
        Body::List(_, element) => order_of(alloc, element.get()),
        Body::Choice(choice) => choice_order(alloc, choice.alternatives.items()),
        Body::Contained(_, content) => order_of(alloc, content.get()),
    }
}

#[cycle(order)]
fn sequence_order(alloc: Global, fields: &[Field]) -> Result<Order, NoMemory>
    requires differ { names.Differ (fields_view fields.now) }
    requires inside { names.FieldsNamesDiffer (fields_view fields.now) }
    ensures turns { IfOk result (λ o. spec.AreTurns (fields_view fields.now) (out-Order o).turns) }
    ensures inside { IfOk result (λ o. spec.AreFieldOrders (fields_view fields.now) (out-Order o).inside) }
    ensures flags { IfOk result (λ o. (out-Order o).flags ≡ presence_count (fields_view fields.now)) }
    ensures stretches { IfOk result (λ o. AreStretches (fields_view fields.now) (out-Order o).stretches) }
{
    let turns = turns_of(alloc, fields)?;
    let inside = field_orders(alloc, fields)?;
    let stretches = stretches_of(alloc, fields)?;
    Ok(Order {
        turns,
        inside,
        names: Row::new(alloc),
        cut: None,
        flags: flags_of(fields),
        stretches,
    })
}

#[cycle(order)]
fn field_orders(alloc: Global, fields: &[Field]) -> Result<Row<Order>, NoMemory>
    requires { names.FieldsNamesDiffer (fields_view fields.now) }
    ensures { IfOk result (λ os. spec.AreFieldOrders (fields_view fields.now) os) }
{
    let mut orders = Row::new(alloc);
    for field in fields {
        orders.push(field_order(alloc, field)?)?;
    }
    Ok(orders)
}

#[cycle(order)]
fn field_order(alloc: Global, field: &Field) -> Result<Order, NoMemory>
    requires { names.FieldNamesDiffer (field_of field.now) }
    ensures { IfOk result (λ o. spec.IsFieldOrder (field_of field.now) o) }
{
    match field {
        Field::Component { node, .. } => order_of(alloc, node),
        Field::Inserted { node, .. } => Ok(inserted_order(alloc, node)),
    }
}

#[cycle(order)]
fn choice_order(alloc: Global, alternatives: &[Alternative]) -> Result<Order, NoMemory>
    requires { names.AlternativesNamesDiffer (alternatives_view alternatives.now) }
    ensures { IfOk result (λ o. spec.AreAlternativeOrders (alternatives_view alternatives.now) (out-Order o).inside) }
{
    let names = in_order_of_names(alloc, alternatives)?;
    let inside = alternative_orders(alloc, alternatives)?;
    Ok(Order {
        turns: Row::new(alloc),
        inside,
        names,
        cut: None,
        flags: 0,
        stretches: Row::new(alloc),
    })
}

#[cycle(order)]
fn alternative_orders(alloc: Global, alternatives: &[Alternative]) -> Result<Row<Order>, NoMemory>
    requires { names.AlternativesNamesDiffer (alternatives_view alternatives.now) }
    ensures { IfOk result (λ os. spec.AreAlternativeOrders (alternatives_view alternatives.now) os) }
{
    let mut orders = Row::new(alloc);
    for alternative in alternatives {
        orders.push(order_of(alloc, &alternative.node)?)?;
    }
    Ok(orders)
}
