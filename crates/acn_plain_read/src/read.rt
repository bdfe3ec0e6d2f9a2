//! The walk.

ghost use Rattle.std.specs.Prelude.{◌≡◌, ◌<◌, ◌≤◌, ◌+◌, ◌^◌, ℕ, suc, ◌∷◌, [], ◌++◌, List, Bool, Option, Some, None, IfOk, IfErr, OnOk, IsTrue, length, map, option_map};
ghost use Rattle.acn_grammar.specs.Fails.{presence_count};
ghost use Rattle.acn_grammar.specs.Grammar.{Grammar, Fields, Data, component, inserted, no_fields, list, choice, contained};
ghost use Rattle.acn_grammar.specs.ItemsNamed.{ItemsNamed, FormItemsNamed, FieldsItemsNamed, AlternativesItemsNamed, field_items_named};
ghost use Rattle.acn_grammar.specs.View.{grammar_of, form_of, data_of, field_of, fields_view, with_field, alternatives_view};
ghost use Rattle.acn_grammar.specs.declared.node.Body.TheVariants.{Seq as Seq_body};
ghost use Rattle.acn_num.specs.declared.limits.TheConstants.{MOST_SIZE};
ghost use Rattle.acn_num.specs.Ranges.{greatest};
ghost use Rattle.acn_grammar.specs.Interval.{size_of};
ghost use Rattle.acn_grammar.specs.declared.node.SizeRule.TheVariants.{Ended};
ghost use Rattle.acn_reads.specs.Choices.{grammar_at};
ghost use Rattle.acn_reads.specs.Ends.{EndedRead};
ghost use Rattle.acn_reads.specs.Decoded.{Tells, Fine, NodeStands, FormStands, FieldsStand, InnerStands, CasesStand, RunTurn, TailStops, counted, ended, NodeRead, FormRead, NodeStops, FormStops, Turn, FieldsStop};

use crate::slot::read_inserted;
use acn_bits::ReadCursor;
use acn_grammar::{
    Alternative, Body, ChoiceRule, Field, Node, Pattern, Presence, ReadFault, Reason, Seq, Sizing,
    Value,
};
use acn_num::{Boxed, NoMemory, Path, Row};
use acn_reads::{
    Stop, count_of, forget, is_ended, is_there, most_of, named, no_end, note, pad, pass_end,
    pattern_of, pick, read_bits, read_leaf, read_number, read_octets, read_size, read_text, stands,
};
use std::alloc::Global;

/// A node at a path.
#[cycle(read)]
pub fn read_node(
    alloc: Global,
    node: &Node,
    root: &Node,
    cur: &mut ReadCursor<'_>,
    slots: &mut Row<(u32, i128)>,
    path: &mut Path,
    inside: bool,
) -> Result<Value, Stop>
    requires ready { (around : List ℕ) × NodeStands (grammar_of root.now) (length path.old) (grammar_of node.now) slots.old around }
    requires named { ItemsNamed (grammar_of node.now) }
    requires fine { Fine (grammar_of root.now) slots.old }
    ensures read { IfOk result (λ v. NodeRead (grammar_of root.now) (grammar_of node.now) (data_of v) slots.old slots.new cur.old cur.new) }
    ensures fails { IfErr result (λ e. Tells e (NodeStops (grammar_of root.now) (grammar_of node.now) inside path.old slots.old cur.old path.new)) }
    ensures path { OnOk result (path.new ≡ path.old) }
{
    let from = cur.reach();
    match pad(cur, node.align) {
        Ok(()) => read_body(alloc, &node.body, root, cur, slots, path, inside, from),
        Err(_) => Err(Stop::Fails {
            reason: named(inside, ReadFault::Short),
            at: from,
        }),
    }
}

#[cycle(read)]
fn read_body(
    alloc: Global,
    body: &Body,
    root: &Node,
    cur: &mut ReadCursor<'_>,
    slots: &mut Row<(u32, i128)>,
    path: &mut Path,
    inside: bool,
    from: u64,
) -> Result<Value, Stop>
    requires ready { (around : List ℕ) × FormStands (grammar_of root.now) (length path.old) (form_of body.now) slots.old around }
    requires named { FormItemsNamed (form_of body.now) }
    requires fine { Fine (grammar_of root.now) slots.old }
    ensures read { IfOk result (λ v. FormRead (grammar_of root.now) (form_of body.now) (data_of v) slots.old slots.new cur.old cur.new) }
    ensures fails { IfErr result (λ e. Tells e (FormStops (grammar_of root.now) (form_of body.now) (record { path = path.old; place = from; inside = inside }) cur.old.origin slots.old cur.old path.new)) }
    ensures path { OnOk result (path.new ≡ path.old) }
{
    match body {
        Body::Num(leaf) => read_leaf(cur, leaf, inside, from),
        Body::Seq(seq) => read_seq(alloc, seq, root, cur, slots, path, inside, from),
        Body::Octets(sizing) => read_octets(alloc, cur, sizing, slots.items(), inside, from),
        Body::Bits(sizing) => read_bits(alloc, cur, sizing, slots.items(), inside, from),
        Body::Text(leaf) => read_text(alloc, cur, leaf, slots.items(), inside, from),
        Body::List(sizing, element) => read_list(
            alloc,
            element.get(),
            sizing,
            root,
            cur,
            slots,
            path,
            inside,
            from,
        ),
        Body::Choice(choice) => read_choice(
            alloc,
            choice.alternatives.items(),
            choice.rule,
            root,
            cur,
            slots,
            path,
            inside,
            from,
        ),
        Body::Contained(sizing, content) => read_contained(
            alloc,
            content.get(),
            sizing,
            root,
            cur,
            slots,
            path,
            inside,
            from,
        ),
    }
}

#[cycle(read)]
fn read_seq(
    alloc: Global,
    seq: &Seq,
    root: &Node,
    cur: &mut ReadCursor<'_>,
    slots: &mut Row<(u32, i128)>,
    path: &mut Path,
    inside: bool,
    from: u64,
) -> Result<Value, Stop>
    requires ready { (around : List ℕ) × FormStands (grammar_of root.now) (length path.old) (form_of (Seq_body seq.now)) slots.old around }
    requires named { FormItemsNamed (form_of (Seq_body seq.now)) }
    requires fine { Fine (grammar_of root.now) slots.old }
    ensures read { IfOk result (λ v. FormRead (grammar_of root.now) (form_of (Seq_body seq.now)) (data_of v) slots.old slots.new cur.old cur.new) }
    ensures fails { IfErr result (λ e. Tells e (FormStops (grammar_of root.now) (form_of (Seq_body seq.now)) (record { path = path.old; place = from; inside = inside }) cur.old.origin slots.old cur.old path.new)) }
    ensures path { OnOk result (path.new ≡ path.old) }
{
    match cur.window(count_of(seq.fields.items())) {
        Ok(window) => {
            let mut flags = window;
            match read_fields(
                alloc,
                seq.fields.items(),
                root,
                &mut flags,
                cur,
                slots,
                path,
                inside,
            ) {
                Ok(places) => {
                    forget(alloc, slots, seq.home.items())?;
                    Ok(Value::Seq(places))
                }
                Err(stop) => Err(stop),
            }
        }
        Err(_) => Err(Stop::Fails {
            reason: named(inside, ReadFault::Short),
            at: from,
        }),
    }
}

// No places yet, with room for so many.
fn no_places(alloc: Global, most: usize) -> Result<Row<Option<Value>>, NoMemory>
    ensures { IfOk result (λ places. places ≡ []) }
{
    Ok(Row::from_vec(Vec::with_capacity(alloc, most)?))
}

#[cycle(read)]
fn read_fields(
    alloc: Global,
    fields: &[Field],
    root: &Node,
    flags: &mut ReadCursor<'_>,
    cur: &mut ReadCursor<'_>,
    slots: &mut Row<(u32, i128)>,
    path: &mut Path,
    inside: bool,
) -> Result<Row<Option<Value>>, Stop>
    requires few { length fields.now < 2 ^ 32 }
    requires bits { presence_count (fields_view fields.now) ≡ length flags.old.rest }
    requires ready { (around : List ℕ) × FieldsStand (grammar_of root.now) (suc (length path.old)) (fields_view fields.now) slots.old around }
    requires named { FieldsItemsNamed (fields_view fields.now) }
    requires fine { Fine (grammar_of root.now) slots.old }
    ensures read { IfOk result (λ places. (place : ℕ) → Turn (grammar_of root.now) (record { path = path.old; place = place; inside = inside }) cur.old.origin 0 (length fields.now) (fields_view fields.now) no_fields (map (option_map data_of) places) slots.old slots.new flags.old.rest flags.new.rest cur.old cur.new) }
    ensures fails { IfErr result (λ e. Tells e (λ r at. (place : ℕ) → FieldsStop (grammar_of root.now) (fields_view fields.now) flags.old.rest (record { path = path.old; place = place; inside = inside }) cur.old.origin 0 slots.old cur.old path.new r at)) }
    ensures path { OnOk result (path.new ≡ path.old) }
{
    let mut places = no_places(alloc, fields.len())?;
    let mut k = 0u32;
    for field in fields {
        match read_field(
            alloc,
            field,
            root,
            flags,
            cur,
            slots,
            path,
            inside,
            k,
            &mut places,
        ) {
            Ok(()) => k += 1,
            Err(stop) => return Err(stop),
        }
    }
    Ok(places)
}

// One loop calls it, with more parameters than there are registers, so it is put in there.
#[inline(always)]
#[cycle(read)]
fn read_field(
    alloc: Global,
    field: &Field,
    root: &Node,
    flags: &mut ReadCursor<'_>,
    cur: &mut ReadCursor<'_>,
    slots: &mut Row<(u32, i128)>,
    path: &mut Path,
    inside: bool,
    k: u32,
    places: &mut Row<Option<Value>>,
) -> Result<(), Stop>
    requires ready { (around : List ℕ) × (fs : Fields) × FieldsStand (grammar_of root.now) (suc (length path.old)) (with_field (field_of field.now) fs) slots.old around × (presence_count (with_field (field_of field.now) fs) ≡ length flags.old.rest) }
    requires named { IsTrue (field_items_named (field_of field.now)) }
    requires fine { Fine (grammar_of root.now) slots.old }
    ensures read { OnOk result ((done : List (Option Data)) × (map (option_map data_of) places.new ≡ map (option_map data_of) places.old ++ done) × ((place : ℕ) (fs : Fields) → Turn (grammar_of root.now) (record { path = path.old; place = place; inside = inside }) cur.old.origin k (suc k) (with_field (field_of field.now) fs) fs done slots.old slots.new flags.old.rest flags.new.rest cur.old cur.new)) }
    ensures fails { IfErr result (λ e. Tells e (λ r at. (place : ℕ) (fs : Fields) → FieldsStop (grammar_of root.now) (with_field (field_of field.now) fs) flags.old.rest (record { path = path.old; place = place; inside = inside }) cur.old.origin k slots.old cur.old path.new r at)) }
    ensures path { OnOk result (path.new ≡ path.old) }
{
    match field {
        Field::Component {
            node,
            presence,
            slot,
            ..
        } => {
            match read_component(
                alloc, node, presence, *slot, root, flags, cur, slots, path, inside, k,
            ) {
                Ok(place) => {
                    places.push(place)?;
                    Ok(())
                }
                Err(stop) => Err(stop),
            }
        }
        Field::Inserted { node, slot, .. } => {
            read_inserted(node, *slot, root, cur, slots, path, inside, k)
        }
    }
}

#[cycle(read)]
fn read_component(
    alloc: Global,
    node: &Node,
    presence: &Presence,
    slot: Option<u32>,
    root: &Node,
    flags: &mut ReadCursor<'_>,
    cur: &mut ReadCursor<'_>,
    slots: &mut Row<(u32, i128)>,
    path: &mut Path,
    inside: bool,
    k: u32,
) -> Result<Option<Value>, Stop>
    requires ready { (around : List ℕ) × (fs : Fields) × FieldsStand (grammar_of root.now) (suc (length path.old)) (component [] (grammar_of node.now) presence.now None slot fs) slots.old around × (presence_count (component [] (grammar_of node.now) presence.now None slot fs) ≡ length flags.old.rest) }
    requires named { ItemsNamed (grammar_of node.now) }
    requires fine { Fine (grammar_of root.now) slots.old }
    ensures read { IfOk result (λ there. (place : ℕ) (name : List ℕ) (default : Option (List ℕ)) (fs : Fields) → Turn (grammar_of root.now) (record { path = path.old; place = place; inside = inside }) cur.old.origin k (suc k) (component name (grammar_of node.now) presence.now default slot fs) fs (option_map data_of there ∷ []) slots.old slots.new flags.old.rest flags.new.rest cur.old cur.new) }
    ensures fails { IfErr result (λ e. Tells e (λ r at. (place : ℕ) (name : List ℕ) (default : Option (List ℕ)) (fs : Fields) → FieldsStop (grammar_of root.now) (component name (grammar_of node.now) presence.now default slot fs) flags.old.rest (record { path = path.old; place = place; inside = inside }) cur.old.origin k slots.old cur.old path.new r at)) }
    ensures path { OnOk result (path.new ≡ path.old) }
{
    if is_there(presence, flags, slots.items()) {
        match read_present(alloc, node, k, root, cur, slots, path, inside) {
            Ok(value) => {
                note(slots, slot, &value.number())?;
                Ok(Some(value))
            }
            Err(stop) => Err(stop),
        }
    } else {
        Ok(None)
    }
}

// A component that is there. For a number no walk is begun, since nothing stands inside it.
#[cycle(read)]
fn read_present(
    alloc: Global,
    node: &Node,
    k: u32,
    root: &Node,
    cur: &mut ReadCursor<'_>,
    slots: &mut Row<(u32, i128)>,
    path: &mut Path,
    inside: bool,
) -> Result<Value, Stop>
    requires ready { (around : List ℕ) × NodeStands (grammar_of root.now) (suc (length path.old)) (grammar_of node.now) slots.old around }
    requires named { ItemsNamed (grammar_of node.now) }
    requires fine { Fine (grammar_of root.now) slots.old }
    ensures read { IfOk result (λ v. NodeRead (grammar_of root.now) (grammar_of node.now) (data_of v) slots.old slots.new cur.old cur.new) }
    ensures fails { IfErr result (λ e. Tells e (NodeStops (grammar_of root.now) (grammar_of node.now) inside (path.old ++ k ∷ []) slots.old cur.old path.new)) }
    ensures path { OnOk result (path.new ≡ path.old) }
{
    match &node.body {
        Body::Num(leaf) => read_number(cur, node.align, leaf, path, inside, k),
        Body::Octets(_) => read_child(alloc, node, k, root, cur, slots, path, inside),
        Body::Bits(_) => read_child(alloc, node, k, root, cur, slots, path, inside),
        Body::Text(_) => read_child(alloc, node, k, root, cur, slots, path, inside),
        Body::Seq(_) => read_child(alloc, node, k, root, cur, slots, path, inside),
        Body::List(_, _) => read_child(alloc, node, k, root, cur, slots, path, inside),
        Body::Choice(_) => read_child(alloc, node, k, root, cur, slots, path, inside),
        Body::Contained(_, _) => read_child(alloc, node, k, root, cur, slots, path, inside),
    }
}

// A node inside another, at a step from it.
#[cycle(read)]
fn read_child(
    alloc: Global,
    node: &Node,
    k: u32,
    root: &Node,
    cur: &mut ReadCursor<'_>,
    slots: &mut Row<(u32, i128)>,
    path: &mut Path,
    inside: bool,
) -> Result<Value, Stop>
    requires ready { (around : List ℕ) × NodeStands (grammar_of root.now) (suc (length path.old)) (grammar_of node.now) slots.old around }
    requires named { ItemsNamed (grammar_of node.now) }
    requires fine { Fine (grammar_of root.now) slots.old }
    ensures read { IfOk result (λ v. NodeRead (grammar_of root.now) (grammar_of node.now) (data_of v) slots.old slots.new cur.old cur.new) }
    ensures fails { IfErr result (λ e. Tells e (NodeStops (grammar_of root.now) (grammar_of node.now) inside (path.old ++ k ∷ []) slots.old cur.old path.new)) }
    ensures path { OnOk result (path.new ≡ path.old) }
{
    path.push(k);
    match read_node(alloc, node, root, cur, slots, path, inside) {
        Ok(value) => {
            path.pop();
            Ok(value)
        }
        Err(stop) => Err(stop),
    }
}

#[cycle(read)]
fn read_contained(
    alloc: Global,
    node: &Node,
    sizing: &Sizing,
    root: &Node,
    cur: &mut ReadCursor<'_>,
    slots: &mut Row<(u32, i128)>,
    path: &mut Path,
    inside: bool,
    from: u64,
) -> Result<Value, Stop>
    requires ready { (around : List ℕ) × FormStands (grammar_of root.now) (length path.old) (contained sizing.now (grammar_of node.now)) slots.old around }
    requires named { ItemsNamed (grammar_of node.now) }
    requires fine { Fine (grammar_of root.now) slots.old }
    ensures read { IfOk result (λ v. FormRead (grammar_of root.now) (contained sizing.now (grammar_of node.now)) (data_of v) slots.old slots.new cur.old cur.new) }
    ensures fails { IfErr result (λ e. Tells e (FormStops (grammar_of root.now) (contained sizing.now (grammar_of node.now)) (record { path = path.old; place = from; inside = inside }) cur.old.origin slots.old cur.old path.new)) }
    ensures path { OnOk result (path.new ≡ path.old) }
{
    match read_size(cur, sizing, slots.items(), inside, from) {
        Ok(n) => match cur.window(8 * n) {
            Ok(window) => {
                let mut window = window;
                match read_child(alloc, node, 0, root, &mut window, slots, path, true) {
                    Ok(value) => {
                        if window.left() < 8 {
                            Ok(value)
                        } else {
                            Err(Stop::Fails {
                                reason: Reason::ContentSize {
                                    octets: n,
                                    used: window.at(),
                                },
                                at: from,
                            })
                        }
                    }
                    Err(stop) => Err(stop),
                }
            }
            Err(_) => Err(Stop::Fails {
                reason: named(inside, ReadFault::Short),
                at: from,
            }),
        },
        Err(stop) => Err(stop),
    }
}

#[cycle(read)]
fn read_list(
    alloc: Global,
    node: &Node,
    sizing: &Sizing,
    root: &Node,
    cur: &mut ReadCursor<'_>,
    slots: &mut Row<(u32, i128)>,
    path: &mut Path,
    inside: bool,
    from: u64,
) -> Result<Value, Stop>
    requires ready { (around : List ℕ) × FormStands (grammar_of root.now) (length path.old) (list sizing.now (grammar_of node.now)) slots.old around }
    requires named { ItemsNamed (grammar_of node.now) }
    requires fine { Fine (grammar_of root.now) slots.old }
    ensures read { IfOk result (λ v. FormRead (grammar_of root.now) (list sizing.now (grammar_of node.now)) (data_of v) slots.old slots.new cur.old cur.new) }
    ensures fails { IfErr result (λ e. Tells e (FormStops (grammar_of root.now) (list sizing.now (grammar_of node.now)) (record { path = path.old; place = from; inside = inside }) cur.old.origin slots.old cur.old path.new)) }
    ensures path { OnOk result (path.new ≡ path.old) }
{
    if is_ended(&sizing.rule) {
        return read_ended(alloc, node, sizing, root, cur, slots, path, inside, from);
    }
    match read_size(cur, sizing, slots.items(), inside, from) {
        Ok(n) => match read_run(alloc, node, n, root, cur, slots, path, inside) {
            Ok(values) => Ok(Value::List(values)),
            Err(stop) => Err(stop),
        },
        Err(stop) => Err(stop),
    }
}

// So many elements.
#[cycle(read)]
fn read_run(
    alloc: Global,
    node: &Node,
    n: u64,
    root: &Node,
    cur: &mut ReadCursor<'_>,
    slots: &mut Row<(u32, i128)>,
    path: &mut Path,
    inside: bool,
) -> Result<Row<Value>, Stop>
    requires few { n ≤ MOST_SIZE }
    requires ready { (around : List ℕ) × InnerStands (grammar_of root.now) (suc (length path.old)) (grammar_of node.now) slots.old around }
    requires named { ItemsNamed (grammar_of node.now) }
    requires fine { Fine (grammar_of root.now) slots.old }
    ensures read { IfOk result (λ values. (place : ℕ) → (length values ≡ n) × RunTurn (grammar_of root.now) (record { path = path.old; place = place; inside = inside }) cur.old.origin (grammar_of node.now) 0 (map data_of values) slots.old slots.new cur.old cur.new) }
    ensures fails { IfErr result (λ e. Tells e (λ r at. (place : ℕ) → TailStops (grammar_of root.now) counted (record { path = path.old; place = place; inside = inside }) cur.old.origin (grammar_of node.now) n 0 slots.old cur.old path.new r at)) }
    ensures path { OnOk result (path.new ≡ path.old) }
{
    let mut values = Row::new(alloc);
    for i in 0..n {
        match read_child(alloc, node, i as u32, root, cur, slots, path, inside) {
            Ok(value) => values.push(value)?,
            Err(stop) => return Err(stop),
        }
    }
    Ok(values)
}

#[cycle(read)]
fn read_ended(
    alloc: Global,
    node: &Node,
    sizing: &Sizing,
    root: &Node,
    cur: &mut ReadCursor<'_>,
    slots: &mut Row<(u32, i128)>,
    path: &mut Path,
    inside: bool,
    from: u64,
) -> Result<Value, Stop>
    requires ended { (p : List Bool) × (sizing.now.rule ≡ Ended p) }
    requires ready { (around : List ℕ) × FormStands (grammar_of root.now) (length path.old) (list sizing.now (grammar_of node.now)) slots.old around }
    requires named { ItemsNamed (grammar_of node.now) }
    requires fine { Fine (grammar_of root.now) slots.old }
    ensures read { IfOk result (λ v. FormRead (grammar_of root.now) (list sizing.now (grammar_of node.now)) (data_of v) slots.old slots.new cur.old cur.new) }
    ensures fails { IfErr result (λ e. Tells e (FormStops (grammar_of root.now) (list sizing.now (grammar_of node.now)) (record { path = path.old; place = from; inside = inside }) cur.old.origin slots.old cur.old path.new)) }
    ensures path { OnOk result (path.new ≡ path.old) }
{
    match read_elements(
        alloc,
        node,
        pattern_of(&sizing.rule),
        sizing,
        root,
        cur,
        slots,
        path,
        inside,
        from,
    ) {
        Ok(values) => Ok(Value::List(values)),
        Err(stop) => Err(stop),
    }
}

// Elements up to the pattern, which is passed.
#[cycle(read)]
fn read_elements(
    alloc: Global,
    node: &Node,
    end: &Pattern,
    sizing: &Sizing,
    root: &Node,
    cur: &mut ReadCursor<'_>,
    slots: &mut Row<(u32, i128)>,
    path: &mut Path,
    inside: bool,
    from: u64,
) -> Result<Row<Value>, Stop>
    requires ready { (around : List ℕ) × InnerStands (grammar_of root.now) (suc (length path.old)) (grammar_of node.now) slots.old around }
    requires named { ItemsNamed (grammar_of node.now) }
    requires fine { Fine (grammar_of root.now) slots.old }
    ensures read { IfOk result (λ values. EndedRead (grammar_of root.now) inside path.old cur.old.origin (grammar_of node.now) end.now sizing.now (map data_of values) slots.old slots.new cur.old cur.new) }
    ensures fails { IfErr result (λ e. Tells e (TailStops (grammar_of root.now) (ended end.now sizing.now) (record { path = path.old; place = from; inside = inside }) cur.old.origin (grammar_of node.now) (size_of (greatest sizing.now.sizes)) 0 slots.old cur.old path.new)) }
    ensures path { OnOk result (path.new ≡ path.old) }
{
    let most = most_of(sizing);
    let mut values = Row::new(alloc);
    for i in 0..most {
        if stands(cur, end) {
            match pass_end(cur, end, sizing, i, inside, from) {
                Ok(()) => return Ok(values),
                Err(stop) => return Err(stop),
            }
        }
        match read_child(alloc, node, i as u32, root, cur, slots, path, inside) {
            Ok(value) => values.push(value)?,
            Err(stop) => return Err(stop),
        }
    }
    if stands(cur, end) {
        match pass_end(cur, end, sizing, most, inside, from) {
            Ok(()) => Ok(values),
            Err(stop) => Err(stop),
        }
    } else {
        Err(no_end(cur, end, inside, from))
    }
}

#[cycle(read)]
fn read_choice(
    alloc: Global,
    alternatives: &[Alternative],
    rule: ChoiceRule,
    root: &Node,
    cur: &mut ReadCursor<'_>,
    slots: &mut Row<(u32, i128)>,
    path: &mut Path,
    inside: bool,
    from: u64,
) -> Result<Value, Stop>
    requires ready { (around : List ℕ) × FormStands (grammar_of root.now) (length path.old) (choice (alternatives_view alternatives.now) rule) slots.old around }
    requires named { AlternativesItemsNamed (alternatives_view alternatives.now) }
    requires fine { Fine (grammar_of root.now) slots.old }
    ensures read { IfOk result (λ v. FormRead (grammar_of root.now) (choice (alternatives_view alternatives.now) rule) (data_of v) slots.old slots.new cur.old cur.new) }
    ensures fails { IfErr result (λ e. Tells e (FormStops (grammar_of root.now) (choice (alternatives_view alternatives.now) rule) (record { path = path.old; place = from; inside = inside }) cur.old.origin slots.old cur.old path.new)) }
    ensures path { OnOk result (path.new ≡ path.old) }
{
    match pick(cur, alternatives, &rule, slots.items(), root, inside, from) {
        Ok(i) => match read_alternative(alloc, alternatives, i, root, cur, slots, path, inside) {
            Ok(value) => {
                let boxed = Boxed::new(alloc, value)?;
                Ok(Value::Alt(i, boxed))
            }
            Err(stop) => Err(stop),
        },
        Err(stop) => Err(stop),
    }
}

#[cycle(read)]
fn read_alternative(
    alloc: Global,
    alternatives: &[Alternative],
    i: u32,
    root: &Node,
    cur: &mut ReadCursor<'_>,
    slots: &mut Row<(u32, i128)>,
    path: &mut Path,
    inside: bool,
) -> Result<Value, Stop>
    requires there { i < length alternatives.now }
    requires ready { (around : List ℕ) × CasesStand (grammar_of root.now) (suc (length path.old)) (alternatives_view alternatives.now) slots.old around }
    requires named { AlternativesItemsNamed (alternatives_view alternatives.now) }
    requires fine { Fine (grammar_of root.now) slots.old }
    ensures read { IfOk result (λ v. (g : Grammar) → grammar_at (alternatives_view alternatives.now) i ≡ Some g → NodeRead (grammar_of root.now) g (data_of v) slots.old slots.new cur.old cur.new) }
    ensures fails { IfErr result (λ e. Tells e (λ r at. (g : Grammar) → grammar_at (alternatives_view alternatives.now) i ≡ Some g → NodeStops (grammar_of root.now) g inside (path.old ++ i ∷ []) slots.old cur.old path.new r at)) }
    ensures path { OnOk result (path.new ≡ path.old) }
{
    match alternatives.get(i as usize) {
        Some(alternative) => {
            read_child(alloc, &alternative.node, i, root, cur, slots, path, inside)
        }
        None => unreachable!(),
    }
}
