//! What a tree is, in words.

ghost use Rattle.acn_grammar.specs.View.{grammar_of};
ghost use Rattle.acn_grammar.specs.ItemsNamed.{ItemsNamed};

use crate::fault::fault_in_words;
use acn_case_lines::{wide, word};
use acn_case_trees::{unfit_in_words, value_in_words, value_of};
use acn_check::check;
use acn_num::{Boxed, NoMemory, Path};
use acn_tree::{
    Body, Bounds, Draw, Node, NumLeaf, Tree, Value, interval, items_named, make, meets, node_at,
    node_interval, shaped, value_count,
};
use std::alloc::Global;

fn bounds_in_words(alloc: Global, bounds: Bounds) -> Result<String, NoMemory> {
    Ok(format!(in alloc; "{}..{}", bounds.least, bounds.greatest)?)
}

// What `check` answers of a tree, and again of the tree that it hands back.
fn checked(alloc: Global, tree: Boxed<Tree>, again: bool) -> Result<String, NoMemory> {
    match check(alloc, tree.into_inner()) {
        Ok(_) => Ok("Ok".to_string(alloc)?),
        Err((tree, fault)) => {
            let words = fault_in_words(alloc, &fault)?;
            if again {
                return twice(alloc, tree, words.as_str());
            }
            Ok(words)
        }
    }
}

fn twice(alloc: Global, tree: Tree, first: &str) -> Result<String, NoMemory> {
    match check(alloc, tree) {
        Ok(_) => Ok(format!(in alloc; "{first}, Ok")?),
        Err((_, fault)) => {
            let words = fault_in_words(alloc, &fault)?;
            Ok(format!(in alloc; "{first}, {words}")?)
        }
    }
}

// The path of a word: steps joined by full stops, or `root`. None comes where it has more than 64 steps.
fn path_of(text: &str) -> Option<Path> {
    let mut path = Path::new();
    if text != "root" {
        for step in text.split(".") {
            if path.steps().len() > 63 {
                return None;
            }
            path.push(step.parse::<u32>().unwrap_or(u32::MAX));
        }
    }
    Some(path)
}

fn leaf_in_words(alloc: Global, leaf: &NumLeaf) -> Result<String, NoMemory> {
    let mut words = format!(in alloc; "number")?;
    for (low, high) in leaf.set.ranges() {
        write!(words, " {low}..{high}")?;
    }
    Ok(words)
}

fn kind_word(body: &Body) -> &'static str {
    match body {
        Body::Num(_) => "number",
        Body::Octets(_) => "octets",
        Body::Bits(_) => "bits",
        Body::Text(_) => "text",
        Body::Seq(_) => "sequence",
        Body::List(_, _) => "list",
        Body::Choice(_) => "choice",
        Body::Contained(_, _) => "contained",
    }
}

fn node_in_words(alloc: Global, node: &Node) -> Result<String, NoMemory> {
    match &node.body {
        Body::Num(leaf) => leaf_in_words(alloc, leaf),
        other => Ok(kind_word(other).to_string(alloc)?),
    }
}

// The kind of the node at a path, or its bounds.
fn node_told(alloc: Global, tree: &Tree, text: &str, bounds: bool) -> Result<String, NoMemory> {
    let Some(path) = path_of(text) else {
        return Ok("too long".to_string(alloc)?);
    };
    match node_at(tree, &path) {
        Some(node) if bounds => bounds_in_words(alloc, node_interval(node)),
        Some(node) => node_in_words(alloc, node),
        None => Ok("none".to_string(alloc)?),
    }
}

fn meeting_in_words(alloc: Global, tree: &Tree, value: &Value) -> Result<String, NoMemory> {
    match meets(tree.root(), value) {
        Ok(()) => Ok("Ok".to_string(alloc)?),
        Err(unfit) => unfit_in_words(alloc, &unfit),
    }
}

// Whether a value meets the tree's constraints, or has its shape alone.
fn value_told(alloc: Global, tree: &Tree, words: &[&str], shape: bool) -> Result<String, NoMemory> {
    match value_of(alloc, words)? {
        Some(value) if shape => Ok(format!(in alloc; "{}", shaped(tree.root(), value.get()))?),
        Some(value) => meeting_in_words(alloc, tree, value.get()),
        None => Ok("no value".to_string(alloc)?),
    }
}

// The next value in words.
fn next_made(alloc: Global, tree: &Tree, draw: &mut Draw) -> Result<String, NoMemory>
    requires { ItemsNamed (grammar_of tree.now.root) }
{
    let value = Boxed::new(alloc, make(alloc, tree, draw)?)?;
    value_in_words(alloc, value.get())
}

// The first two values that are made from a start.
fn made_told(alloc: Global, tree: &Tree, start: u64) -> Result<String, NoMemory> {
    if !items_named(tree) {
        return Ok("not named".to_string(alloc)?);
    }
    let mut draw = Draw::new(start);
    let first = next_made(alloc, tree, &mut draw)?;
    let second = next_made(alloc, tree, &mut draw)?;
    Ok(format!(in alloc; "{} ;{second}", first.as_str().trim())?)
}

/// The numbers that are drawn from a start, each below the next word.
pub fn draws_told(alloc: Global, words: &[&str]) -> Result<String, NoMemory> {
    let mut draw = Draw::new(wide(words, 0));
    let mut told = String::new(alloc);
    for word in words.get(1..).unwrap_or(&[]) {
        let count = word.parse::<u128>().unwrap_or(0);
        if count > 0 {
            write!(told, " {}", draw.pick(count))?;
        }
    }
    Ok(told.as_str().trim().to_string(alloc)?)
}

// What a look at a tree answers.
fn looked_at(alloc: Global, tree: &Tree, words: &[&str]) -> Result<String, NoMemory> {
    let rest = words.get(1..).unwrap_or(&[]);
    match word(words, 0) {
        "form" => Ok("Ok".to_string(alloc)?),
        "values" => Ok(format!(in alloc; "{}", value_count(tree))?),
        "bits" => bounds_in_words(alloc, interval(tree)),
        "bits-at" => node_told(alloc, tree, word(rest, 0), true),
        "named" => Ok(format!(in alloc; "{}", items_named(tree))?),
        "at" => node_told(alloc, tree, word(rest, 0), false),
        "meets" => value_told(alloc, tree, rest, false),
        "shaped" => value_told(alloc, tree, rest, true),
        "make" => made_told(alloc, tree, wide(rest, 0)),
        _ => Ok("not understood".to_string(alloc)?),
    }
}

/// What a question of a tree is answered that need not be accepted.
pub fn tree_told(alloc: Global, tree: Boxed<Tree>, words: &[&str]) -> Result<String, NoMemory> {
    match word(words, 0) {
        "check" => checked(alloc, tree, false),
        "check-twice" => checked(alloc, tree, true),
        _ => looked_at(alloc, tree.get(), words),
    }
}
