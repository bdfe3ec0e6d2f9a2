//! A tree that is built from its lines. What holds a node holds it in a box.

use acn_num::{Boxed, Name, NoMemory, Row};
use acn_tree::{
    Alternative, Body, Choice, ChoiceRule, Field, Node, Presence, Seq, Sizing, Test, Tree,
};
use std::alloc::Global;

/// What a node is in the one around it.
#[derive(Clone, Copy, Drop)]
pub enum Role {
    /// The root, or a component.
    Component,
    /// A component that may be absent, which a bit tells.
    Optional,
    /// A component that may be absent, which conditions tell.
    When,
    /// An inserted field.
    Inserted,
    /// An alternative.
    Alternative,
    /// The element of a list, or the content of octets.
    Element,
}

/// What stands in front of a node.
#[derive(Drop)]
pub struct Head {
    /// What it is.
    pub role: Role,
    /// Its name.
    pub name: Name,
    /// The slot that it fills.
    pub slot: Option<u32>,
    /// To how many bits it is aligned.
    pub align: u32,
    /// Its conditions.
    pub tests: Row<Test>,
}

/// What a node with parts is.
#[derive(Drop)]
pub enum What {
    /// A SEQUENCE, at which these slots are at home.
    Sequence(Row<u32>),
    /// A CHOICE.
    Choice(ChoiceRule),
    /// A list.
    List(Sizing),
    /// Octets with a content.
    Contained(Sizing),
}

#[derive(Drop)]
struct Open {
    head: Head,
    what: What,
    fields: Row<Field>,
    alternatives: Row<Alternative>,
    element: Option<Boxed<Node>>,
}

/// What the lines of a tree give.
#[derive(Drop)]
pub enum Built {
    /// A line isn't understood, or a node isn't ended.
    Unknown,
    /// A root that is none of a well-formed tree.
    NoTree,
    /// A tree.
    Tree(Boxed<Tree>),
}

/// The nodes that aren't ended, and the last root that was.
#[derive(Drop)]
pub struct Building {
    open: Vec<Open>,
    built: Built,
    is_understood: bool,
}

fn presence_of(role: Role, tests: Row<Test>) -> Presence {
    match role {
        Role::When => Presence::When(tests),
        Role::Optional => Presence::Bit,
        _ => Presence::Always,
    }
}

fn component_of(head: Head, node: Boxed<Node>) -> Field {
    Field::Component {
        name: head.name,
        node: node.into_inner(),
        presence: presence_of(head.role, head.tests),
        default: None,
        slot: head.slot,
    }
}

fn inserted_of(head: Head, node: Boxed<Node>) -> Field {
    Field::Inserted {
        name: head.name,
        node: node.into_inner(),
        slot: head.slot,
    }
}

fn alternative_of(head: Head, node: Boxed<Node>) -> Alternative {
    Alternative {
        name: head.name,
        node: node.into_inner(),
        tests: head.tests,
    }
}

impl Open {
    fn take(&mut self, head: Head, node: Boxed<Node>) -> Result<(), NoMemory> {
        match head.role {
            Role::Alternative => self.alternatives.push(alternative_of(head, node)),
            Role::Inserted => self.fields.push(inserted_of(head, node)),
            Role::Element => {
                self.element = Some(node);
                Ok(())
            }
            _ => self.fields.push(component_of(head, node)),
        }
    }
}

fn list_of(sizing: Sizing, element: Option<Boxed<Node>>) -> Option<Body> {
    match element {
        Some(element) => Some(Body::List(sizing, element)),
        None => None,
    }
}

fn contained_of(sizing: Sizing, element: Option<Boxed<Node>>) -> Option<Body> {
    match element {
        Some(element) => Some(Body::Contained(sizing, element)),
        None => None,
    }
}

fn body_of(
    what: What,
    fields: Row<Field>,
    alternatives: Row<Alternative>,
    element: Option<Boxed<Node>>,
) -> Option<Body> {
    match what {
        What::Sequence(home) => Some(Body::Seq(Seq { fields, home })),
        What::Choice(rule) => Some(Body::Choice(Choice { alternatives, rule })),
        What::List(sizing) => list_of(sizing, element),
        What::Contained(sizing) => contained_of(sizing, element),
    }
}

fn boxed(alloc: Global, align: u32, body: Body) -> Result<Boxed<Node>, NoMemory> {
    Boxed::new(alloc, Node { align, body })
}

fn some_boxed(
    alloc: Global,
    align: u32,
    body: Option<Body>,
) -> Result<Option<Boxed<Node>>, NoMemory> {
    match body {
        Some(body) => Ok(Some(boxed(alloc, align, body)?)),
        None => Ok(None),
    }
}

// The tree of this root, if it is well formed.
fn formed(alloc: Global, root: Boxed<Node>) -> Result<Built, NoMemory> {
    let name = Name::copy(alloc, b"T")?;
    match Tree::form(name, root.into_inner()) {
        Ok(tree) => Ok(Built::Tree(Boxed::new(alloc, tree)?)),
        Err(_) => Ok(Built::NoTree),
    }
}

impl Building {
    /// Nothing.
    pub fn new(alloc: Global) -> Building {
        Building {
            open: Vec::new(alloc),
            built: Built::Unknown,
            is_understood: true,
        }
    }

    /// Notes a line that isn't understood.
    pub fn is_not_understood(&mut self) {
        self.is_understood = false;
    }

    /// What the lines give.
    pub fn built(self) -> Built {
        if self.is_understood && self.open.is_empty() {
            self.built
        } else {
            Built::Unknown
        }
    }

    /// Begins a node with parts.
    pub fn begin(&mut self, alloc: Global, head: Head, what: What) -> Result<(), NoMemory> {
        self.open.push(Open {
            head,
            what,
            fields: Row::new(alloc),
            alternatives: Row::new(alloc),
            element: None,
        })?;
        Ok(())
    }

    fn put(&mut self, alloc: Global, head: Head, node: Boxed<Node>) -> Result<(), NoMemory> {
        match self.open.last_mut() {
            Some(open) => open.take(head, node),
            None => {
                self.built = formed(alloc, node)?;
                Ok(())
            }
        }
    }

    /// Adds a node without parts, if there is one.
    pub fn add(&mut self, alloc: Global, head: Head, body: Option<Body>) -> Result<(), NoMemory> {
        match some_boxed(alloc, head.align, body)? {
            Some(node) => self.put(alloc, head, node),
            None => {
                self.is_understood = false;
                Ok(())
            }
        }
    }

    /// Ends the last node that was begun.
    pub fn end(&mut self, alloc: Global) -> Result<(), NoMemory> {
        match self.open.pop() {
            Some(open) => {
                let Open {
                    head,
                    what,
                    fields,
                    alternatives,
                    element,
                } = open;
                self.add(alloc, head, body_of(what, fields, alternatives, element))
            }
            None => {
                self.is_understood = false;
                Ok(())
            }
        }
    }
}
