//! The tree of ASN.1 modules as a text, with a space before each token.

use acn_asn_syntax::{
    Alternative, AsnBase, AsnModule, AsnModules, AsnRange, AsnType, AsnValue, Assign, Component,
    Constraint, Element, Exports, Import, Item, Meet, Named, Oid, OidPart, Part, Rest, Set, Tag,
    TagClass, TagMode, Tagging,
};
use acn_num::{Name, NoMemory};
use std::alloc::Global;

/// What is still to be printed.
#[derive(Clone, Copy)]
enum Job<'a> {
    /// A token.
    Text(&'a [u8]),
    /// A number.
    Number(u64),
    /// A type.
    Type(&'a AsnType),
    /// A constraint.
    Constraint(&'a Constraint),
    /// A set.
    Set(&'a Set),
    /// An element.
    Element(&'a Element),
}

/// Parts of something, in order.
#[derive(Drop)]
struct Parts<'a> {
    list: Vec<Job<'a>>,
}

impl<'a> Parts<'a> {
    fn push(&mut self, job: Job<'a>) -> Result<(), NoMemory> {
        self.list.push(job)?;
        Ok(())
    }

    fn text(&mut self, text: &'a [u8]) -> Result<(), NoMemory> {
        self.push(Job::Text(text))
    }

    fn name(&mut self, name: &'a Name) -> Result<(), NoMemory> {
        self.push(Job::Text(name.bytes()))
    }

    fn signed(&mut self, negative: bool, n: u64) -> Result<(), NoMemory> {
        if negative {
            self.text(b"-")?;
        }
        self.push(Job::Number(n))
    }

    fn comma(&mut self, at: usize) -> Result<(), NoMemory> {
        if at > 0 { self.text(b",") } else { Ok(()) }
    }

    fn names(&mut self, names: &'a [Name]) -> Result<(), NoMemory> {
        for (at, name) in names.iter().enumerate() {
            self.comma(at)?;
            self.name(name)?;
        }
        Ok(())
    }

    fn oid(&mut self, oid: &'a Option<Oid>) -> Result<(), NoMemory> {
        let Some(oid) = oid else {
            return Ok(());
        };
        self.text(b"{")?;
        for part in oid.parts.items() {
            match part {
                OidPart::Word(name) => self.name(name)?,
                OidPart::Number(n) => self.push(Job::Number(*n))?,
                OidPart::Grouped(n) => {
                    self.text(b"(")?;
                    self.push(Job::Number(*n))?;
                    self.text(b")")?;
                }
            }
        }
        self.text(b"}")
    }

    fn exports(&mut self, exports: &'a Exports) -> Result<(), NoMemory> {
        self.text(b"EXPORTS")?;
        match exports {
            Exports::All => self.text(b"ALL")?,
            Exports::Some(names) => self.names(names.items())?,
        }
        self.text(b";")
    }

    fn imports(&mut self, imports: &'a [Import]) -> Result<(), NoMemory> {
        self.text(b"IMPORTS")?;
        for import in imports {
            self.names(import.names.items())?;
            self.text(b"FROM")?;
            self.name(&import.module)?;
            self.oid(&import.oid)?;
        }
        self.text(b";")
    }

    fn assign(&mut self, assign: &'a Assign) -> Result<(), NoMemory> {
        match assign {
            Assign::TypeIs(name, of) => {
                self.name(name)?;
                self.text(b"::=")?;
                self.push(Job::Type(of))
            }
            Assign::ValueIs(name, of, value) => {
                self.name(name)?;
                self.push(Job::Type(of))?;
                self.text(b"::=")?;
                self.value(value)
            }
        }
    }

    fn module(&mut self, module: &'a AsnModule) -> Result<(), NoMemory> {
        self.name(&module.name)?;
        self.oid(&module.oid)?;
        self.text(b"DEFINITIONS")?;
        if let Some(tagging) = module.tags {
            self.text(word_of(tagging))?;
            self.text(b"TAGS")?;
        }
        self.text(b"::=")?;
        self.text(b"BEGIN")?;
        if let Some(exports) = &module.exports {
            self.exports(exports)?;
        }
        if let Some(imports) = &module.imports {
            self.imports(imports.items())?;
        }
        for item in module.items.items() {
            self.assign(item)?;
        }
        self.text(b"END")
    }

    fn value(&mut self, value: &'a AsnValue) -> Result<(), NoMemory> {
        match value {
            AsnValue::Number(negative, n) => self.signed(*negative, *n),
            AsnValue::True => self.text(b"TRUE"),
            AsnValue::False => self.text(b"FALSE"),
            AsnValue::Null => self.text(b"NULL"),
            AsnValue::Ref(name) => self.name(name),
            AsnValue::Bits(text) => self.name(text),
            AsnValue::Hex(text) => self.name(text),
            AsnValue::Text(text) => self.name(text),
        }
    }

    fn tag(&mut self, tag: Tag) -> Result<(), NoMemory> {
        self.text(b"[")?;
        match tag.class {
            None => {}
            Some(TagClass::Universal) => self.text(b"UNIVERSAL")?,
            Some(TagClass::Application) => self.text(b"APPLICATION")?,
            Some(TagClass::Private) => self.text(b"PRIVATE")?,
        }
        self.push(Job::Number(tag.number))?;
        self.text(b"]")?;
        match tag.mode {
            None => Ok(()),
            Some(TagMode::Implicit) => self.text(b"IMPLICIT"),
            Some(TagMode::Explicit) => self.text(b"EXPLICIT"),
        }
    }

    fn numbered(&mut self, name: &'a Name, number: (bool, u64)) -> Result<(), NoMemory> {
        self.name(name)?;
        self.text(b"(")?;
        self.signed(number.0, number.1)?;
        self.text(b")")
    }

    fn named(&mut self, named: &'a [Named]) -> Result<(), NoMemory> {
        self.text(b"{")?;
        for (at, one) in named.iter().enumerate() {
            self.comma(at)?;
            self.numbered(&one.name, (one.negative, one.number))?;
        }
        self.text(b"}")
    }

    fn items(&mut self, items: &'a [Item]) -> Result<(), NoMemory> {
        self.text(b"{")?;
        for (at, item) in items.iter().enumerate() {
            self.comma(at)?;
            match item.number {
                None => self.name(&item.name)?,
                Some(number) => self.numbered(&item.name, number)?,
            }
        }
        self.text(b"}")
    }

    fn component(&mut self, component: &'a Component) -> Result<(), NoMemory> {
        self.name(&component.name)?;
        self.push(Job::Type(&component.of))?;
        match &component.rest {
            Rest::Required => Ok(()),
            Rest::Optional => self.text(b"OPTIONAL"),
            Rest::Default(value) => {
                self.text(b"DEFAULT")?;
                self.value(value)
            }
        }
    }

    fn components(&mut self, components: &'a [Component]) -> Result<(), NoMemory> {
        self.text(b"{")?;
        for (at, component) in components.iter().enumerate() {
            self.comma(at)?;
            self.component(component)?;
        }
        self.text(b"}")
    }

    fn list(&mut self, of: &'a Option<Constraint>, element: &'a AsnType) -> Result<(), NoMemory> {
        self.text(b"SEQUENCE")?;
        if let Some(constraint) = of {
            self.push(Job::Constraint(constraint))?;
        }
        self.text(b"OF")?;
        self.push(Job::Type(element))
    }

    fn alternatives(&mut self, alternatives: &'a [Alternative]) -> Result<(), NoMemory> {
        self.text(b"{")?;
        for (at, alternative) in alternatives.iter().enumerate() {
            self.comma(at)?;
            self.name(&alternative.name)?;
            self.push(Job::Type(&alternative.of))?;
        }
        self.text(b"}")
    }

    fn reference(&mut self, module: &'a Option<Name>, name: &'a Name) -> Result<(), NoMemory> {
        if let Some(module) = module {
            self.name(module)?;
            self.text(b".")?;
        }
        self.name(name)
    }

    fn base(&mut self, base: &'a AsnBase) -> Result<(), NoMemory> {
        match base {
            AsnBase::Boolean => self.text(b"BOOLEAN"),
            AsnBase::Null => self.text(b"NULL"),
            AsnBase::Integer(named) => {
                self.text(b"INTEGER")?;
                match named {
                    None => Ok(()),
                    Some(named) => self.named(named.items()),
                }
            }
            AsnBase::Enumerated(items) => {
                self.text(b"ENUMERATED")?;
                self.items(items.items())
            }
            AsnBase::OctetString => {
                self.text(b"OCTET")?;
                self.text(b"STRING")
            }
            AsnBase::BitString => {
                self.text(b"BIT")?;
                self.text(b"STRING")
            }
            AsnBase::Ia5String => self.text(b"IA5String"),
            AsnBase::Sequence(components) => {
                self.text(b"SEQUENCE")?;
                self.components(components.items())
            }
            AsnBase::SequenceOf(constraint, of) => self.list(constraint, of.get()),
            AsnBase::Choice(alternatives) => {
                self.text(b"CHOICE")?;
                self.alternatives(alternatives.items())
            }
            AsnBase::Ref(module, name) => self.reference(module, name),
        }
    }

    fn a_type(&mut self, of: &'a AsnType) -> Result<(), NoMemory> {
        if let Some(tag) = of.tag {
            self.tag(tag)?;
        }
        self.base(&of.base)?;
        for constraint in of.constraints.items() {
            self.push(Job::Constraint(constraint))?;
        }
        Ok(())
    }

    fn group(&mut self, set: &'a Set) -> Result<(), NoMemory> {
        self.text(b"(")?;
        self.push(Job::Set(set))?;
        self.text(b")")
    }

    fn constraint(&mut self, constraint: &'a Constraint) -> Result<(), NoMemory> {
        match constraint {
            Constraint::Set(set) => self.group(set),
            Constraint::Size(set) => {
                self.text(b"SIZE")?;
                self.group(set)
            }
            Constraint::Containing(of) => {
                self.text(b"(")?;
                self.text(b"CONTAINING")?;
                self.push(Job::Type(of.get()))?;
                self.text(b")")
            }
        }
    }

    fn part(&mut self, part: &'a Part) -> Result<(), NoMemory> {
        self.push(Job::Element(&part.element))?;
        if let Some(but) = &part.but {
            self.text(b"EXCEPT")?;
            self.push(Job::Element(but))?;
        }
        Ok(())
    }

    fn meet(&mut self, meet: &'a Meet) -> Result<(), NoMemory> {
        self.part(&meet.first)?;
        for (is_word, part) in meet.more.items() {
            if *is_word {
                self.text(b"INTERSECTION")?;
            } else {
                self.text(b"^")?;
            }
            self.part(part)?;
        }
        Ok(())
    }

    fn set(&mut self, set: &'a Set) -> Result<(), NoMemory> {
        match set {
            Set::AllExcept(element) => {
                self.text(b"ALL")?;
                self.text(b"EXCEPT")?;
                self.push(Job::Element(element))
            }
            Set::Union(first, more) => {
                self.meet(first)?;
                for (is_word, meet) in more.items() {
                    if *is_word {
                        self.text(b"UNION")?;
                    } else {
                        self.text(b"|")?;
                    }
                    self.meet(meet)?;
                }
                Ok(())
            }
        }
    }

    fn range(&mut self, range: &'a AsnRange) -> Result<(), NoMemory> {
        match &range.low {
            None => self.text(b"MIN")?,
            Some(value) => self.value(value)?,
        }
        if range.low_out {
            self.text(b"<")?;
        }
        self.text(b"..")?;
        if range.high_out {
            self.text(b"<")?;
        }
        match &range.high {
            None => self.text(b"MAX"),
            Some(value) => self.value(value),
        }
    }

    fn element(&mut self, element: &'a Element) -> Result<(), NoMemory> {
        match element {
            Element::Value(value) => self.value(value),
            Element::Range(range) => self.range(range),
            Element::SizeOf(set) => {
                self.text(b"SIZE")?;
                self.group(set.get())
            }
            Element::From(set) => {
                self.text(b"FROM")?;
                self.group(set.get())
            }
            Element::Inner(set) => self.group(set.get()),
        }
    }
}

fn word_of(tagging: Tagging) -> &'static [u8] {
    match tagging {
        Tagging::Explicit => b"EXPLICIT",
        Tagging::Implicit => b"IMPLICIT",
        Tagging::Automatic => b"AUTOMATIC",
    }
}

/// The text of one part, or the parts that it is made of.
fn print<'a>(
    alloc: Global,
    job: Job<'a>,
    out: &mut Vec<u8>,
    parts: &mut Parts<'a>,
) -> Result<(), NoMemory> {
    match job {
        Job::Text(text) => {
            out.push(b' ')?;
            out.extend_from_slice(text)?;
            Ok(())
        }
        Job::Number(n) => {
            let text = format!(in alloc; " {n}")?;
            out.extend_from_slice(text.as_bytes())?;
            Ok(())
        }
        Job::Type(of) => parts.a_type(of),
        Job::Constraint(constraint) => parts.constraint(constraint),
        Job::Set(set) => parts.set(set),
        Job::Element(element) => parts.element(element),
    }
}

// Prints parts and those that they are made of, a million at most.
fn print_all(alloc: Global, parts: Parts<'_>, out: &mut Vec<u8>) -> Result<(), NoMemory> {
    let mut parts = parts;
    let mut todo = Vec::new(alloc);
    for _ in 0..1_000_000 {
        for part in parts.list.into_iter().rev() {
            todo.push(part)?;
        }
        parts = Parts {
            list: Vec::new(alloc),
        };
        match todo.pop() {
            None => return Ok(()),
            Some(job) => print(alloc, job, out, &mut parts)?,
        }
    }
    Ok(())
}

/// The text of modules.
pub fn asn_in_words(alloc: Global, tree: &AsnModules) -> Result<Vec<u8>, NoMemory> {
    let mut out = Vec::new(alloc);
    let mut parts = Parts {
        list: Vec::new(alloc),
    };
    for module in tree.modules.items() {
        parts.module(module)?;
    }
    print_all(alloc, parts, &mut out)?;
    Ok(out)
}

/// The text of a constraint.
pub fn constraint_in_words(alloc: Global, of: &Constraint) -> Result<Vec<u8>, NoMemory> {
    let mut out = Vec::new(alloc);
    let mut parts = Parts {
        list: Vec::new(alloc),
    };
    parts.push(Job::Constraint(of))?;
    print_all(alloc, parts, &mut out)?;
    Ok(out)
}

/// The text of a value.
pub fn value_in_words(alloc: Global, value: &AsnValue) -> Result<Vec<u8>, NoMemory> {
    let mut out = Vec::new(alloc);
    let mut parts = Parts {
        list: Vec::new(alloc),
    };
    parts.value(value)?;
    print_all(alloc, parts, &mut out)?;
    Ok(out)
}

/// The text of what a type is but for its constraints.
pub fn base_in_words(alloc: Global, of: &AsnType) -> Result<Vec<u8>, NoMemory> {
    let mut out = Vec::new(alloc);
    let mut parts = Parts {
        list: Vec::new(alloc),
    };
    parts.base(&of.base)?;
    print_all(alloc, parts, &mut out)?;
    Ok(out)
}
