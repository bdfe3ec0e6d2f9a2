//! The trees of ACN modules and of mapping files as texts, with a space before each token.

use acn_acn_syntax::{
    AcnEntry, AcnField, AcnModule, AcnModules, AcnPath, Alignment, Attr, Condition, Encoding,
    Endianness, FieldKind, Literal, MapLine, MapTable, MapTables, Param, ParamKind, Signed,
    SizeAttr,
};
use acn_num::{Name, NoMemory, Row};
use std::alloc::Global;

/// What is still to be printed.
#[derive(Clone, Copy)]
enum Job<'a> {
    /// A token.
    Text(&'a [u8]),
    /// A number.
    Number(u64),
    /// A field.
    Field(&'a AcnField),
}

/// Parts of something, in order.
#[derive(Drop)]
struct Parts<'a> {
    list: Vec<Job<'a>>,
}

fn encoding_of(encoding: Encoding) -> &'static [u8] {
    match encoding {
        Encoding::PosInt => b"pos-int",
        Encoding::TwosComplement => b"twos-complement",
        Encoding::Bcd => b"BCD",
        Encoding::Ascii => b"ASCII",
    }
}

fn endianness_of(endianness: Endianness) -> &'static [u8] {
    match endianness {
        Endianness::Big => b"big",
        Endianness::Little => b"little",
    }
}

fn alignment_of(alignment: Alignment) -> &'static [u8] {
    match alignment {
        Alignment::Byte => b"byte",
        Alignment::Word => b"word",
        Alignment::Dword => b"dword",
    }
}

fn literal_of(literal: &Literal) -> &[u8] {
    match literal {
        Literal::Bits(text) => text.bytes(),
        Literal::Hex(text) => text.bytes(),
    }
}

fn parameter_of(kind: &ParamKind) -> &[u8] {
    match kind {
        ParamKind::Integer => b"INTEGER",
        ParamKind::Boolean => b"BOOLEAN",
        ParamKind::Ref(name) => name.bytes(),
    }
}

fn inserted_of(kind: &FieldKind) -> &[u8] {
    match kind {
        FieldKind::Integer => b"INTEGER",
        FieldKind::Boolean => b"BOOLEAN",
        FieldKind::Null => b"NULL",
        FieldKind::Ref(name) => name.bytes(),
    }
}

impl<'a> Parts<'a> {
    fn push(&mut self, job: Job<'a>) -> Result<(), NoMemory> {
        self.list.push(job)?;
        Ok(())
    }

    fn text(&mut self, text: &'a [u8]) -> Result<(), NoMemory> {
        self.push(Job::Text(text))
    }

    fn name(&mut self, name: &'a Name) -> Result<(), NoMemory> {
        self.push(Job::Text(name.bytes()))
    }

    fn comma(&mut self, at: usize) -> Result<(), NoMemory> {
        if at > 0 { self.text(b",") } else { Ok(()) }
    }

    fn signed(&mut self, number: &Signed) -> Result<(), NoMemory> {
        if number.negative {
            self.text(b"-")?;
        }
        self.push(Job::Number(number.n))
    }

    fn path(&mut self, path: &'a AcnPath) -> Result<(), NoMemory> {
        for (at, name) in path.names.items().iter().enumerate() {
            if at > 0 {
                self.text(b".")?;
            }
            self.name(name)?;
        }
        Ok(())
    }

    fn condition(&mut self, condition: &'a Condition) -> Result<(), NoMemory> {
        self.path(&condition.path)?;
        match &condition.equals {
            Some(number) => {
                self.text(b"==")?;
                self.signed(number)
            }
            None => Ok(()),
        }
    }

    fn size(&mut self, size: &'a SizeAttr) -> Result<(), NoMemory> {
        self.text(b"size")?;
        match size {
            SizeAttr::Number(n) => self.push(Job::Number(*n)),
            SizeAttr::NullTerminated => self.text(b"null-terminated"),
            SizeAttr::Path(path) => self.path(path),
        }
    }

    // A word, and another behind it.
    fn two(&mut self, first: &'a [u8], second: &'a [u8]) -> Result<(), NoMemory> {
        self.text(first)?;
        self.text(second)
    }

    fn attribute(&mut self, attribute: &'a Attr) -> Result<(), NoMemory> {
        match attribute {
            Attr::Size(size) => self.size(size),
            Attr::Encoding(encoding) => self.two(b"encoding", encoding_of(*encoding)),
            Attr::Endianness(order) => self.two(b"endianness", endianness_of(*order)),
            Attr::AlignToNext(to) => self.two(b"align-to-next", alignment_of(*to)),
            Attr::EncodeValues => self.text(b"encode-values"),
            Attr::TrueValue(literal) => self.two(b"true-value", literal_of(literal)),
            Attr::FalseValue(literal) => self.two(b"false-value", literal_of(literal)),
            Attr::Pattern(literal) => self.two(b"pattern", literal_of(literal)),
            Attr::TerminationPattern(end) => self.two(b"termination-pattern", literal_of(end)),
            Attr::PresentWhen(conditions) => {
                self.text(b"present-when")?;
                for condition in conditions.items() {
                    self.condition(condition)?;
                }
                Ok(())
            }
            Attr::Determinant(path) => {
                self.text(b"determinant")?;
                self.path(path)
            }
            Attr::MappingFunction(name) => self.two(b"mapping-function", name.bytes()),
        }
    }

    fn attributes(&mut self, attributes: &'a [Attr]) -> Result<(), NoMemory> {
        self.text(b"[")?;
        for (at, attribute) in attributes.iter().enumerate() {
            self.comma(at)?;
            self.attribute(attribute)?;
        }
        self.text(b"]")
    }

    fn fields(&mut self, fields: &'a Option<Row<AcnField>>) -> Result<(), NoMemory> {
        let Some(fields) = fields else {
            return Ok(());
        };
        self.text(b"{")?;
        for (at, field) in fields.items().iter().enumerate() {
            self.comma(at)?;
            self.push(Job::Field(field))?;
        }
        self.text(b"}")
    }

    fn arguments(&mut self, arguments: &'a [AcnPath]) -> Result<(), NoMemory> {
        if arguments.is_empty() {
            return Ok(());
        }
        self.text(b"<")?;
        for (at, argument) in arguments.iter().enumerate() {
            self.comma(at)?;
            self.path(argument)?;
        }
        self.text(b">")
    }

    fn parameters(&mut self, parameters: &'a [Param]) -> Result<(), NoMemory> {
        if parameters.is_empty() {
            return Ok(());
        }
        self.text(b"<")?;
        for (at, parameter) in parameters.iter().enumerate() {
            self.comma(at)?;
            self.two(parameter_of(&parameter.kind), b":")?;
            self.name(&parameter.name)?;
        }
        self.text(b">")
    }

    fn field(&mut self, field: &'a AcnField) -> Result<(), NoMemory> {
        match field {
            AcnField::Plain {
                name,
                arguments,
                attributes,
                fields,
            } => {
                self.name(name)?;
                self.arguments(arguments.items())?;
                self.attributes(attributes.items())?;
                self.fields(fields)
            }
            AcnField::Inserted {
                name,
                kind,
                attributes,
            } => {
                self.two(name.bytes(), inserted_of(kind))?;
                self.attributes(attributes.items())
            }
            AcnField::Number(name, number) => {
                self.two(name.bytes(), b"(")?;
                self.signed(number)?;
                self.text(b")")
            }
        }
    }

    fn entry(&mut self, entry: &'a AcnEntry) -> Result<(), NoMemory> {
        self.name(&entry.name)?;
        self.parameters(entry.parameters.items())?;
        self.attributes(entry.attributes.items())?;
        self.fields(&entry.fields)
    }

    fn module(&mut self, module: &'a AcnModule) -> Result<(), NoMemory> {
        self.name(&module.name)?;
        self.two(b"DEFINITIONS", b"::=")?;
        self.text(b"BEGIN")?;
        for entry in module.entries.items() {
            self.entry(entry)?;
        }
        self.text(b"END")
    }

    fn line(&mut self, line: &MapLine) -> Result<(), NoMemory> {
        self.signed(&line.first)?;
        if let Some(last) = &line.last {
            self.text(b"..")?;
            self.signed(last)?;
        }
        self.text(b"=")?;
        self.signed(&line.image)
    }

    fn table(&mut self, table: &'a MapTable) -> Result<(), NoMemory> {
        self.two(table.name.bytes(), b"{")?;
        for line in table.lines.items() {
            self.line(line)?;
        }
        self.text(b"}")
    }
}

// The text of one part, or the parts that it is made of.
fn print<'a>(
    alloc: Global,
    job: Job<'a>,
    out: &mut Vec<u8>,
    parts: &mut Parts<'a>,
) -> Result<(), NoMemory> {
    match job {
        Job::Text(text) => {
            out.push(b' ')?;
            out.extend_from_slice(text)?;
            Ok(())
        }
        Job::Number(n) => {
            let text = format!(in alloc; " {n}")?;
            out.extend_from_slice(text.as_bytes())?;
            Ok(())
        }
        Job::Field(field) => parts.field(field),
    }
}

// Prints parts and those that they are made of, a million at most.
fn print_all(alloc: Global, parts: Parts<'_>, out: &mut Vec<u8>) -> Result<(), NoMemory> {
    let mut parts = parts;
    let mut todo = Vec::new(alloc);
    for _ in 0..1_000_000 {
        for part in parts.list.into_iter().rev() {
            todo.push(part)?;
        }
        parts = Parts {
            list: Vec::new(alloc),
        };
        match todo.pop() {
            None => return Ok(()),
            Some(job) => print(alloc, job, out, &mut parts)?,
        }
    }
    Ok(())
}

/// The text of ACN modules.
pub fn acn_in_words(alloc: Global, tree: &AcnModules) -> Result<Vec<u8>, NoMemory> {
    let mut out = Vec::new(alloc);
    let mut parts = Parts {
        list: Vec::new(alloc),
    };
    for module in tree.modules.items() {
        parts.module(module)?;
    }
    print_all(alloc, parts, &mut out)?;
    Ok(out)
}

/// The text of tables.
pub fn map_in_words(alloc: Global, tree: &MapTables) -> Result<Vec<u8>, NoMemory> {
    let mut out = Vec::new(alloc);
    let mut parts = Parts {
        list: Vec::new(alloc),
    };
    for table in tree.tables.items() {
        parts.table(table)?;
    }
    print_all(alloc, parts, &mut out)?;
    Ok(out)
}
