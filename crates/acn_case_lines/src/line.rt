/// What a line of a case file says.
#[derive(Clone, Copy, Drop)]
pub enum Line<'a> {
    /// A case, up to its arrow.
    Case(&'a str),
    /// A comment, or nothing.
    Note,
    /// Anything else.
    Other(&'a str),
}

/// What a line says.
pub fn line_of(line: &str) -> Line<'_> {
    if line.is_empty() || line.starts_with("#") {
        return Line::Note;
    }
    match line.split_once("=>") {
        Some((case, _)) => Line::Case(case),
        None => Line::Other(line),
    }
}
