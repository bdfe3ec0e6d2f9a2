//! What a file holds, by its name.

ghost use Rattle.std.specs.Prelude.{◌≡◌};
ghost use Rattle.acn_sources.specs.Names as spec;

/// What a file holds.
#[derive(Clone, Copy)]
pub enum FileKind {
    /// Modules of ASN.1.
    Asn,
    /// Modules of ACN.
    Acn,
    /// Mapping tables.
    Map,
}

fn ends_with(name: &[u8], end: &[u8]) -> bool
    ensures { result ≡ spec.ends_with end.now name.now }
{
    &name[name.len().saturating_sub(end.len())..] == end
}

impl FileKind {
    /// What a file of this name holds: `.asn` and `.asn1` end the names of ASN.1 files, `.acn` those of ACN files and
    /// `.map` those of mapping files. None comes exactly for the other names. A name that is only such an end is one too.
    pub fn of_name(name: &[u8]) -> Option<FileKind>
        ensures { result ≡ spec.kind_of_name name.now }
    {
        if ends_with(name, b".asn") || ends_with(name, b".asn1") {
            Some(FileKind::Asn)
        } else if ends_with(name, b".acn") {
            Some(FileKind::Acn)
        } else if ends_with(name, b".map") {
            Some(FileKind::Map)
        } else {
            None
        }
    }
}
