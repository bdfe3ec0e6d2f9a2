//! Words that stand for themselves in the files of this profile, and the forms of names.

ghost use Rattle.std.specs.Prelude.{◌≡◌};
ghost use Rattle.std.specs.List.{list_any};
ghost use Rattle.std.specs.Str.{bytes_eq};
ghost use Rattle.acn_lex.specs.Words as spec;

/// The reserved words of ASN.1 (X.680, 12.38) that this profile reads.
pub const ASN_WORDS: [&str; 36] = [
    "DEFINITIONS",
    "TAGS",
    "BEGIN",
    "END",
    "EXPORTS",
    "IMPORTS",
    "FROM",
    "ALL",
    "EXPLICIT",
    "IMPLICIT",
    "AUTOMATIC",
    "UNIVERSAL",
    "APPLICATION",
    "PRIVATE",
    "BOOLEAN",
    "NULL",
    "INTEGER",
    "ENUMERATED",
    "OCTET",
    "BIT",
    "STRING",
    "IA5String",
    "SEQUENCE",
    "OF",
    "CHOICE",
    "OPTIONAL",
    "DEFAULT",
    "TRUE",
    "FALSE",
    "SIZE",
    "CONTAINING",
    "EXCEPT",
    "UNION",
    "INTERSECTION",
    "MIN",
    "MAX",
];

/// The reserved words of ASN.1 (X.680, 12.38) for types and forms that this profile leaves out.
pub const ASN_LEFT_OUT: [&str; 34] = [
    "REAL",
    "SET",
    "ANY",
    "EXTERNAL",
    "EMBEDDED",
    "OBJECT",
    "RELATIVE-OID",
    "CLASS",
    "COMPONENT",
    "COMPONENTS",
    "WITH",
    "INSTANCE",
    "EXTENSIBILITY",
    "INCLUDES",
    "PATTERN",
    "CHARACTER",
    "UTF8String",
    "NumericString",
    "PrintableString",
    "VisibleString",
    "ISO646String",
    "GeneralString",
    "GraphicString",
    "TeletexString",
    "T61String",
    "VideotexString",
    "BMPString",
    "UniversalString",
    "UTCTime",
    "GeneralizedTime",
    "ObjectDescriptor",
    "PLUS-INFINITY",
    "MINUS-INFINITY",
    "NOT-A-NUMBER",
];

/// The marks of ASN.1 that this profile leaves out: those of extensions (X.680, clause 52), constraints between components
/// (X.682, clause 10), exceptions (X.680, clause 53) and information objects (X.681).
pub const ASN_LEFT_OUT_MARKS: [&str; 4] = ["...", "@", "!", "&"];

/// The words of ACN that this profile leaves out.
pub const ACN_LEFT_OUT: [&str; 9] = [
    "REAL",
    "CONSTANT",
    "IEEE754-1985-32",
    "IEEE754-1985-64",
    "post-encoding-function",
    "save-position",
    "and",
    "or",
    "not",
];

fn same(text: &[u8], word: &[u8]) -> bool
    ensures { result ≡ bytes_eq text.now word.now }
{
    text == word
}

/// Whether a word is one of these.
pub fn is_one_of(text: &[u8], words: &[&str]) -> bool
    ensures { result ≡ list_any (bytes_eq text.now) (spec.texts words.now) }
{
    for word in words {
        if same(text, word.as_bytes()) {
            return true;
        }
    }
    false
}

fn is_asn_word(text: &[u8]) -> bool
    ensures { result ≡ list_any (bytes_eq text.now) spec.asn_words }
{
    is_one_of(text, &ASN_WORDS)
}

fn is_asn_left_out(text: &[u8]) -> bool
    ensures { result ≡ list_any (bytes_eq text.now) spec.asn_left_out_words }
{
    is_one_of(text, &ASN_LEFT_OUT)
}

fn is_acn_left_out(text: &[u8]) -> bool
    ensures { result ≡ list_any (bytes_eq text.now) spec.acn_left_out_words }
{
    is_one_of(text, &ACN_LEFT_OUT)
}

/// Whether a word is one of the reserved words of the files of this profile: those of ASN.1, and those that are left out
/// of ASN.1 and of ACN.
#[tactic(auto, using(crate::proofs::Reserved::in_three))]
pub fn is_reserved(text: &[u8]) -> bool
    ensures { result ≡ spec.is_reserved text.now }
{
    is_asn_word(text) || is_asn_left_out(text) || is_acn_left_out(text)
}

/// Whether a word begins with a lower-case letter, as identifiers do (X.680, 12.3).
#[tactic(auto, unfolding(crate::specs::Words::is_identifier))]
pub fn is_identifier(text: &[u8]) -> bool
    ensures { result ≡ spec.is_identifier text.now }
{
    match text {
        [] => false,
        [first, ..] => first.is_ascii_lowercase(),
    }
}

fn is_upper(text: &[u8]) -> bool
    ensures { result ≡ spec.is_upper text.now }
{
    match text {
        [] => false,
        [first, ..] => first.is_ascii_uppercase(),
    }
}

/// Whether a word begins with an upper-case letter and isn't reserved, as references to types and modules do (X.680,
/// 12.2 and 12.5).
#[tactic(auto, unfolding(crate::specs::Words::is_reference))]
pub fn is_reference(text: &[u8]) -> bool
    ensures { result ≡ spec.is_reference text.now }
{
    is_upper(text) && !is_reserved(text)
}
