ghost use Rattle.std.specs.Prelude.{◌≡◌};
ghost use Rattle.acn_lex.specs.Number as spec;

pub fn is_unwritten(text: &[u8]) -> bool
    ensures { result ≡ spec.is_unwritten text.now }
{
    match text {
        [] => true,
        [_] => false,
        [first, ..] => *first == b'0',
    }
}

/// The number that a text spells: decimal digits with no zero before others (X.680, 12.8). `None` where the text is no
/// such digits, or the number is 2^64 or more.
#[tactic(auto, unfolding(crate::specs::Number::number_in))]
pub fn number_of(text: &[u8]) -> Option<u64>
    ensures { result ≡ spec.number_in text.now }
{
    if is_unwritten(text) {
        return None;
    }
    read_digits(text)
}

fn read_digits(text: &[u8]) -> Option<u64>
    ensures { result ≡ spec.read_from 0 text.now }
{
    let mut n = 0u64;
    for b in text {
        n = with_digit(n, *b)?;
    }
    Some(n)
}

fn with_digit(n: u64, b: u8) -> Option<u64>
    ensures { result ≡ spec.with_digit n b }
{
    if !b.is_ascii_digit() {
        return None;
    }
    n.checked_mul(10)?.checked_add(u64::from(b - b'0'))
}
