//! Where a byte of a file stands in its line.

ghost use Rattle.std.specs.Prelude.{◌≡◌, ◌≤◌, length, take, drop};
ghost use Rattle.acn_advice.specs.Place as spec;

// What stands behind the last line feed.
fn last_line(bytes: &[u8]) -> &[u8]
    ensures { result.now ≡ spec.last_line bytes.now }
{
    let mut line = bytes;
    let mut rest = bytes;
    while let [first, behind @ ..] = rest {
        if *first == b'\n' {
            line = behind;
        }
        rest = behind;
    }
    line
}

/// What stands before a place in its line.
pub fn in_front(bytes: &[u8], at: usize) -> &[u8]
    ensures { result.now ≡ spec.last_line (take at bytes.now) }
{
    last_line(bytes.get(..at).unwrap_or(bytes))
}

/// What stands from a place on to the end of the file.
pub fn behind(bytes: &[u8], at: usize) -> &[u8]
    ensures { result.now ≡ drop at bytes.now }
{
    bytes.get(at..).unwrap_or(&[])
}

/// What stands before the first end of a line.
pub fn first_line(bytes: &[u8]) -> &[u8]
    ensures { result.now ≡ spec.first_line bytes.now }
{
    for (number, byte) in bytes.iter().enumerate() {
        if *byte == b'\n' || *byte == b'\r' {
            return &bytes[..number];
        }
    }
    bytes
}

/// The number of a place's line, from 1.
pub fn line_number(bytes: &[u8], at: usize) -> u64 {
    let before = bytes.get(..at).unwrap_or(bytes);
    let mut number = 1u64;
    for byte in before {
        if *byte == b'\n' {
            number = number.saturating_add(1);
        }
    }
    number
}
