ghost use Rattle.std.specs.Prelude.{◌≡◌, ◌≤◌, ◌<◌, ◌^◌, ◌⊎◌, pos, negsuc};
ghost use Rattle.acn_num.specs.Widths.{IsLeastWidth, IsLeastOctets, IsLeastSignedOctets, IsDigitCount};

/// The least width in bits that holds every number up to `span`.
pub fn bits_for(span: u64) -> u32
    ensures least { IsLeastWidth span result }
    ensures fits { result ≤ 64 }
{
    let mut width = 0u32;
    let mut rest = span;
    while rest > 0 {
        rest /= 2;
        width += 1;
    }
    width
}

/// The least count of octets that holds the number, at least 1.
pub fn octets_for(x: u64) -> u32
    ensures least { IsLeastOctets x result }
    ensures fits { result ≤ 8 }
{
    let width = bits_for(x);
    if width == 0 { 1 } else { (width + 7) / 8 }
}

// The number itself, or its complement where it is negative.
fn magnitude(x: i64) -> u64
    ensures value { (x ≡ pos result) ⊎ (x ≡ negsuc result) }
    ensures small { result < 2 ^ 63 }
{
    if x < 0 { -(x + 1) as u64 } else { x as u64 }
}

/// The least count of octets that holds the number in two's complement, at least 1.
pub fn signed_octets_for(x: i64) -> u32
    ensures least { IsLeastSignedOctets x result }
    ensures fits { result ≤ 8 }
{
    bits_for(magnitude(x)) / 8 + 1
}

/// The count of decimal digits that write the number, at least 1.
pub fn digits_for(x: u64) -> u32
    ensures count { IsDigitCount x result }
    ensures fits { result ≤ 20 }
{
    let mut count = 0u32;
    let mut rest = x;
    while rest > 0 {
        rest /= 10;
        count += 1;
    }
    if count == 0 { 1 } else { count }
}
