ghost use Rattle.std.specs.Prelude.{◌≡◌, int_le};
ghost use Rattle.std.specs.Int.{int_max, int_min};

/// The greater of two numbers.
pub fn greater<'a>(a: &'a i128, b: &'a i128) -> &'a i128
    ensures { result.now ≡ int_max a.now b.now }
{
    if *b < *a { a } else { b }
}

/// The less of two numbers.
pub fn less<'a>(a: &'a i128, b: &'a i128) -> &'a i128
    ensures { result.now ≡ int_min a.now b.now }
{
    if *b < *a { b } else { a }
}

/// Whether the first number is at most the second.
pub fn is_at_most(a: &i128, b: &i128) -> bool
    ensures { result ≡ int_le a.now b.now }
{
    *a <= *b
}
