ghost use Rattle.std.specs.Prelude.{◌≡◌, ◌^◌, ◌<◌, ◌≤◌, ◌-ℤ◌, pos, true, option_map};
ghost use Rattle.acn_codings.specs.Codings as spec;

use acn_acn_syntax::{Encoding, SizeAttr};
use acn_num::{BOTTOM, TOP};

/// How an INTEGER or an ENUMERATED is written, as far as its attributes say. Widths are in bits, as they are written
/// behind `size`.
#[derive(Clone, Copy)]
pub enum Coding {
    /// Without a width or an end: the default code of X.691.
    Default,
    /// `pos-int`.
    PosInt(u64),
    /// `twos-complement`.
    Twos(u64),
    /// `BCD`.
    Bcd(u64),
    /// `BCD` with `size null-terminated`.
    BcdEnded,
    /// `ASCII`, with a sign or without.
    Ascii(u64, bool),
    /// `ASCII` with `size null-terminated`, with a sign or without.
    AsciiEnded(bool),
}

// The coding of a number of so many bits.
fn sized_coding(sign: bool, bits: u64, encoding: Option<Encoding>) -> Coding
    ensures { result ≡ spec.sized_coding sign bits encoding }
{
    match encoding {
        Some(Encoding::PosInt) => Coding::PosInt(bits),
        Some(Encoding::TwosComplement) => Coding::Twos(bits),
        Some(Encoding::Bcd) => Coding::Bcd(bits),
        Some(Encoding::Ascii) => Coding::Ascii(bits, sign),
        None => {
            if sign {
                Coding::Twos(bits)
            } else {
                Coding::PosInt(bits)
            }
        }
    }
}

// The coding of a number that is ended.
fn ended_coding(sign: bool, encoding: Option<Encoding>) -> Coding
    ensures { result ≡ spec.ended_coding sign encoding }
{
    match encoding {
        Some(Encoding::Bcd) => Coding::BcdEnded,
        _ => Coding::AsciiEnded(sign),
    }
}

/// The coding that `size` and `encoding` give to a number that has a sign or not.
pub fn coding_of(sign: bool, size: Option<&SizeAttr>, encoding: Option<Encoding>) -> Coding
    ensures { result ≡ spec.coding_of sign (option_map (λ s. s.now) size.entry) encoding }
{
    match size {
        None => Coding::Default,
        Some(SizeAttr::Number(bits)) => sized_coding(sign, *bits, encoding),
        Some(SizeAttr::NullTerminated) => ended_coding(sign, encoding),
        Some(SizeAttr::Path(_)) => Coding::Default,
    }
}

// Whether a number lies from one to another in steps.
fn is_step(step: u64, low: u64, high: u64, n: u64) -> bool
    requires { 0 < step }
    ensures { result ≡ spec.is_step step low high n }
{
    n % step == 0 && low <= n && n <= high
}

/// Whether the width is one that the coding has.
pub fn fits(coding: Coding) -> bool
    ensures { result ≡ spec.fits coding }
{
    match coding {
        Coding::Default | Coding::BcdEnded | Coding::AsciiEnded(_) => true,
        Coding::PosInt(bits) => is_step(1, 1, 64, bits),
        Coding::Twos(bits) => is_step(1, 1, 64, bits),
        Coding::Bcd(bits) => is_step(4, 4, 76, bits),
        Coding::Ascii(bits, false) => is_step(8, 8, 152, bits),
        Coding::Ascii(bits, true) => is_step(8, 16, 152, bits),
    }
}

// The greatest number of so many bits.
fn most_in_bits(bits: u64) -> i128
    requires { bits ≤ 64 }
    ensures { result ≡ pos (2 ^ bits) -ℤ pos 1 }
{
    2i128.pow(bits as u32) - 1
}

// The greatest number of so many decimal digits.
fn most_in_digits(digits: u64) -> i128
    requires { digits ≤ 19 }
    ensures { result ≡ pos (10 ^ digits) -ℤ pos 1 }
{
    10i128.pow(digits as u32) - 1
}

/// The least and the greatest number that the coding can write. It can write all between them.
pub fn numbers(coding: Coding) -> (i128, i128)
    requires { spec.fits coding ≡ true }
    ensures { result ≡ spec.numbers coding }
{
    match coding {
        Coding::Default => (BOTTOM, TOP),
        Coding::PosInt(bits) => (0, most_in_bits(bits)),
        Coding::Twos(bits) => {
            let most = most_in_bits(bits - 1);
            (-most - 1, most)
        }
        Coding::Bcd(bits) => (0, most_in_digits(bits / 4)),
        Coding::BcdEnded | Coding::AsciiEnded(false) => (0, most_in_bits(64)),
        Coding::Ascii(bits, false) => (0, most_in_digits(bits / 8)),
        Coding::Ascii(bits, true) => {
            let most = most_in_digits(bits / 8 - 1);
            (-most, most)
        }
        Coding::AsciiEnded(true) => {
            let most = most_in_bits(63);
            (-most - 1, most)
        }
    }
}
