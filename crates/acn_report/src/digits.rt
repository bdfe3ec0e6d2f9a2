//! Bits in words.

ghost use Rattle.std.specs.Prelude.{◌≡◌, if◌then◌else◌, [], ◌∷◌};
ghost use Rattle.acn_num.specs.Bits.{number};
ghost use Rattle.acn_print.specs.Printing.{Prints};
ghost use Rattle.acn_report.specs.Digits.{bit_text, bits_text, hex_digit, hex_text};

use acn_outside::{Failed, Sink};
use acn_print::{Piece, put_piece};

fn put_bit<O: Sink>(out: &mut O, bit: bool) -> Result<(), Failed>
    ensures { Prints (bit_text bit) (O.taken out.old, O.faults out.old) (O.taken out.new, O.faults out.new) result }
{
    if bit {
        put_piece(out, &Piece::Text("1"))
    } else {
        put_piece(out, &Piece::Text("0"))
    }
}

/// Prints bits as 0 and 1. It takes no memory.
pub fn put_bits<O: Sink>(out: &mut O, bits: &[bool]) -> Result<(), Failed>
    ensures { Prints (bits_text bits.now) (O.taken out.old, O.faults out.old) (O.taken out.new, O.faults out.new) result }
{
    for bit in bits {
        put_bit(out, *bit)?;
    }
    Ok(())
}

fn weight(bit: bool, weight: u8) -> u8
    ensures { result ≡ if bit then weight else 0 }
{
    if bit { weight } else { 0 }
}

// The hexadecimal digit of four bits.
fn digit(a: bool, b: bool, c: bool, d: bool) -> u8
    ensures { result ≡ hex_digit (number (a ∷ b ∷ c ∷ d ∷ [])) }
{
    let value = weight(a, 8) + weight(b, 4) + weight(c, 2) + weight(d, 1);
    if value < 10 {
        b'0' + value
    } else {
        b'a' + (value - 10)
    }
}

/// Prints bits as hexadecimal digits, four bits a digit; less than four at the end are left out. It takes no memory.
pub fn put_hex<O: Sink>(out: &mut O, bits: &[bool]) -> Result<(), Failed>
    ensures { Prints (hex_text bits.now) (O.taken out.old, O.faults out.old) (O.taken out.new, O.faults out.new) result }
{
    let mut rest = bits;
    while let [a, b, c, d, behind @ ..] = rest {
        put_piece(out, &Piece::Name(&[digit(*a, *b, *c, *d)]))?;
        rest = behind;
    }
    Ok(())
}
