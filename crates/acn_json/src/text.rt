//! Pieces of JSON text, each put at the end of a buffer.

ghost use Rattle.std.specs.Prelude.{◌≡◌, ◌++◌, ◌∷◌, [], OnOk, OnErr, ◌<◌, map, ◌&&◌, not, ◌==◌, nat_lt};
ghost use Rattle.std.specs.Char.{digit_char};
ghost use Rattle.std.specs.Fmt.{signed_decimal};
ghost use Rattle.std.specs.List.{list_all};
ghost use Rattle.hex.specs.Hex.{encode_lower};
ghost use Rattle.json.specs.Print.{escape, escape_byte, escape_letter, quoted};
ghost use Rattle.acn_json.specs.Kept.{Kept};
ghost use Rattle.acn_json.specs.Lines.{bit_digit};

use acn_num::NoMemory;
use itoa::Buffer;
use std::alloc::Global;

/// Puts these octets. It fails only where memory runs out; what stood in the buffer then still stands in front.
pub fn put(octets: &[u8], out: &mut Vec<u8>) -> Result<(), NoMemory>
    ensures added { OnOk result (out.new.items ≡ out.old.items ++ octets.now) }
    ensures kept { OnErr result (Kept out.old.items out.new.items) }
{
    out.extend_from_slice(octets)?;
    Ok(())
}

/// Puts one octet. It fails only where memory runs out; what stood in the buffer then still stands in front.
pub fn put_octet(octet: u8, out: &mut Vec<u8>) -> Result<(), NoMemory>
    ensures added { OnOk result (out.new.items ≡ out.old.items ++ octet ∷ []) }
    ensures kept { OnErr result (Kept out.old.items out.new.items) }
{
    out.push(octet)?;
    Ok(())
}

/// Puts a whole number. It fails only where memory runs out; what stood in the buffer then still stands in front.
pub fn put_number(x: &i128, out: &mut Vec<u8>) -> Result<(), NoMemory>
    ensures added { OnOk result (out.new.items ≡ out.old.items ++ signed_decimal x.now) }
    ensures kept { OnErr result (Kept out.old.items out.new.items) }
{
    let mut buffer = Buffer::new();
    put(buffer.format(*x).as_bytes(), out)
}

/// A hexadecimal digit, with a lower case letter.
pub fn digit(n: u8) -> u8
    requires { n < 16 }
    ensures { result ≡ digit_char n }
{
    if n < 10 { b'0' + n } else { (b'a' - 10) + n }
}

// The letter of an octet's short escape, or 0 where it has none.
fn letter(octet: u8) -> u8
    ensures { result ≡ escape_letter octet }
{
    match octet {
        b'"' | b'\\' => octet,
        0x08 => b'b',
        0x0c => b'f',
        b'\n' => b'n',
        b'\r' => b'r',
        b'\t' => b't',
        _ => 0,
    }
}

#[tactic(auto, unfolding(json::specs::Print::escape_byte))]
fn put_escape(octet: u8, out: &mut Vec<u8>) -> Result<(), NoMemory>
    ensures added { OnOk result (out.new.items ≡ out.old.items ++ escape_byte octet) }
    ensures kept { OnErr result (Kept out.old.items out.new.items) }
{
    let letter = letter(octet);
    if 0 < letter {
        put(&[b'\\', letter], out)
    } else if octet < 0x20 {
        put(
            &[
                b'\\',
                b'u',
                b'0',
                b'0',
                digit(octet / 16),
                digit(octet % 16),
            ],
            out,
        )
    } else {
        put_octet(octet, out)
    }
}

fn put_escaped(text: &[u8], out: &mut Vec<u8>) -> Result<(), NoMemory>
    ensures added { OnOk result (out.new.items ≡ out.old.items ++ escape text.now) }
    ensures kept { OnErr result (Kept out.old.items out.new.items) }
{
    for octet in text {
        put_escape(*octet, out)?;
    }
    Ok(())
}

// Whether the octet stands for itself in a string.
fn is_plain(octet: u8) -> bool
    ensures { result ≡ (nat_lt 31 octet && (not (octet == 34) && not (octet == 92))) }
{
    octet > 0x1f && (octet != b'"' && octet != b'\\')
}

/// Whether each octet stands for itself in a string.
pub fn all_plain(text: &[u8]) -> bool
    ensures { result ≡ list_all (λ o. nat_lt 31 o && (not (o == 34) && not (o == 92))) text.now }
{
    for octet in text {
        if !is_plain(*octet) {
            return false;
        }
    }
    true
}

fn put_inside(text: &[u8], out: &mut Vec<u8>) -> Result<(), NoMemory>
    ensures added { OnOk result (out.new.items ≡ out.old.items ++ escape text.now) }
    ensures kept { OnErr result (Kept out.old.items out.new.items) }
{
    if all_plain(text) {
        put(text, out)
    } else {
        put_escaped(text, out)
    }
}

/// Puts a string. It fails only where memory runs out; what stood in the buffer then still stands in front.
pub fn put_quoted(text: &[u8], out: &mut Vec<u8>) -> Result<(), NoMemory>
    ensures added { OnOk result (out.new.items ≡ out.old.items ++ quoted text.now) }
    ensures kept { OnErr result (Kept out.old.items out.new.items) }
{
    put_octet(b'"', out)?;
    put_inside(text, out)?;
    put_octet(b'"', out)
}

/// Puts a string of hexadecimal digits. It fails only where memory runs out.
pub fn put_octets(alloc: Global, octets: &[u8], out: &mut Vec<u8>) -> Result<(), NoMemory>
    ensures { OnOk result (out.new.items ≡ out.old.items ++ quoted (encode_lower octets.now)) }
{
    let digits = hex::encode(alloc, octets)?;
    put_quoted(digits.as_bytes(), out)
}

fn bit_octet(bit: bool) -> u8
    ensures { result ≡ bit_digit bit }
{
    if bit { b'1' } else { b'0' }
}

fn put_digits(bits: &[bool], out: &mut Vec<u8>) -> Result<(), NoMemory>
    ensures added { OnOk result (out.new.items ≡ out.old.items ++ map bit_digit bits.now) }
    ensures kept { OnErr result (Kept out.old.items out.new.items) }
{
    for bit in bits {
        put_octet(bit_octet(*bit), out)?;
    }
    Ok(())
}

/// Puts a string of the digits 0 and 1.
/// It fails only where memory runs out; what stood in the buffer then still stands in front.
pub fn put_bits(bits: &[bool], out: &mut Vec<u8>) -> Result<(), NoMemory>
    ensures added { OnOk result (out.new.items ≡ out.old.items ++ quoted (map bit_digit bits.now)) }
    ensures kept { OnErr result (Kept out.old.items out.new.items) }
{
    put_octet(b'"', out)?;
    put_digits(bits, out)?;
    put_octet(b'"', out)
}
