//! What is said of words that have no form.

use acn_outside::{Failed, Sink};
use acn_print::{Piece, put_all, put_piece};
use acn_words::{WordsFault, words_fault};

fn put_word<'a, O: Sink>(word: &'a String, told: &'a str, out: &mut O) -> Result<(), Failed> {
    put_all(
        out,
        &[
            Piece::Text("  '"),
            Piece::Name(word.as_str().as_bytes()),
            Piece::Text(told),
        ],
    )
}

// Prints which word is at fault, and why.
fn put_fault<O: Sink>(fault: &WordsFault<'_>, out: &mut O) -> Result<(), Failed> {
    match fault {
        WordsFault::NoCommand => put_piece(out, &Piece::Text("  there is no command\n")),
        WordsFault::Command(word) => put_word(*word, "' is no command\n", out),
        WordsFault::NoType => put_piece(
            out,
            &Piece::Text("  behind the command TYPE is missing, as Tm.Packet\n"),
        ),
        WordsFault::Type(word) => put_word(
            *word,
            "' is no TYPE: that is the name of a module, a full stop, and the name of a type, as Tm.Packet\n",
            out,
        ),
        WordsFault::NoRoute => put_piece(
            out,
            &Piece::Text("  behind the command APID=TYPE is missing, as 100=Tm.Packet\n"),
        ),
        WordsFault::Route(word) => put_word(
            *word,
            "' is no APID=TYPE: that is a decimal number up to 2047, an equals sign, and a TYPE\n",
            out,
        ),
        WordsFault::RouteTwice(word) => put_word(
            *word,
            "' and a word behind it name the same APID\n",
            out,
        ),
        WordsFault::NoStart => put_piece(
            out,
            &Piece::Text("  behind TYPE the number START is missing\n"),
        ),
        WordsFault::Start(word) => put_word(
            *word,
            "' is no START: that is a decimal number below 2^64\n",
            out,
        ),
        WordsFault::NoCount => put_piece(
            out,
            &Piece::Text("  behind START the number COUNT is missing\n"),
        ),
        WordsFault::Count(word) => put_word(
            *word,
            "' is no COUNT: that is a decimal number from 1 to 1000000\n",
            out,
        ),
        WordsFault::NoFile => put_piece(out, &Piece::Text("  there is no FILE\n")),
        WordsFault::TooManyFiles => put_piece(
            out,
            &Piece::Text("  there are more than 1000 FILEs\n"),
        ),
        WordsFault::File(word) => put_word(
            *word,
            "' is no FILE: that ends in .asn, .asn1, .acn or .map\n",
            out,
        ),
        WordsFault::NoModules => put_piece(
            out,
            &Piece::Text("  no FILE is of ASN.1: that ends in .asn or .asn1\n"),
        ),
    }
}

/// Prints what helps where the words have no form: two lines.
pub fn put_usage<O: Sink>(words: &[String], out: &mut O) -> Result<(), Failed> {
    if let Some(fault) = words_fault(words) {
        put_fault(&fault, out)?;
    }
    put_piece(
        out,
        &Piece::Text("  'acn --help' shows the forms of the words\n"),
    )
}
