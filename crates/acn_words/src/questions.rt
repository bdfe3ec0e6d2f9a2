ghost use Rattle.std.specs.Prelude.{◌≡◌, map, string_bytes};
ghost use Rattle.acn_words.specs.Questions as spec;

const HELP: &str = "acn: checks packet grammars and converts packets

Usage:
  acn check FILE..
  acn bounds FILE..
  acn layout TYPE FILE..
  acn encode TYPE FILE..
  acn decode TYPE FILE..
  acn compare OLD NEW FILE..
  acn extremes TYPE FILE..
  acn route APID=TYPE .. FILE..
  acn explain TYPE FILE..
  acn work TYPE START COUNT FILE..
  acn --help
  acn --version

Commands:
  check    says of each root type that its packets can be decoded
           acn check tm.asn tm.acn tm.map
  bounds   prints the least and the greatest number of bits of each root type
           acn bounds tm.asn tm.acn tm.map
  layout   prints a line for each node of TYPE: path, kind, bounds, coding
           acn layout Tm.Packet tm.asn tm.acn tm.map
  encode   reads lines of JSON, and writes packets of TYPE
           acn encode Tm.Packet tm.asn tm.acn tm.map < lines > packets
  decode   reads packets of TYPE, and writes lines of JSON
           acn decode Tm.Packet tm.asn tm.acn tm.map < packets > lines
  compare  tells whether packets of OLD are read alike by NEW, or why not
           acn compare Old.Packet New.Packet old.asn old.acn new.asn new.acn
  extremes prints a shortest and a longest packet of TYPE, or none
           acn extremes Tm.Packet tm.asn tm.acn tm.map
  route    reads space packets, and writes a line for each, by its TYPE
           acn route 100=Tm.Packet tm.asn tm.acn tm.map < packets > lines
  explain  reads packets of TYPE, and writes what each of their bits is
           acn explain Tm.Packet tm.asn tm.acn tm.map < packets
  work     makes COUNT values of TYPE from START, writes and reads each
           acn work Tm.Packet 1 1000 tm.asn tm.acn tm.map

Words:
  FILE     a file of ASN.1 (.asn, .asn1), ACN (.acn) or tables (.map): at most
           1000, and at least one of ASN.1
  TYPE     the name of a module, a full stop, and the name of a type
  OLD      the TYPE whose packets are there
  NEW      the TYPE by which they are to be read
  APID     the application process of packets: a decimal number up to 2047
  START    a decimal number below 2^64
  COUNT    a decimal number from 1 to 1000000

Status:
  0        done
  1        the words have no form above
  2        the files are refused, or what is asked of them has no answer
  3        a packet, a line or the input is refused
  4        a FILE can't be read
  5        the input fails
  6        the output fails
  7        memory runs out

With each status but 0, a line on standard error says why; with --hints in
front of the words, lines behind it say what helps. With --progress in front,
a line there tells once a second how much of a long input is converted, and is
gone at the end. What the words of a line mean stands in docs/messages.md, and
is printed by acn --explain WORD.
";

const VERSION: &str = "acn 0.1\n";

/// What is answered before anything is read.
#[derive(Clone, Copy, PartialEq, Eq)]
pub enum Question {
    /// How the program is called.
    Help,
    /// Which version it is.
    Version,
}

impl Question {
    /// The text that answers it.
    pub fn text(self) -> &'static str {
        match self {
            Question::Help => HELP,
            Question::Version => VERSION,
        }
    }
}

/// The question that the words are: `--help` or `--version`, alone. None comes for all other words.
pub fn question_in(words: &[String]) -> Option<Question>
    ensures { result ≡ spec.question_in (map string_bytes words.now) }
{
    match words {
        [word] if word.as_str() == "--help" => Some(Question::Help),
        [word] if word.as_str() == "--version" => Some(Question::Version),
        _ => None,
    }
}
