//! What a value is, form by form.

ghost use Rattle.std.specs.Prelude.{◌≡◌, [], ℕ, List, IfSome, IfNone};
ghost use Rattle.acn_grammar.specs.Grammar.{Grammar, Fields, Alternatives, octets, bits, text, seq, list, choice, octet_string, bit_string, characters, record_of, list_of, alt};
ghost use Rattle.acn_grammar.specs.View.{data_of, elements_view, places_view};
ghost use Rattle.acn_grammar.specs.declared.node.ChoiceRule.{ChoiceRule};
ghost use Rattle.acn_grammar.specs.declared.node.Sizing.{Sizing};
ghost use Rattle.acn_grammar.specs.declared.node.TextLeaf.{TextLeaf};
ghost use Rattle.acn_events.specs.Events.{form_events};

use acn_grammar::Value;

/// Octets. A value of another form has no events as octets.
pub fn octets_in(v: &Value) -> Option<&[u8]>
    ensures some { IfSome result (λ string. data_of v.now ≡ octet_string string.now) }
    ensures none { IfNone result ((root : Grammar) (sizing : Sizing) (path : List ℕ) → form_events root (octets sizing) path (data_of v.now) ≡ []) }
{
    match v {
        Value::Octets(string) => Some(string.items()),
        _ => None,
    }
}

/// Bits.
pub fn bits_in(v: &Value) -> Option<&[bool]>
    ensures some { IfSome result (λ string. data_of v.now ≡ bit_string string.now) }
    ensures none { IfNone result ((root : Grammar) (sizing : Sizing) (path : List ℕ) → form_events root (bits sizing) path (data_of v.now) ≡ []) }
{
    match v {
        Value::Bits(string) => Some(string.items()),
        _ => None,
    }
}

/// Characters.
pub fn text_in(v: &Value) -> Option<&[u8]>
    ensures some { IfSome result (λ string. data_of v.now ≡ characters string.now) }
    ensures none { IfNone result ((root : Grammar) (leaf : TextLeaf) (path : List ℕ) → form_events root (text leaf) path (data_of v.now) ≡ []) }
{
    match v {
        Value::Text(string) => Some(string.items()),
        _ => None,
    }
}

/// The places of a SEQUENCE.
pub fn places_in(v: &Value) -> Option<&[Option<Value>]>
    ensures some { IfSome result (λ places. data_of v.now ≡ record_of (places_view places.now)) }
    ensures none { IfNone result ((root : Grammar) (fields : Fields) (home : List ℕ) (path : List ℕ) → form_events root (seq fields home) path (data_of v.now) ≡ []) }
{
    match v {
        Value::Seq(places) => Some(places.items()),
        _ => None,
    }
}

/// The elements of a list.
pub fn elements_in(v: &Value) -> Option<&[Value]>
    ensures some { IfSome result (λ elements. data_of v.now ≡ list_of (elements_view elements.now)) }
    ensures none { IfNone result ((root : Grammar) (sizing : Sizing) (g : Grammar) (path : List ℕ) → form_events root (list sizing g) path (data_of v.now) ≡ []) }
{
    match v {
        Value::List(elements) => Some(elements.items()),
        _ => None,
    }
}

/// The index of an alternative, and its value.
pub fn case_in(v: &Value) -> Option<(u32, &Value)>
    ensures some { IfSome result (λ case. data_of v.now ≡ alt case.0 (data_of case.1.now)) }
    ensures none { IfNone result ((root : Grammar) (cases : Alternatives) (rule : ChoiceRule) (path : List ℕ) → form_events root (choice cases rule) path (data_of v.now) ≡ []) }
{
    match v {
        Value::Alt(index, inside) => Some((*index, inside.get())),
        _ => None,
    }
}
