//! What is kept of a value that is read.

ghost use Rattle.std.specs.Prelude.{◌≡◌, ◌++◌, ◌∷◌, [], ℕ, ℤ, List, Option, Some, None, Bool, true, IsTrue, IfOk, IfErr, OnOk, OnErr};
ghost use Rattle.acn_num.specs.Ranges.{In};
ghost use Rattle.acn_grammar.specs.Code.{Any, NumberOf};
ghost use Rattle.acn_grammar.specs.Grammar.{Grammar, Data, num, octets as octets_form, bits as bits_form, text as text_form, record_of, list_of, alt};
ghost use Rattle.acn_grammar.specs.ItemsNamed.{FormItemsNamed};
ghost use Rattle.acn_grammar.specs.Leaves.{num_fine, sizing_fine, text_fine};
ghost use Rattle.acn_grammar.specs.Spell.{FormPart};
ghost use Rattle.acn_grammar.specs.View.{elements_of, places_of};
ghost use Rattle.acn_reads.specs.Decoded.{Passes};
ghost use Rattle.acn_reads.specs.Steps.{Named, NoForm, RuleRead};
ghost use Rattle.acn_unpack.specs.Keeps.{Halts};

use acn_bits::ReadCursor;
use acn_grammar::{NumLeaf, Sizing, TextLeaf};
use acn_num::NoMemory;
use acn_reads::Stop;

/// What a walk keeps of what it reads: of a node, of the places of a SEQUENCE, of the elements of a list.
pub trait Keep {
    type Kept: Drop;

    type Places: Drop;

    type Elements: Drop;

    /// What is kept says this value.
    ghost says: { Self.Kept → Data → Type 0 };

    ghost places_say: { Self.Places → List (Option Data) → Type 0 };

    ghost elements_say: { Self.Elements → List Data → Type 0 };

    /// Whether it takes memory.
    ghost takes: { Bool };

    /// The value of a leaf's number.
    fn number(&self, leaf: &NumLeaf, x: &i128) -> Self::Kept
        requires fine { IsTrue (num_fine leaf.now) }
        requires named { FormItemsNamed (num leaf.now) }
        requires permitted { In leaf.now.set x.now }
        ensures { (d : Data) × says result d × NumberOf leaf.now.kind d x.now };

    /// The value of an OCTET STRING.
    fn octets(
        &self,
        cur: &mut ReadCursor<'_>,
        sizing: &Sizing,
        slots: &[(u32, i128)],
        inside: bool,
        from: u64,
    ) -> Result<Self::Kept, Stop>
        requires fine { IsTrue (sizing_fine sizing.now) }
        requires read { RuleRead sizing.now.rule slots.now }
        ensures read { IfOk result (λ kept. (d : Data) × says kept d × ((root : Grammar) → Passes (λ env. FormPart root Any (octets_form sizing.now) env d) slots.now cur.old cur.new)) }
        ensures fails { IfErr result (λ e. Halts (takes ≡ true) e (Named inside from (NoForm (octets_form sizing.now) slots.now cur.old))) };

    /// The value of a BIT STRING.
    fn bits(
        &self,
        cur: &mut ReadCursor<'_>,
        sizing: &Sizing,
        slots: &[(u32, i128)],
        inside: bool,
        from: u64,
    ) -> Result<Self::Kept, Stop>
        requires fine { IsTrue (sizing_fine sizing.now) }
        requires read { RuleRead sizing.now.rule slots.now }
        ensures read { IfOk result (λ kept. (d : Data) × says kept d × ((root : Grammar) → Passes (λ env. FormPart root Any (bits_form sizing.now) env d) slots.now cur.old cur.new)) }
        ensures fails { IfErr result (λ e. Halts (takes ≡ true) e (Named inside from (NoForm (bits_form sizing.now) slots.now cur.old))) };

    /// The value of an IA5String.
    fn text(
        &self,
        cur: &mut ReadCursor<'_>,
        leaf: &TextLeaf,
        slots: &[(u32, i128)],
        inside: bool,
        from: u64,
    ) -> Result<Self::Kept, Stop>
        requires fine { IsTrue (text_fine leaf.now) }
        requires read { RuleRead leaf.now.sized.rule slots.now }
        ensures read { IfOk result (λ kept. (d : Data) × says kept d × ((root : Grammar) → Passes (λ env. FormPart root Any (text_form leaf.now) env d) slots.now cur.old cur.new)) }
        ensures fails { IfErr result (λ e. Halts (takes ≡ true) e (Named inside from (NoForm (text_form leaf.now) slots.now cur.old))) };

    /// No places yet, with room for so many.
    fn no_places(&self, most: usize) -> Result<Self::Places, NoMemory>
        ensures says { IfOk result (λ places. places_say places []) }
        ensures lack { OnErr result (takes ≡ true) };

    /// The place of a component that is there.
    fn add_component(
        &self,
        places: &mut Self::Places,
        component: Self::Kept,
    ) -> Result<(), NoMemory>
        ensures says { OnOk result ((ds : List (Option Data)) (d : Data) → places_say places.old ds → says component d → places_say places.new (ds ++ Some d ∷ [])) }
        ensures lack { OnErr result (takes ≡ true) };

    /// The place of a component that is absent.
    fn add_absent(&self, places: &mut Self::Places) -> Result<(), NoMemory>
        ensures says { OnOk result ((ds : List (Option Data)) → places_say places.old ds → places_say places.new (ds ++ None ∷ [])) }
        ensures lack { OnErr result (takes ≡ true) };

    /// The value of a SEQUENCE.
    fn sequence(&self, places: Self::Places) -> Self::Kept
        ensures { (ds : List (Option Data)) → places_say places ds → says result (record_of (places_of ds)) };

    /// No elements yet.
    fn no_elements(&self) -> Self::Elements
        ensures { elements_say result [] };

    /// One element more.
    fn add_element(
        &self,
        elements: &mut Self::Elements,
        element: Self::Kept,
    ) -> Result<(), NoMemory>
        ensures says { OnOk result ((ds : List Data) (d : Data) → elements_say elements.old ds → says element d → elements_say elements.new (ds ++ d ∷ [])) }
        ensures lack { OnErr result (takes ≡ true) };

    /// The value of a list.
    fn list(&self, elements: Self::Elements) -> Self::Kept
        ensures { (ds : List Data) → elements_say elements ds → says result (list_of (elements_of ds)) };

    /// The value of a CHOICE whose alternative has this index.
    fn alternative(&self, i: u32, kept: Self::Kept) -> Result<Self::Kept, NoMemory>
        ensures says { IfOk result (λ chosen. (d : Data) → says kept d → says chosen (alt i d)) }
        ensures lack { OnErr result (takes ≡ true) };
}
