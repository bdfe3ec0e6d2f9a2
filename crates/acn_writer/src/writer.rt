ghost use Rattle.std.specs.Prelude.{◌≡◌, ◌+◌, ◌*◌, ◌<◌, ◌≤◌, [], ◌∷◌, List, ℕ, IsTrue, OnOk, OnErr, pos, true, false, length};
ghost use Rattle.acn_num.specs.Bits.{bits as bits_of};
ghost use Rattle.acn_num.specs.Ranges.{has};
ghost use Rattle.acn_bits.specs.Writing.{place_of};
ghost use Rattle.acn_fill.specs.Table.{begun};
ghost use Rattle.acn_grammar.specs.Asks.{Equal};
ghost use Rattle.acn_grammar.specs.Faults.{ask_of};
ghost use Rattle.acn_grammar.specs.Leaves.{num_fine, text_fine};
ghost use Rattle.acn_grammar.specs.declared.node.SizeRule.TheVariants.{Prefix, Slot};
ghost use Rattle.acn_grammar.specs.declared.node.Sizing.{Sizing as SizingOf};
ghost use Rattle.acn_events.specs.Event.{aligns, begins, closes, codes, copies, enters, fills, notes, octets_in, opens, position, puts, sizes, texts, wants};
ghost use Rattle.acn_events.specs.Laws.{AllPassed, HolesPassed, empty_table};
ghost use Rattle.acn_events.specs.Steps.{put as put_event, Room};
ghost use Rattle.acn_writer.specs.Ending.{KeepsBehind, SlotsPassed};

use crate::code::has_room_for_code;
use crate::contents::Contents;
use crate::cursor::{
    fits, has_room, has_room_for_hole, has_room_for_octets, is_passed, padding, put_bits,
    put_octets, put_zeros,
};
use crate::halt::{Halt, Halted, tell};
use crate::plain::plain_code;
use crate::slots::{Filling, Slots};
use crate::text::{meets, text_bits};
use acn_bits::{Hole, WORD_BITS, WriteCursor};
use acn_grammar::{Ask, NumLeaf, SizeRule, Sizing, TextLeaf};
use acn_ints::{fill_num, put_num};
use acn_leaf::width;
use acn_num::{MOST_STEPS, RangeSet};
use acn_text::put_text;

/// A writer in place: a buffer's writer, the table of open slots with the leaf of each that has a
/// hole, and the contents that aren't ended. There is room for `S` slots and for `S` contents, and
/// for `A` numbers to avoid on all slots.
///
/// Each event either comes to pass or halts, and where it halts nothing is changed but `why`, which
/// then tells the reason. Since the writer keeps holes it can't be dropped: `finish` ends it where
/// nothing is begun, and `abandon` ends it behind a halt. No call takes memory.
pub struct Writer<'b, 'p, const N: usize, const S: usize, const A: usize> {
    cursor: WriteCursor<'b, N>,
    slots: Slots<'p, S, A>,
    contents: Contents<S>,
    ghost long: { length (bits_of cursor.buf.now) ≡ 8 * N },
}

impl<'b, 'p, const N: usize, const S: usize, const A: usize> Writer<'b, 'p, N, S, A> {
    ghost use Rattle.acn_writer.specs.Answers.{Comes, HaltsFor, state_of};

    /// A writer over that of a buffer, with nothing begun.
    pub fn new(cursor: WriteCursor<'b, N>) -> Writer<'b, 'p, N, S, A>
        requires { length (bits_of cursor.buf.now) ≡ 8 * N }
        ensures state { state_of result ≡ record { buf = bits_of cursor.entry.buf.now; place = place_of cursor.entry; table = empty_table; leaves = []; contents = [] } }
        ensures same_buffer { result.cursor.buf.ghost_name ≡ cursor.entry.buf.ghost_name }
    {
        Writer {
            cursor,
            slots: Slots::new(),
            contents: Contents::new(),
        }
    }

    /// How many bits were written or left as holes: the number of the next one.
    pub fn at(&self) -> u64
        ensures place { result ≡ (state_of self.now).place }
        ensures paired { length (state_of self.now).table.gaps ≡ length (state_of self.now).table.spots }
    {
        self.slots.check_places();
        self.cursor.at()
    }

    /// Whether so many bits are left.
    pub fn has_room(&self, n: u64) -> bool
        ensures room { result ≡ true → Room n (state_of self.now) }
        ensures none { result ≡ false → Room n (state_of self.now) → ⊥ }
    {
        has_room(&self.cursor, n)
    }

    /// Writes one bit more of those with which a SEQUENCE begins.
    pub fn put_bit(&mut self, bit: bool)
        requires { Room 1 (state_of self.old) }
        ensures put { state_of self.new ≡ put_event (bit ∷ []) (state_of self.old) }
        ensures same_buffer { self.new.cursor.buf.ghost_name ≡ self.old.cursor.buf.ghost_name }
    {
        self.cursor.put(1, u64::from(bit));
    }

    /// Zeros bring the position to a multiple.
    pub fn align(&mut self, align: u32, why: &mut Halt) -> Result<(), Halted>
        ensures ran { OnOk result (Comes (λ path. aligns align) self.old self.new) }
        ensures halted { OnErr result (HaltsFor (λ path. aligns align) self.old self.new why.new) }
    {
        if align == 0 {
            return Err(tell(why, Halt::Lost));
        }
        if align == 1 {
            // No bits: it shows that the place lies in the buffer.
            self.cursor.put(0, 0);
            return Ok(());
        }
        let position = self.position();
        let count = padding(align, position);
        if !has_room(&self.cursor, count) {
            return Err(tell(why, Halt::Lost));
        }
        put_zeros(&mut self.cursor, count);
        Ok(())
    }

    // The place, from the start of the contents round it.
    fn position(&self) -> u64
        ensures { result ≡ position (state_of self.now) }
    {
        self.cursor.at().saturating_sub(self.contents.base())
    }

    /// Bits are copied.
    pub fn copy_bits(&mut self, list: &[bool], why: &mut Halt) -> Result<(), Halted>
        ensures ran { OnOk result (Comes (λ path. copies list.now) self.old self.new) }
        ensures begun { OnOk result ((homes : List (ℕ × List ℕ)) → Comes (λ path. begins homes list.now) self.old self.new) }
        ensures halted { OnErr result (HaltsFor (λ path. copies list.now) self.old self.new why.new) }
        ensures not_begun { OnErr result ((homes : List (ℕ × List ℕ)) → HaltsFor (λ path. begins homes list.now) self.old self.new why.new) }
    {
        if !has_room(&self.cursor, list.len() as u64) {
            return Err(tell(why, Halt::Lost));
        }
        put_bits(&mut self.cursor, list);
        Ok(())
    }

    /// The bits of octets are copied.
    pub fn copy_octets(&mut self, octets: &[u8], why: &mut Halt) -> Result<(), Halted>
        ensures ran { OnOk result (Comes (λ path. copies (bits_of octets.now)) self.old self.new) }
        ensures halted { OnErr result (HaltsFor (λ path. copies (bits_of octets.now)) self.old self.new why.new) }
    {
        if !has_room_for_octets(&self.cursor, octets.len() as u64) {
            return Err(tell(why, Halt::Lost));
        }
        put_octets(&mut self.cursor, octets);
        Ok(())
    }

    /// A number is put in so many bits.
    pub fn put(&mut self, width: u32, n: u64, why: &mut Halt) -> Result<(), Halted>
        ensures ran { OnOk result (Comes (λ path. puts width n) self.old self.new) }
        ensures halted { OnErr result (HaltsFor (λ path. puts width n) self.old self.new why.new) }
    {
        if !fits(width, n) {
            return Err(tell(why, Halt::Lost));
        }
        if !has_room(&self.cursor, u64::from(width)) {
            return Err(tell(why, Halt::Lost));
        }
        self.cursor.put(width, n);
        Ok(())
    }

    /// A size is tested, and put in front where the rule says so.
    pub fn size(&mut self, sizing: &Sizing, n: u64, why: &mut Halt) -> Result<(), Halted>
        ensures ran { OnOk result (Comes (λ path. sizes sizing.now n) self.old self.new) }
        ensures halted { OnErr result (HaltsFor (λ path. sizes sizing.now n) self.old self.new why.new) }
    {
        if !sizing.sizes.holds_natural(n) {
            return Err(tell(why, Halt::Breaks));
        }
        match &sizing.rule {
            SizeRule::Prefix { low, width } => self.put_size(*low, *width, n, why),
            SizeRule::Slot(_) => {
                self.cursor.put(0, 0);
                Ok(())
            }
            SizeRule::Ended(_) => {
                self.cursor.put(0, 0);
                Ok(())
            }
        }
    }

    // A size that is permitted is put in front.
    fn put_size(&mut self, low: u64, width: u32, n: u64, why: &mut Halt) -> Result<(), Halted>
        ensures ran { OnOk result ((sizing : SizingOf) → sizing.rule ≡ Prefix low width → has sizing.sizes (pos n) ≡ true → Comes (λ path. sizes sizing n) self.old self.new) }
        ensures halted { OnErr result ((sizing : SizingOf) → sizing.rule ≡ Prefix low width → has sizing.sizes (pos n) ≡ true → HaltsFor (λ path. sizes sizing n) self.old self.new why.new) }
    {
        if n < low {
            return Err(tell(why, Halt::Lost));
        }
        if !fits(width, n - low) {
            return Err(tell(why, Halt::Lost));
        }
        if !has_room(&self.cursor, u64::from(width)) {
            return Err(tell(why, Halt::Lost));
        }
        self.cursor.put(width, n - low);
        Ok(())
    }

    /// A number is tested and coded.
    #[inline(always)]
    pub fn code(&mut self, leaf: &NumLeaf, x: i128, why: &mut Halt) -> Result<(), Halted>
        requires { IsTrue (num_fine leaf.now) }
        ensures ran { OnOk result (Comes (λ path. codes leaf.now x) self.old self.new) }
        ensures halted { OnErr result (HaltsFor (λ path. codes leaf.now x) self.old self.new why.new) }
    {
        match plain_code(leaf, &x) {
            Some(code) => {
                if !has_room(&self.cursor, u64::from(code.width)) {
                    return Err(tell(why, Halt::Lost));
                }
                self.cursor.put(code.width, code.value);
                Ok(())
            }
            None => self.code_any(leaf, x, why),
        }
    }

    // A number is tested and coded, whatever its coding.
    #[inline(never)]
    fn code_any(&mut self, leaf: &NumLeaf, x: i128, why: &mut Halt) -> Result<(), Halted>
        requires { IsTrue (num_fine leaf.now) }
        ensures ran { OnOk result (Comes (λ path. codes leaf.now x) self.old self.new) }
        ensures halted { OnErr result (HaltsFor (λ path. codes leaf.now x) self.old self.new why.new) }
    {
        if !leaf.set.holds(x) {
            return Err(tell(why, Halt::Breaks));
        }
        if !has_room_for_code(&self.cursor, leaf, x) {
            return Err(tell(why, Halt::Lost));
        }
        put_num(&mut self.cursor, leaf, x);
        Ok(())
    }

    /// A text is tested and put.
    pub fn text(&mut self, leaf: &TextLeaf, text: &[u8], why: &mut Halt) -> Result<(), Halted>
        requires { IsTrue (text_fine leaf.now) }
        ensures ran { OnOk result (Comes (λ path. texts leaf.now text.now) self.old self.new) }
        ensures halted { OnErr result (HaltsFor (λ path. texts leaf.now text.now) self.old self.new why.new) }
    {
        if !meets(leaf, text) {
            return Err(tell(why, Halt::Breaks));
        }
        let bits = text_bits(leaf, text);
        if !has_room(&self.cursor, bits) {
            return Err(tell(why, Halt::Lost));
        }
        put_text(&mut self.cursor, leaf, text);
        Ok(())
    }

    /// A hole is left for the number of a slot.
    pub fn open(&mut self, slot: u32, leaf: &'p NumLeaf, why: &mut Halt) -> Result<(), Halted>
        requires { IsTrue (num_fine leaf.now) }
        ensures ran { OnOk result (Comes (λ path. opens slot leaf.now) self.old self.new) }
        ensures halted { OnErr result (HaltsFor (λ path. opens slot leaf.now) self.old self.new why.new) }
    {
        if self.slots.is_begun(slot) {
            return Err(tell(why, Halt::Lost));
        }
        if !self.slots.can_begin() {
            return Err(tell(why, Halt::Full));
        }
        match width(leaf) {
            Some(width) => {
                if !has_room_for_hole(&self.cursor, width) {
                    return Err(tell(why, Halt::Lost));
                }
                let hole = self.cursor.hole(width);
                let end = self.cursor.at();
                self.slots.open(slot, leaf, hole, end);
                Ok(())
            }
            None => Err(tell(why, Halt::Lost)),
        }
    }

    /// A slot is given its own number, one of a set.
    pub fn note(&mut self, slot: u32, set: &RangeSet, x: i128, why: &mut Halt) -> Result<(), Halted>
        ensures ran { OnOk result (Comes (λ path. notes path slot set.now x) self.old self.new) }
        ensures halted { OnErr result (HaltsFor (λ path. notes path slot set.now x) self.old self.new why.new) }
    {
        if !set.holds(x) {
            return Err(tell(why, Halt::Breaks));
        }
        if self.slots.is_begun(slot) {
            return Err(tell(why, Halt::Lost));
        }
        if !self.slots.can_begin() {
            return Err(tell(why, Halt::Full));
        }
        self.slots.note(slot, x);
        Ok(())
    }

    /// A slot is asked.
    pub fn want(&mut self, slot: u32, ask: Ask, why: &mut Halt) -> Result<(), Halted>
        ensures ran { OnOk result (Comes (λ path. wants path slot (ask_of ask)) self.old self.new) }
        ensures halted { OnErr result (HaltsFor (λ path. wants path slot (ask_of ask)) self.old self.new why.new) }
    {
        match self.slots.ask(slot, ask, why) {
            Ok(()) => Ok(()),
            Err(halted) => Err(halted),
        }
    }

    /// The hole of a slot is filled, where it has one, and the slot is ended.
    pub fn fill(&mut self, slot: u32, why: &mut Halt) -> Result<(), Halted>
        ensures ran { OnOk result (Comes (λ path. fills slot) self.old self.new) }
        ensures halted { OnErr result (HaltsFor (λ path. fills slot) self.old self.new why.new) }
    {
        if !self.slots.is_begun(slot) {
            return Err(tell(why, Halt::Lost));
        }
        match self.slots.hole_end(slot) {
            Some(end) => {
                if end > self.cursor.at() {
                    return Err(tell(why, Halt::Lost));
                }
                let Filling { hole, leaf, number } = self.slots.end_opened(slot);
                fill_num(&mut self.cursor, hole, leaf, number);
                Ok(())
            }
            None => {
                self.slots.end_noted(slot);
                Ok(())
            }
        }
    }

    /// Contents begin, behind a hole for their size where it stands in front.
    pub fn enter(&mut self, rule: &SizeRule, why: &mut Halt) -> Result<(), Halted>
        ensures ran { OnOk result (Comes (λ path. enters rule.now) self.old self.new) }
        ensures halted { OnErr result (HaltsFor (λ path. enters rule.now) self.old self.new why.new) }
    {
        if self.contents.depth() >= S {
            return Err(tell(why, Halt::Full));
        }
        if self.contents.depth() >= MOST_STEPS {
            return Err(tell(why, Halt::Lost));
        }
        match rule {
            SizeRule::Prefix { low: _, width } => {
                if !has_room_for_hole(&self.cursor, *width) {
                    return Err(tell(why, Halt::Lost));
                }
                let hole = self.cursor.hole(*width);
                let base = self.cursor.at();
                self.contents.enter(base, hole);
                Ok(())
            }
            SizeRule::Slot(_) => {
                let base = self.cursor.at();
                self.contents.enter_bare(base);
                Ok(())
            }
            SizeRule::Ended(_) => Err(tell(why, Halt::Lost)),
        }
    }

    /// Contents end: the count of their octets is tested, and put in front or asked of a slot.
    pub fn close(&mut self, sizing: &Sizing, why: &mut Halt) -> Result<(), Halted>
        ensures ran { OnOk result ((octets : ℕ) → Comes (λ path. closes path sizing.now octets) self.old self.new) }
        ensures halted { OnErr result ((octets : ℕ) → HaltsFor (λ path. closes path sizing.now octets) self.old self.new why.new) }
    {
        let octets = self.position() / 8;
        if !sizing.sizes.holds_natural(octets) {
            return Err(tell(why, Halt::Miscounts { octets }));
        }
        match &sizing.rule {
            SizeRule::Prefix { low, width } => self.close_sized(*low, *width, octets, why),
            SizeRule::Slot(slot) => self.close_asking(*slot, octets, why),
            SizeRule::Ended(_) => Err(tell(why, Halt::Lost)),
        }
    }

    // Contents end, of which the size stands in front.
    fn close_sized(
        &mut self,
        low: u64,
        width: u32,
        octets: u64,
        why: &mut Halt,
    ) -> Result<(), Halted>
        requires { octets ≡ octets_in (state_of self.old) }
        ensures ran { OnOk result ((sizing : SizingOf) (n : ℕ) → sizing.rule ≡ Prefix low width → has sizing.sizes (pos octets) ≡ true → Comes (λ path. closes path sizing n) self.old self.new) }
        ensures halted { OnErr result ((sizing : SizingOf) (n : ℕ) → sizing.rule ≡ Prefix low width → has sizing.sizes (pos octets) ≡ true → HaltsFor (λ path. closes path sizing n) self.old self.new why.new) }
    {
        if octets < low {
            return Err(tell(why, Halt::Lost));
        }
        if !fits(width, octets - low) {
            return Err(tell(why, Halt::Lost));
        }
        match self.contents.hole() {
            Some(hole) => {
                if hole.1 != width {
                    return Err(tell(why, Halt::Lost));
                }
                if !is_passed(&self.cursor, hole) {
                    return Err(tell(why, Halt::Lost));
                }
                let hole = self.contents.leave();
                self.cursor.fill(hole, octets - low);
                Ok(())
            }
            None => Err(tell(why, Halt::Lost)),
        }
    }

    // Contents end, of which the size is asked of a slot.
    fn close_asking(&mut self, slot: u32, octets: u64, why: &mut Halt) -> Result<(), Halted>
        requires { octets ≡ octets_in (state_of self.old) }
        ensures ran { OnOk result ((sizing : SizingOf) (n : ℕ) → sizing.rule ≡ Slot slot → has sizing.sizes (pos octets) ≡ true → Comes (λ path. closes path sizing n) self.old self.new) }
        ensures halted { OnErr result ((sizing : SizingOf) (n : ℕ) → sizing.rule ≡ Slot slot → has sizing.sizes (pos octets) ≡ true → HaltsFor (λ path. closes path sizing n) self.old self.new why.new) }
    {
        if self.contents.depth() == 0 {
            return Err(tell(why, Halt::Lost));
        }
        match self.contents.hole() {
            Some(_) => Err(tell(why, Halt::Lost)),
            None => {
                let ask = equal(octets);
                match self.slots.ask(slot, ask, why) {
                    Ok(()) => {
                        self.contents.leave_bare();
                        Ok(())
                    }
                    Err(halted) => Err(halted),
                }
            }
        }
    }

    /// Ends a writer with nothing begun, and gives the buffer's writer back.
    pub fn finish(self) -> WriteCursor<'b, N>
        requires begun { (slot : ℕ) → begun (state_of self).table slot ≡ false }
        requires contents { (state_of self).contents ≡ [] }
        ensures bits { bits_of result.buf.now ≡ (state_of self.entry).buf }
        ensures place { place_of result ≡ (state_of self.entry).place }
        ensures same_buffer { result.buf.ghost_name ≡ self.entry.cursor.buf.ghost_name }
    {
        let Writer {
            cursor,
            slots,
            contents,
        } = self;
        slots.close();
        contents.close();
        cursor
    }

    /// Ends a writer behind a halt: what is begun is ended, and zeros stand in its holes. What
    /// stands behind the writer is as before.
    pub fn abandon(self) -> WriteCursor<'b, N>
        requires { HolesPassed (state_of self) }
        ensures { KeepsBehind self.entry.cursor result }
    {
        let Writer {
            mut cursor,
            mut slots,
            mut contents,
        } = self;
        end_slots(&mut cursor, &mut slots);
        end_contents(&mut cursor, &mut contents);
        slots.close();
        contents.close();
        cursor
    }
}

// Ends each slot that is begun, and fills its hole with zeros.
fn end_slots<'p, const N: usize, const S: usize, const A: usize>(
    cursor: &mut WriteCursor<'_, N>,
    slots: &mut Slots<'p, S, A>,
)
    requires { SlotsPassed slots.old.table (place_of cursor.old) }
    ensures ended { (slot : ℕ) → begun slots.new.table slot ≡ false }
    ensures behind { KeepsBehind cursor.old cursor.new }
{
    while let Some(slot) = slots.last_begun() {
        end_slot(cursor, slots, slot);
    }
}

// Ends a slot, and fills its hole with zeros.
fn end_slot<'p, const N: usize, const S: usize, const A: usize>(
    cursor: &mut WriteCursor<'_, N>,
    slots: &mut Slots<'p, S, A>,
    slot: u32,
)
    requires begun { begun slots.old.table slot ≡ true }
    requires passed { SlotsPassed slots.old.table (place_of cursor.old) }
    ensures passed { SlotsPassed slots.new.table (place_of cursor.new) }
    ensures few { length slots.new.table.spots + 1 ≡ length slots.old.table.spots }
    ensures behind { KeepsBehind cursor.old cursor.new }
{
    match slots.hole_end(slot) {
        Some(_) => {
            let Filling {
                hole,
                leaf: _,
                number: _,
            } = slots.end_opened(slot);
            cursor.fill(hole, 0);
        }
        None => slots.end_noted(slot),
    }
}

// Ends all contents, and fills the holes for their sizes with zeros.
fn end_contents<const N: usize, const S: usize>(
    cursor: &mut WriteCursor<'_, N>,
    contents: &mut Contents<S>,
)
    requires { AllPassed contents.old (place_of cursor.old) }
    ensures ended { contents.new ≡ [] }
    ensures behind { KeepsBehind cursor.old cursor.new }
{
    while contents.depth() > 0 {
        end_innermost(cursor, contents);
    }
}

// Ends the innermost contents, and fills the hole for their size with zeros.
fn end_innermost<const N: usize, const S: usize>(
    cursor: &mut WriteCursor<'_, N>,
    contents: &mut Contents<S>,
)
    requires some { 0 < length contents.old }
    requires passed { AllPassed contents.old (place_of cursor.old) }
    ensures passed { AllPassed contents.new (place_of cursor.new) }
    ensures few { length contents.new + 1 ≡ length contents.old }
    ensures behind { KeepsBehind cursor.old cursor.new }
{
    match contents.hole() {
        Some(_) => {
            let hole = contents.leave();
            cursor.fill(hole, 0);
        }
        None => contents.leave_bare(),
    }
}

// That a slot is this number.
fn equal(n: u64) -> Ask
    ensures { ask_of result ≡ Equal (pos n) }
{
    Ask::Equal(i128::from(n))
}
