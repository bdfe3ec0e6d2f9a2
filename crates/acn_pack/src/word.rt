//! Numbers of neighbouring fields that go out as one word.

ghost use Rattle.std.specs.Prelude.{◌≡◌, ◌+◌, ◌^◌, ◌<◌, ◌≤◌, [], ◌∷◌, None, drop, length, true, IfSome, IfNone, ℕ, ℤ, pos, List};
ghost use Rattle.acn_grammar.specs.Length.{number_of};
ghost use Rattle.acn_grammar.specs.View.{data_of};
ghost use Rattle.acn_grammar.specs.declared.node.NumLeaf.{NumLeaf};
ghost use Rattle.acn_cut.specs.Cuts.{IsCut};
ghost use Rattle.acn_plan.specs.Runs.{IsRun};
ghost use Rattle.acn_plan.specs.declared.step.Step.{Step as StepData};
ghost use Rattle.acn_pack.specs.Words.{Codes, IsNumberAt, IsWord, PutsRun, Stands, Stays};

use acn_cut::{Cut, Piece};
use acn_grammar::Value;
use acn_plan::Steps;
use acn_writer::{Halt, Writer};

/// Where the walk stands among the fields of a SEQUENCE: at a step, which is that of field `k`,
/// where the next component has the place `next`.
#[derive(Clone, Copy)]
pub struct Spot {
    pub step: usize,
    pub k: u32,
    pub next: usize,
}

/// The codes of numbers as one, and the place of the next component.
#[derive(Clone, Copy)]
pub struct Word {
    pub bits: u64,
    pub width: u32,
    pub next: usize,
}

// The number of a value. Most are INTEGERs.
#[inline(always)]
fn value_number(v: &Value) -> i128
    ensures { result ≡ number_of (data_of v.now) }
{
    match v {
        Value::Int(x) => *x,
        _ => v.number(),
    }
}

// The number of the component at a place, where it is there.
#[inline(always)]
fn component_number(places: &[Option<Value>], next: usize) -> Option<i128>
    ensures { IfSome result (λ x. IsNumberAt true places.now next x) }
{
    match places.get(next) {
        Some(Some(v)) => Some(value_number(v)),
        _ => None,
    }
}

// The code of a number, where it is permitted.
#[inline(always)]
fn code_of(cut: &Cut, x: &i128) -> Option<u64>
    requires { (leaf : NumLeaf) × IsCut cut.now leaf }
    ensures fits { IfSome result (λ code. code < 2 ^ cut.now.width) }
    ensures code { IfSome result (λ code. Codes cut.now x.now code) }
{
    let ahead = x.wrapping_sub(cut.low);
    if ahead < 0 || ahead > i128::from(cut.span) {
        return None;
    }
    Some(cut.first + ahead as u64)
}

// The code of 0, where that is the least number.
#[inline(always)]
fn code_of_zero(cut: &Cut) -> Option<u64>
    requires { (leaf : NumLeaf) × IsCut cut.now leaf }
    ensures fits { IfSome result (λ code. code < 2 ^ cut.now.width) }
    ensures code { IfSome result (λ code. Codes cut.now (pos 0) code) }
{
    if cut.low != 0 {
        return None;
    }
    Some(cut.first)
}

// The code of a field's number, where it is there and permitted.
#[inline(always)]
fn field_code(piece: &Piece, places: &[Option<Value>], next: usize) -> Option<u64>
    requires { (leaf : NumLeaf) × IsCut piece.now.cut leaf }
    ensures fits { IfSome result (λ code. code < 2 ^ piece.now.cut.width) }
    ensures code { IfSome result (λ code. (x : ℤ) × IsNumberAt piece.now.is_component places.now next x × Codes piece.now.cut x code) }
{
    if !piece.is_component {
        return code_of_zero(&piece.cut);
    }
    let x = component_number(places, next)?;
    code_of(&piece.cut, &x)
}

// The codes of a run's numbers, where all are there and permitted.
#[inline(always)]
fn gather(run: &[Piece], places: &[Option<Value>], next: usize) -> Option<Word>
    requires run { (steps : List StepData) × (step : ℕ) × (end : ℕ) × Stands run.now steps step end }
    requires within { next ≤ length places.now }
    ensures { IfSome result (λ word. IsWord run.now (length run.now) places.now next word) }
{
    let mut word = Word {
        bits: 0,
        width: 0,
        next,
    };
    for piece in run {
        let code = field_code(piece, places, word.next)?;
        word.bits = word.bits * (1 << piece.cut.width) + code;
        word.width += piece.cut.width;
        if piece.is_component {
            word.next += 1;
        }
    }
    Some(word)
}

// Writes the numbers of a run as one word, where all are there and permitted.
#[inline(never)]
fn put_some<const N: usize, const S: usize, const A: usize>(
    run: &[Piece],
    places: &[Option<Value>],
    next: usize,
    w: &mut Writer<'_, '_, N, S, A>,
    why: &mut Halt,
) -> Option<usize>
    requires run { (steps : List StepData) × (step : ℕ) × (end : ℕ) × Stands run.now steps step end }
    requires within { next ≤ length places.now }
    ensures some { IfSome result (λ behind. PutsRun run.now places.now next behind w.old w.new) }
    ensures none { IfNone result (Stays w.old w.new) }
{
    let word = gather(run, places, next)?;
    match w.put(word.width, word.bits, why) {
        Ok(()) => Some(word.next),
        Err(_) => None,
    }
}

/// Writes the numbers of a run as one word, where it has some, all of them are there and permitted,
/// and the buffer has room. The answer is the place of the component behind them. With None nothing
/// is written: they are to be written one by one, and the first that can't be is told.
#[inline(always)]
pub fn put_run<const N: usize, const S: usize, const A: usize>(
    run: &[Piece],
    places: &[Option<Value>],
    next: usize,
    w: &mut Writer<'_, '_, N, S, A>,
    why: &mut Halt,
) -> Option<usize>
    requires run { (steps : List StepData) × (step : ℕ) × (end : ℕ) × Stands run.now steps step end }
    requires within { next ≤ length places.now }
    ensures some { IfSome result (λ behind. PutsRun run.now places.now next behind w.old w.new) }
    ensures more { IfSome result (λ behind. 0 < length run.now) }
    ensures none { IfNone result (Stays w.old w.new) }
{
    if run.is_empty() {
        return None;
    }
    put_some(run, places, next, w, why)
}

// As many pieces at the front as there are fields.
#[inline(always)]
fn front(run: &[Piece], fields: usize) -> &[Piece]
    ensures run { (steps : List StepData) (step : ℕ) → IsRun step (drop step steps) run.now → IsRun step (drop step steps) result.now }
    ensures few { length result.now ≤ fields }
{
    match run.get(..fields) {
        Some(front) => front,
        None => run,
    }
}

/// The run that begins with a step, up to the end of the SEQUENCE.
#[inline(always)]
pub fn run_at(steps: &Steps, step: usize, end: usize) -> &[Piece]
    requires { step ≤ end }
    ensures run { IsRun step (drop step steps.now) result.now }
    ensures few { step + length result.now ≤ end }
{
    front(steps.run(step), end - step)
}
