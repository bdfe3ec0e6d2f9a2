//! The numbers of slots.

ghost use Rattle.std.specs.Prelude.{◌≡◌, ◌++◌, List, ℕ, ℤ, IfOk, OnOk};
ghost use Rattle.std.specs.List.{zip};
ghost use Rattle.acn_asks.specs.Heard.{Hears};
ghost use Rattle.acn_grammar.specs.Asks.{Ask};
ghost use Rattle.acn_grammar.specs.AsksOn.{LeastAnswer, Meetable};
ghost use Rattle.acn_grammar.specs.Grammar.{Grammar, Places};
ghost use Rattle.acn_grammar.specs.Spell.{with_home};
ghost use Rattle.acn_grammar.specs.View.{fields_view};
ghost use Rattle.acn_plain_write.specs.Home.{AreLeast, IsLeast};
ghost use Rattle.acn_plain_write.specs.Ready.{HomeReady};

use acn_asks::Heard;
use acn_determinants::{Determinant, determinants};
use acn_grammar::Field;
use acn_num::{NoMemory, Path, RangeSet, Row};
use std::alloc::Global;

// The least permitted number of a field that meets all that was asked of it.
fn least_of(heard: &Heard, field: &[u32], set: &RangeSet) -> i128
    requires { (wanted : List Ask) × Hears set.now wanted heard.now field.now × Meetable set.now wanted }
    ensures { (wanted : List Ask) → Hears set.now wanted heard.now field.now → LeastAnswer set.now wanted result }
{
    match heard.least(field, set) {
        Some(x) => x,
        None => unreachable!(),
    }
}

// Some steps behind a path.
fn behind(alloc: Global, path: &Path, steps: &[u32]) -> Result<Row<u32>, NoMemory>
    ensures { IfOk result (λ all. all ≡ path.now ++ steps.now) }
{
    let mut all = Vec::from_slice(alloc, path.steps())?;
    all.extend_from_slice(steps)?;
    Ok(Row::from_vec(all))
}

// The number of a determinant in the occurrence of its home at a path.
fn number_of(
    alloc: Global,
    heard: &Heard,
    path: &Path,
    determinant: &Determinant<'_>,
) -> Result<i128, NoMemory>
    requires { (x : ℤ) × IsLeast heard.now path.now determinant.now x }
    ensures { IfOk result (λ y. (x : ℤ) → IsLeast heard.now path.now determinant.now x → y ≡ x) }
{
    let field = behind(alloc, path, determinant.steps.items())?;
    Ok(least_of(heard, field.items(), &determinant.leaf.set))
}

// The numbers of some determinants, each with its slot.
fn home_numbers(
    alloc: Global,
    heard: &Heard,
    path: &Path,
    all: &[Determinant<'_>],
) -> Result<Row<(u32, i128)>, NoMemory>
    requires { (home : List ℕ) × (xs : List ℤ) × AreLeast heard.now path.now all.now home xs }
    ensures { IfOk result (λ numbers. (home : List ℕ) (xs : List ℤ) → AreLeast heard.now path.now all.now home xs → numbers ≡ zip home xs) }
{
    let mut numbers = Row::new(alloc);
    for determinant in all {
        let x = number_of(alloc, heard, path, determinant)?;
        numbers.push((determinant.slot, x))?;
    }
    Ok(numbers)
}

// Adds numbers behind others.
fn add_all(numbers: &mut Row<(u32, i128)>, more: &[(u32, i128)]) -> Result<(), NoMemory>
    ensures { OnOk result (numbers.new ≡ numbers.old ++ more.now) }
{
    for number in more {
        numbers.push(*number)?;
    }
    Ok(())
}

/// The numbers of the slots at home in a SEQUENCE at a path, each with its slot, in front of those of the slots round it.
pub fn numbers_at_home(
    alloc: Global,
    heard: &Heard,
    fields: &[Field],
    home: &[u32],
    path: &Path,
    around: &[(u32, i128)],
) -> Result<Row<(u32, i128)>, NoMemory>
    requires { (root : Grammar) × (ps : Places) × (xs : List ℤ) × HomeReady root heard.now path.now (fields_view fields.now) home.now ps xs }
    ensures { IfOk result (λ numbers. (root : Grammar) (ps : Places) (xs : List ℤ) → HomeReady root heard.now path.now (fields_view fields.now) home.now ps xs → numbers ≡ with_home home.now xs around.now) }
{
    let all = determinants(alloc, fields, home)?;
    let mut numbers = home_numbers(alloc, heard, path, all.items())?;
    add_all(&mut numbers, around)?;
    Ok(numbers)
}
