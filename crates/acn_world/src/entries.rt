ghost use Rattle.std.specs.Prelude.{◌≡◌, option_map, option_and_then, slice_get};
ghost use Rattle.std.specs.List.{position_from};
ghost use Rattle.std.specs.Str.{bytes_eq};
ghost use Rattle.acn_asn_syntax.specs.View.{assign_view};
ghost use Rattle.acn_acn_syntax.specs.View.{module_of, entry_of};
ghost use Rattle.acn_index.specs.Views.{index_view};
ghost use Rattle.acn_world.specs.Chained.{entry_view};
ghost use Rattle.acn_index.specs.Lookup as spec;

use acn_acn_syntax::{AcnEntry, AcnModule};
use acn_asn_syntax::Assign;
use acn_firsts::Firsts;
use acn_index::index::Index;
use acn_index::lookup::{item_at, module_at};
use acn_index::references::name_of;
use acn_index::{EntryPlace, TypeId};

/// An ACN entry with its place in the text. What stands earlier in the text has the lower `(acn, entry)`.
#[derive(Clone, Copy)]
pub struct EntryAt<'w> {
    /// The number of the ASN.1 module in which its references are read.
    pub module: u32,
    /// The number of its module among the ACN modules of all files.
    pub acn: usize,
    /// Its number among the entries of that module.
    pub entry: usize,
    /// The entry.
    pub is: &'w AcnEntry,
}

// The number of the first ACN module with this name.
fn acn_place(index: &Index, name: &[u8]) -> Option<usize>
    ensures { result ≡ position_from (λ m. bytes_eq m.name name.now) 0 (index_view index.now).acn }
{
    index.maps.acn.get(name)
}

// The ACN module with this number.
fn acn_at(index: &Index, k: usize) -> Option<&AcnModule>
    ensures { option_map (λ m. module_of m.now) result ≡ slice_get (index_view index.now).acn k }
{
    index.acn.items().get(k)
}

// The first places of the entries in the ACN module with this number.
fn entry_names_at(index: &Index, k: usize) -> Option<&Firsts>
    ensures { option_map (λ f. f.now) result ≡ slice_get index.now.maps.entries k }
{
    index.maps.entries.items().get(k)
}

// The entry with this number.
fn entry_numbered(owner: &AcnModule, i: usize) -> Option<&AcnEntry>
    ensures { option_map (λ e. entry_of e.now) result ≡ slice_get (module_of owner.now).entries i }
{
    owner.entries.items().get(i)
}

// The number of the first entry with this name in the ACN module with this number.
fn entry_number(index: &Index, k: usize, name: &[u8]) -> Option<usize>
    ensures { result ≡ spec.entry_number (index_view index.now) k name.now }
{
    let names = entry_names_at(index, k)?;
    names.get(name)
}

// The place of that entry.
fn place_in(index: &Index, name: &[u8], k: usize) -> Option<EntryPlace>
    ensures { result ≡ spec.place_in (index_view index.now) name.now k }
{
    let entry = entry_number(index, k, name)?;
    Some(EntryPlace { acn: k, entry })
}

// Where the ACN module with a name says something of an assignment.
fn place_of_assign(index: &Index, owner: &[u8], item: &Assign) -> Option<EntryPlace>
    ensures { result ≡ spec.place_of_assign (index_view index.now) owner.now (assign_view item.now) }
{
    let k = acn_place(index, owner)?;
    place_in(index, name_of(item).bytes(), k)
}

// Where the ACN module of an assignment's module says something of it.
#[tactic(auto, unfolding(acn_index::specs::Lookup::entry_place))]
fn entry_place(index: &Index, place: TypeId) -> Option<EntryPlace>
    ensures { result ≡ spec.entry_place (index_view index.now) place }
{
    let owner = module_at(index, place.module)?;
    let item = item_at(owner, place.item)?;
    place_of_assign(index, owner.name.bytes(), item)
}

// The entry that stands at a place.
fn entry_in_place(index: &Index, at: EntryPlace) -> Option<&AcnEntry>
    ensures { option_map (λ e. entry_of e.now) result ≡ spec.entry_in_place (index_view index.now) at }
{
    let owner = acn_at(index, at.acn)?;
    entry_numbered(owner, at.entry)
}

/// What the ACN module of an assignment's module says of it.
pub fn entry_at(index: &Index, place: TypeId) -> Option<&AcnEntry>
    ensures { option_map (λ e. entry_of e.now) result ≡ spec.entry_at (index_view index.now) place }
{
    let at = entry_place(index, place)?;
    entry_in_place(index, at)
}

/// The same with its place.
#[tactic(auto, unfolding(acn_index::specs::Lookup::placed_entry))]
pub fn placed_entry(index: &Index, place: TypeId) -> Option<EntryAt<'_>>
    ensures { option_map entry_view result ≡ spec.placed_entry (index_view index.now) place }
{
    let at = entry_place(index, place)?;
    let is = entry_in_place(index, at)?;
    Some(EntryAt {
        module: place.module,
        acn: at.acn,
        entry: at.entry,
        is,
    })
}
