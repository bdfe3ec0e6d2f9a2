ghost use Rattle.acn_index.specs.World.{world_from};
ghost use Rattle.acn_ends.specs.Ends.{AreRight};
ghost use Rattle.acn_world.specs.Faults.{IsSound};
ghost use Rattle.acn_world.specs.Silent.{silent_step};

use crate::chains::{Chain, chain_of};
use crate::entries::{EntryAt, placed_entry};
use crate::roots::roots_of;
use crate::silent::silent_ends;
use acn_acn_syntax::MapTable;
use acn_asn_syntax::{AsnType, AsnValue};
use acn_ends::Ends;
use acn_index::TypeId;
use acn_index::chain::{assigned_link, written};
use acn_index::index::Index;
use acn_index::lookup::{item_at, module_at};
use acn_index::references::{name_of, table_named, type_at, type_in, type_named};
use acn_index::values::value_of;
use acn_num::{Name, NoMemory};
use std::alloc::Global;

/// The modules and tables of all files, in which each name leads somewhere, none to itself, and each to what
/// it must be.
#[derive(Drop)]
pub struct World {
    index: Index,
    /// Where the steps along types end that say nothing of their own.
    silent: Ends,
    ghost stepped: { AreRight (silent_step (world_from index.modules index.acn index.tables)) silent },
    pub ghost sound: { IsSound (world_from index.modules index.acn index.tables) },
}

impl World {
    ghost use Rattle.std.specs.Prelude.{◌≡◌, option_map, option_copied, Some, None, IfOk, IfSome};
    ghost use Rattle.std.specs.List.{All};
    ghost use Rattle.acn_asn_syntax.specs.View.{type_view};
    ghost use Rattle.acn_acn_syntax.specs.View.{entry_of};
    ghost use Rattle.acn_world.specs.Viewed.{world_view, valued_view};
    ghost use Rattle.acn_index.specs.Views.{index_view};
    ghost use Rattle.acn_world.specs.Chained.{chain_view, entry_view};
    ghost use Rattle.acn_index.specs.World as world;
    ghost use Rattle.acn_index.specs.Lookup as lookup;
    ghost use Rattle.acn_index.specs.Values as values;
    ghost use Rattle.acn_index.specs.Chains as chains;
    ghost use Rattle.acn_world.specs.Faults as faults;

    /// The world of an index whose names have no fault.
    pub fn from_index(alloc: Global, index: Index) -> Result<World, NoMemory>
        requires { faults.IsSound (index_view index) }
        ensures { IfOk result (λ world. world_view world ≡ index_view index) }
    {
        let silent = silent_ends(alloc, &index)?;
        Ok(World { index, silent })
    }

    /// The types without parameters to which no other type refers, in the order of the text.
    pub fn roots(&self, alloc: Global) -> Result<Vec<TypeId>, NoMemory>
        ensures roots { IfOk result (λ all. all.items ≡ faults.roots (world_view self.now)) }
        ensures of_types { IfOk result (λ all. All (world.IsType (world_view self.now)) all.items) }
    {
        roots_of(alloc, &self.index)
    }

    /// The type with this name in the module with that name, by an assignment of that module itself. None comes
    /// exactly where there is none. It takes no memory.
    #[tactic(auto, using(crate::proofs::FoundTypes::found_is_type))]
    pub fn find(&self, module: &[u8], name: &[u8]) -> Option<TypeId>
        ensures found { result ≡ lookup.type_in (world_view self.now) «module».now name.now }
        ensures of_type { IfSome result (world.IsType (world_view self.now)) }
    {
        type_in(&self.index, module, name)
    }

    /// What stands along the chain of a type that stands in the module with this number.
    pub fn chain<'w>(
        &'w self,
        alloc: Global,
        module: u32,
        of: &'w AsnType,
    ) -> Result<Chain<'w>, NoMemory>
        ensures { IfOk result (λ chain. chain_view chain ≡ chains.chain_of (world_view self.now) (chains.written «module» (type_view of.now))) }
    {
        chain_of(alloc, &self.index, &self.silent, written(module, of))
    }

    /// What stands along the chain of an assigned type, the entry of the assignment itself included.
    pub fn chain_at<'w>(&'w self, alloc: Global, of: TypeId) -> Result<Chain<'w>, NoMemory>
        requires { world.IsType (world_view self.now) of }
        ensures { IfOk result (λ chain. Some (chain_view chain) ≡ option_map (chains.chain_of (world_view self.now)) (chains.assigned_link (world_view self.now) of)) }
    {
        let first = assigned_link(&self.index, of).unwrap();
        chain_of(alloc, &self.index, &self.silent, first)
    }

    /// The mapping table with this name. None comes exactly where there is none. It takes no memory.
    pub fn table(&self, name: &[u8]) -> Option<&MapTable>
        ensures { option_copied result ≡ lookup.table_named (world_view self.now) name.now }
    {
        table_named(&self.index, name)
    }

    /// The type that an assignment gives a name to. It takes no memory.
    pub fn type_at(&self, of: TypeId) -> &AsnType
        requires { world.IsType (world_view self.now) of }
        ensures { Some (type_view result.now) ≡ world.type_at (world_view self.now) of }
    {
        type_at(&self.index, of).unwrap()
    }

    /// The name of an assignment's module, and its own. It takes no memory.
    pub fn name_of(&self, of: TypeId) -> (&Name, &Name)
        requires { world.IsType (world_view self.now) of }
        ensures owner { Some result.0.now ≡ faults.module_name_at (world_view self.now) of }
        ensures own { Some result.1.now ≡ faults.name_at (world_view self.now) of }
    {
        let owner = module_at(&self.index, of.module).unwrap();
        let item = item_at(owner, of.item).unwrap();
        (&owner.name, name_of(item))
    }

    /// What the ACN module of an assignment's module says of it, with its place in the text. None comes exactly
    /// where no ACN module has an entry for it. It takes no memory.
    #[tactic(auto, using(crate::proofs::EntryPlaces::entry_placed))]
    pub fn entry_at(&self, of: TypeId) -> Option<EntryAt<'_>>
        ensures placed { option_map entry_view result ≡ lookup.placed_entry (world_view self.now) of }
        ensures entry { option_map (λ e. entry_of e.is.now) result ≡ lookup.entry_at (world_view self.now) of }
    {
        placed_entry(&self.index, of)
    }

    /// The type to which a reference in the module with this number leads: its own assignment, else one that it
    /// imports. None comes exactly where it names nothing. It takes no memory.
    #[tactic(auto, using(crate::proofs::FoundTypes::named_is_type))]
    pub fn lookup(&self, module: u32, name: &[u8]) -> Option<TypeId>
        ensures found { result ≡ lookup.type_named (world_view self.now) «module» None name.now }
        ensures of_type { IfSome result (world.IsType (world_view self.now)) }
    {
        type_named(&self.index, module, &None, name)
    }

    /// What an identifier in the module with this number leads to, over references of values: the module, the
    /// type and the value of the last assignment. It takes no memory.
    pub fn value(&self, module: u32, name: &[u8]) -> Option<(u32, &AsnType, &AsnValue)>
        ensures { option_map valued_view result ≡ values.value_of (world_view self.now) «module» name.now }
    {
        let worth = value_of(&self.index, module, name)?;
        Some((worth.owner, worth.of, worth.is))
    }
}
