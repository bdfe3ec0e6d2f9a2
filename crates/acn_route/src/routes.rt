//! Routes by application process identifiers.

ghost use Rattle.std.specs.Prelude.{◌≡◌, ◌++◌, ◌∷◌, [], ℕ, true, option_map, IfSome, IsErrOf, OnOk, OnErr};
ghost use Rattle.acn_grammar.specs.View.{grammar_of};
ghost use Rattle.acn_plan.specs.Steps.{steps_of};
ghost use Rattle.acn_route.specs.Listed.{has_route, tree_for};
ghost use Rattle.acn_route.specs.Ready.{IsReady};

use crate::route::Route;
use acn_check::Checked;
use acn_num::NoMemory;
use acn_plan::Plan;
use indexmap::IndexMap;
use std::alloc::Global;
use std::marker::Model;

/// Why a route wasn't added.
#[derive(Clone, Copy)]
pub enum AddFault {
    /// The application process identifier has a route.
    Taken { apid: u32 },
    /// Memory ran out.
    NoMemory,
}

impl From<NoMemory> for AddFault {
    ghost use Rattle.acn_route.specs.declared.routes.AddFault.TheVariants as fault;

    ghost from_gives = { λ _ e. e ≡ fault.NoMemory };

    fn from(_: NoMemory) -> Self {
        AddFault::NoMemory
    }
}

/// Which tree the packets of an application process identifier have, for some of them. Contracts see a list of these in the order in
/// which they were added.
#[derive(Drop)]
pub struct Routes {
    alloc: Global,
    routes: IndexMap<u32, Route>,
}

impl Model for Routes {
    ghost use Rattle.std.specs.Coded.{codes};
    ghost use Rattle.std.specs.Prelude.{List};
    ghost use Rattle.acn_grammar.specs.contracts.node.Body as body;
    ghost use Rattle.acn_route.specs.Listed.{Listed};
    ghost use Rattle.acn_route.specs.Ready.{AreReady, all_listed};

    ghost Value = { List Listed };

    ghost coded = { Prim.hlevel (codes, body.the_row.coded) };

    ghost view = { λ r. all_listed r.routes.entries };

    ghost invariant = { λ r. AreReady r.routes.entries };
}

impl Routes {
    /// No routes. It takes no memory.
    pub fn new(alloc: Global) -> Routes
        ensures { result ≡ [] }
    {
        Routes {
            alloc,
            routes: IndexMap::new(alloc),
        }
    }

    /// Adds a tree for an application process identifier, with the plan that `compile` of `acn_plan` makes of it. An identifier above
    /// 2,047 is no packet's.
    ///
    /// `Taken` comes exactly where the identifier has a route, and `NoMemory` where memory runs out; then nothing is added.
    pub fn add(&mut self, apid: u32, checked: Checked, plan: Plan) -> Result<(), AddFault>
        requires { steps_of (grammar_of checked.tree.root) ≡ plan.steps }
        ensures added { OnOk result (self.new ≡ self.old ++ record { apid = apid; tree = checked.tree } ∷ []) }
        ensures kept { OnErr result (self.new ≡ self.old) }
        ensures taken { (a : ℕ) → IsErrOf result (AddFault.Taken a) → (a ≡ apid) × (has_route self.old apid ≡ true) }
        ensures always { has_route self.old apid ≡ true → IsErrOf result (AddFault.Taken apid) }
    {
        if self.routes.contains_key(&apid) {
            return Err(AddFault::Taken { apid });
        }
        let route = Route::of(self.alloc, checked, plan)?;
        match self.routes.insert(apid, route) {
            Ok(_) => Ok(()),
            Err(_) => Err(AddFault::NoMemory),
        }
    }

    /// What is kept of the route of an application process identifier. It takes no memory.
    pub fn route_of(&self, apid: u32) -> Option<&Route>
        ensures found { option_map (λ route. route.now.checked.tree) result ≡ tree_for self.now apid }
        ensures ready { IfSome result (λ route. IsReady route.now) }
    {
        self.routes.get(&apid)
    }
}
