//! Caches: compiled packages by the ids of their actions.
#![tactic(auto)]

mod layers;
mod levels;

ghost use Rattle.std.specs.Prelude.{◌≡◌, ℕ, ◌++◌, ◌∷◌, [], List, OnOk, OnErr, IfOk, IfErr, Some, is_some, if◌then◌else◌, option_copied, map as map_list};
ghost use Rattle.std.specs.Arc.{arc_value};
ghost use Rattle.std.specs.FinMap as map;
ghost use Rattle.std.specs.List.{All, Contains};
ghost use Rattle.go_text.specs.declared.edition.Edition.{Edition};
ghost use Rattle.go_ast.specs.Trees.{File};
ghost use Rattle.go_ast.specs.Parse.{Parsed};
ghost use Rattle.go_export.specs.Summaries.{Summary as ASummary};
ghost use Rattle.go_export.specs.Writable.{IsWritten};
ghost use Rattle.go_package.specs.Claims.{AtMostOne};
ghost use Rattle.go_package.specs.Imports.{Importable};
ghost use Rattle.go_check.specs.Names.{importable_by};
ghost use Rattle.go_check.specs.Checked.{AreTrees};
ghost use Rattle.ws_map.specs.Kept.{SameMembers, taken, joined as joined_by};
ghost use Rattle.ws_action.specs.Actions.{Action as AnAction, action_of, action_id, HaveEdition};
ghost use Rattle.ws_cache.specs.Claims.{AreGoodOrFaulty, InEachCache, WithoutClash};
ghost use Rattle.ws_cache.specs.Compiles.{Compiled, IsResult, Compiles, compiled_of};
ghost use Rattle.ws_cache.specs.Count.{compiled_count, new_actions_count};
ghost use Rattle.ws_cache.specs.Held.{IsHeld, CacheStandsFor, id_cmp};
ghost use Rattle.ws_cache.specs.Joined.{lesser};

use crate::layers::Layers;
use go_export::summary::Summary;
use go_packed::packed::Packed;
use go_text::fault::Fault;
use std::alloc::{AllocError, Global};
use std::cmp::Ordering;
use std::marker::Model;
use std::sync::Arc;
use ws_action::{Action, Origin};
use ws_map::Ranked;
use ws_version::Join;

/// What compiling a package gives.
#[derive(Drop)]
pub enum Outcome {
    /// The package is good: what its importers know of it, and the object that it is translated to.
    Good(Arc<Summary>, Arc<Packed>),
    /// The package has the fault, which is the first to report.
    Faulty(Fault),
}

impl Outcome {
    /// Another of equal contents, which shares the summary and the object. An `Err` only where memory ran out.
    pub fn copy(&self) -> Result<Outcome, AllocError>
        ensures { IfOk result (λ copy. compiled_of copy ≡ compiled_of self.now) }
    {
        match self {
            Outcome::Good(summary, object) => {
                Ok(Outcome::Good(summary.clone()?, object.clone()?))
            }
            Outcome::Faulty(fault) => Ok(Outcome::Faulty(fault.copy()?)),
        }
    }
}

/// What an action is without its trees.
fn origin_of(action: &Action) -> Result<Arc<Origin>, AllocError>
    ensures { IfOk result (λ origin. arc_value origin ≡ action.now) }
{
    let origin = Origin::of(action)?;
    Ok(Arc::new(action.allocator(), origin)?)
}

/// What an action was, with what compiling it gives, and its id. It holds texts, which copies and
/// registers share, and no trees.
#[derive(Drop)]
pub struct Entry {
    origin: Arc<Origin>,
    id: [u8; 32],
    outcome: Outcome,
}

impl Model for Entry {
    ghost use Rattle.std.specs.Prelude.{◌≡◌};
    ghost use Rattle.std.specs.Arc.{arc_value};
    ghost use Rattle.ws_action.specs.Actions as actions;
    ghost use Rattle.ws_cache.specs.Compiles as compiles;

    ghost Value = { actions.Action };

    ghost coded = { actions.action_code };

    ghost view = { λ a. arc_value a.origin };

    ghost invariant = { λ a. (a.id ≡ actions.action_id (arc_value a.origin)) × compiles.Compiles (arc_value a.origin) (compiles.compiled_of a.outcome) };
}

impl Entry {
    /// The entry of an action and what compiling it gives. An `Err`, for want of memory, gives
    /// the action back.
    pub fn new(action: Action, outcome: Outcome) -> Result<Entry, Action>
        requires { Compiles action (compiled_of outcome) }
        ensures ok { IfOk result (λ entry. entry ≡ action) }
        ensures err { IfErr result (λ back. back ≡ action) }
    {
        let Ok(origin) = origin_of(&action) else {
            return Err(action);
        };
        match action.id() {
            Ok(id) => Ok(Entry {
                origin,
                id,
                outcome,
            }),
            Err(_) => Err(action),
        }
    }

    /// The action's id.
    pub fn id(&self) -> [u8; 32]
        ensures { result ≡ action_id self.now }
    {
        self.id
    }

    /// What was compiled.
    pub fn origin(&self) -> &Origin
        ensures { result.now ≡ self.now }
    {
        &self.origin
    }

    /// What compiling the action gives.
    pub fn outcome(&self) -> &Outcome
        ensures { Compiles self.now (compiled_of result.now) }
    {
        &self.outcome
    }

    /// Another of equal contents, which shares them. An `Err` only where memory ran out.
    pub fn copy(&self) -> Result<Entry, AllocError>
        ensures { IfOk result (λ copy. copy ≡ self.now) }
    {
        Ok(Entry {
            origin: Arc::try_clone(&self.origin)?,
            id: self.id,
            outcome: self.outcome.copy()?,
        })
    }
}

impl Clone for Entry {
    ghost is_clone = { λ entry clone. clone ≡ entry };

    fn clone(&self) -> Result<Entry, AllocError> {
        self.copy()
    }
}

impl Ranked for Entry {
    ghost use Rattle.ws_cache.specs.Joined.{downwards};
    ghost use Rattle.ws_cache.specs.Laws.{downwards_total, downwards-IsAntisymmetric};

    ghost rank = { downwards };

    ghost total = { downwards_total };

    ghost one = { downwards-IsAntisymmetric };

    ghost cloned = { λ a b e. e };

    /// Of two entries that of the lesser action stays.
    fn is_below(&self, other: &Entry) -> bool {
        match other.origin.cmp_origin(&self.origin) {
            Ordering::Less => true,
            _ => false,
        }
    }
}

/// Entries by their ids: for each id the entry of the least action that was put with it.
#[derive(Drop)]
pub struct Cache {
    entries: Layers<[u8; 32], Entry>,
}

impl Model for Cache {
    ghost use Rattle.std.specs.FinMap as finite;
    ghost use Rattle.std.specs.Coded.{coded_ℕ, coded_list};
    ghost use Rattle.ws_action.specs.Actions as actions;
    ghost use Rattle.ws_cache.specs.Held as held;

    ghost Value = { finite.FinMap held.id_cmp actions.Action };

    ghost coded = { finite.code (coded_list coded_ℕ) actions.action_code };

    ghost view = { λ a. a.entries };
}

impl Cache {
    /// A cache of no entries.
    pub fn new(alloc: Global) -> Cache
        ensures empty { result ≡ map.empty }
        ensures stands { CacheStandsFor result [] }
    {
        Cache {
            entries: Layers::new(alloc),
        }
    }

    /// The entry with that id: of all that were put with it, that of the least action.
    pub fn get(&self, id: &[u8; 32]) -> Option<&Entry>
        ensures value { option_copied result ≡ map.get self.now id.now }
        ensures stands { (E : List AnAction) → CacheStandsFor self.now E → IsHeld E id.now (option_copied result) }
    {
        self.entries.get(id)
    }

    /// Adds an entry: of two with one id that of the lesser action stays. An `Err`, for want of
    /// memory, gives the entry back and changes nothing.
    pub fn put(&mut self, entry: Entry) -> Result<(), Entry>
        ensures ok { OnOk result (self.new ≡ taken lesser self.old (action_id entry) entry) }
        ensures back { IfErr result (λ back. back ≡ entry) }
        ensures err { OnErr result (self.new ≡ self.old) }
        ensures stands { OnOk result ((E : List AnAction) → CacheStandsFor self.old E → CacheStandsFor self.new (E ++ entry ∷ [])) }
    {
        let id = entry.id();
        self.entries.take(id, entry)?;
        Ok(())
    }
}

impl Join for Cache {
    ghost use Rattle.ws_map.specs.Kept.{joined as joined_by};
    ghost use Rattle.ws_map.proofs.Kept.{joined-commutative, joined-associative, joined-idempotent};
    ghost use Rattle.ws_map.proofs.Keyed.{bytes_cmp_total, bytes_cmp-IsAntisymmetric};
    ghost use Rattle.ws_cache.specs.Joined.{lesser};
    ghost use Rattle.ws_cache.specs.Laws.{lesser-semilattice};

    ghost joined = { joined_by lesser };

    ghost commutative = { joined-commutative bytes_cmp_total bytes_cmp-IsAntisymmetric lesser-semilattice };

    ghost associative = { joined-associative bytes_cmp_total bytes_cmp-IsAntisymmetric lesser-semilattice };

    ghost idempotent = { joined-idempotent bytes_cmp_total bytes_cmp-IsAntisymmetric lesser-semilattice };

    /// Another of equal contents, which shares them. An `Err` only where memory ran out.
    fn copy(&self) -> Result<Cache, AllocError> {
        let entries = self.entries.copy()?;
        Ok(Cache { entries })
    }

    /// Adds all entries of the other: of two with one id that of the lesser action stays. An
    /// `Err`, for want of memory, changes nothing.
    fn merge(&mut self, other: &Cache) -> Result<(), AllocError>
        ensures ok { OnOk result (self.new ≡ joined_by lesser self.old other.now) }
        ensures err { OnErr result (self.new ≡ self.old) }
        ensures stands { OnOk result ((E F : List AnAction) → CacheStandsFor self.old E → CacheStandsFor other.now F → CacheStandsFor self.new (E ++ F)) }
    {
        self.entries.merge(&other.entries)?;
        Ok(())
    }
}

/// Compiling an action gives one outcome.
pub fn law_one_outcome()
    ensures { (action : AnAction) (a b : Compiled) → Compiles action a → Compiles action b → a ≡ b }
{}

/// Files at a path, which may import some packages, come to one thing; where they parse they come to
/// something.
pub fn law_one_result()
    ensures one { (path : List ℕ) (files : List Parsed) (imports : List Importable) → AtMostOne (IsResult path files imports) }
    ensures some { (path : List ℕ) (files : List Parsed) (imports : List Importable) (trees : List File) → AreTrees files trees → AreGoodOrFaulty path files imports }
{}

/// What is held for an action is what its files come to by the summaries that it was formed of,
/// which are of its edition as its files are, whatever summaries with the same texts it was
/// compiled against.
pub fn law_held_is_result()
    ensures { (edition : Edition) (path : List ℕ) (files : List Parsed) (summaries : List ASummary) → HaveEdition edition files summaries → All IsWritten summaries → (a b : Compiled) → Compiles (action_of edition path files summaries) a → IsResult path files (map_list importable_by summaries) b → a ≡ b }
{}

/// Caches that stand for the same actions are one, however each came about.
pub fn law_same_actions()
    ensures { (m n : map.FinMap id_cmp AnAction) (E F : List AnAction) → SameMembers E F → CacheStandsFor m E → CacheStandsFor n F → m ≡ n }
{}

/// To put an action again changes nothing.
pub fn law_put_again()
    ensures { (m : map.FinMap id_cmp AnAction) (E : List AnAction) (a : AnAction) → CacheStandsFor m E → Contains E a → taken lesser m (action_id a) a ≡ m }
{}

/// Where the hashed texts do not clash, the id of each action that was put gives that action.
pub fn law_found_itself()
    ensures { (texts : List (List ℕ)) (E : List AnAction) → WithoutClash texts E (InEachCache E (λ m. (a : AnAction) → Contains E a → map.get m (action_id a) ≡ Some a)) }
{}

/// Where the hashed texts do not clash, what is found by an action's id is the action, also where
/// the action was not put.
pub fn law_found_no_other()
    ensures { (texts : List (List ℕ)) (E : List AnAction) (a b : AnAction) → WithoutClash texts (E ++ a ∷ []) (InEachCache E (λ m. map.get m (action_id a) ≡ Some b → b ≡ a)) }
{}

/// Of one action none is to be compiled where its id is found, and else one.
pub fn law_count_of_one()
    ensures { (m : map.FinMap id_cmp AnAction) (E : List AnAction) (a : AnAction) → CacheStandsFor m E
        → compiled_count E (a ∷ []) ≡ (if is_some (map.get m (action_id a)) then 0 else 1) }
{}

/// Where the hashed texts do not clash, as many ids are new as actions.
pub fn law_counts_agree()
    ensures { (texts : List (List ℕ)) (E actions : List AnAction) → WithoutClash texts (E ++ actions) (compiled_count E actions ≡ new_actions_count E actions) }
{}
