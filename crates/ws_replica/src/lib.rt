//! Replicas: what is written and what is compiled, and builds.
#![tactic(auto)]

ghost use Rattle.std.specs.Prelude.{◌≡◌, ℕ, ◌++◌, ◌∷◌, [], List, Option, IfOk, IfErr, IfSome, OnOk, OnErr, Err, Some, None, option_copied, map, string_bytes};
ghost use Rattle.std.specs.List.{All, Contains};
ghost use Rattle.std.specs.Map.{values_of};
ghost use Rattle.ws_map.specs.Kept.{SameMembers};
ghost use Rattle.ws_version.specs.Writes.{Write as AWrite, held_cmp};
ghost use Rattle.ws_map.specs.Kept.{StandsAt, StandsFor, joined};
ghost use Rattle.ws_register.specs.Edits.{top, greatest_at, edit_refusal, removal_refusal, IsRefusal, edited, removed};
ghost use Rattle.ws_register.specs.Sources.{HasFiles, AreGreatestWrites, IsSources};
ghost use Rattle.ws_register.specs.Texted.{texted};
ghost use Rattle.go_code.specs.Images.{Image as AnImage};
ghost use Rattle.go_text.specs.declared.edition.Edition.{Edition as AnEdition};
ghost use Rattle.go_ast.specs.Parse.{Parsed as AParsed};
ghost use Rattle.go_export.specs.Exports.{exports_of};
ghost use Rattle.go_export.specs.Summaries.{summary_of};
ghost use Rattle.go_export.specs.Writable as writable;
ghost use Rattle.go_typed.specs.Trees.{Package as APackage};
ghost use Rattle.ws_action.specs.Actions.{Action as AnAction, MakeAction, action_of};
ghost use Rattle.ws_action.specs.Clash.{NoClash, hashed_actions};
ghost use Rattle.ws_cache.specs.Held.{CacheStandsFor};
ghost use Rattle.ws_graph.specs.BuildPlan.{Directory, SomeHasNoFiles};
ghost use Rattle.ws_graph.specs.Discovery.{string_texts};
ghost use Rattle.ws_cache.specs.Joined.{lesser};
ghost use Rattle.ws_pool.specs.Unshown.{IsUnshown};
ghost use Rattle.ws_replica.specs.Holdings.{Replica as AReplica, ReplicaStandsFor, replica_join};
ghost use Rattle.ws_replica.specs.declared.BuildError.TheVariants.{Memory};
ghost use Rattle.ws_replica.specs.Reports.{TargetBuild, IsTargetBuild, IsReady, Good, actions_of};
ghost use Rattle.ws_replica.specs.Programs.{IsHeldProgram, IsImage};
ghost use Rattle.ws_replica.specs.Builds.{refusal_of};
ghost use Rattle.ws_replica.specs.Jobs.{reached_of};
ghost use Rattle.ws_replica.specs.Plans.{IsKeptPlan};
ghost use Rattle.ws_replica.specs.Targets.{IsReachedBy};
ghost use Rattle.ws_version_vector.specs.Taken.{Brings};
ghost use Rattle.ws_register.specs.News.{HasNewsAt};

pub use building::{Target, build, build_over};
use go_text::edition::Edition;
use go_text::source::Source;
use go_text::text::Text;
pub use id_lines::ids;
pub use linking::image;
use plan::{Plan, kept_or_planned};
use previous::PreviousBuild;
use reached::{Reached, all_reached};
pub use snapshot::{Snapshot, build_from};
pub use starts::numbers_of;
use std::alloc::{AllocError, Global};
use std::marker::Model;
use std::sync::Arc;
use std::thread::Threads;
use thiserror::Error;
use ws_action::Action;
use ws_cache::Cache;
use ws_graph::PlanError;
use ws_path::FilePath;
pub use ws_pool::{Gate, Plain, Point, Step};
use ws_register::{EditError, Registers};
use ws_version::{Held, Join, Write};
use ws_version_vector::News;

mod actions;
mod building;
mod id_lines;
pub mod join;
pub mod law;
mod linking;
mod parts;
mod plan;
mod previous;
mod reached;
mod reporting;
mod sharing;
mod snapshot;
mod starts;
mod stopped;

/// Why there is no report.
#[derive(Debug, Drop, Error)]
pub enum BuildError {
    /// An allocation was refused.
    #[error("out of memory")]
    Memory,
    /// No file of the directory belongs to a build.
    #[error("no package")]
    NoPackage,
}

impl From<PlanError> for BuildError {
    ghost from_gives = { λ refusal e. e ≡ refusal_of refusal };

    fn from(refusal: PlanError) -> BuildError {
        match refusal {
            PlanError::NoPackage => BuildError::NoPackage,
            PlanError::Memory => BuildError::Memory,
        }
    }
}

impl From<AllocError> for BuildError {
    ghost from_gives = { λ _ e. e ≡ Memory };

    fn from(_e: AllocError) -> BuildError {
        BuildError::Memory
    }
}

/// What is held at each path, and what is compiled; the plan of the last build, while the writes
/// stay; and the files and the actions of that plan, for the next one. A copy has no plan.
#[derive(Drop)]
pub struct Replica {
    registers: Registers,
    cache: Cache,
    plan: Option<Plan>,
    past: Option<PreviousBuild>,
}

impl Model for Replica {
    ghost use Rattle.ws_replica.specs.Holdings as holdings;

    ghost Value = { holdings.Replica };

    ghost coded = { holdings.replica_code };

    ghost view = { λ a. record { registers = a.registers; cache = a.cache } };

    ghost use Rattle.ws_replica.specs.Plans as plans;

    ghost invariant = { λ a. plans.KeepsPlan a.registers a.plan };
}

impl Replica {
    /// A replica that took nothing.
    pub fn new(alloc: Global) -> Replica
        ensures stands { ReplicaStandsFor result [] [] }
    {
        Replica {
            registers: Registers::new(alloc),
            cache: Cache::new(alloc),
            plan: None,
            past: None,
        }
    }

    pub(crate) fn registers(&self) -> &Registers
        ensures { result.now ≡ self.now.registers }
    {
        &self.registers
    }

    pub(crate) fn cache(&self) -> &Cache
        ensures { result.now ≡ self.now.cache }
    {
        &self.cache
    }

    /// What the next plan may take of the last one.
    pub(crate) fn past(&self) -> Option<&PreviousBuild> {
        self.past.as_ref()
    }

    /// The plan that is kept, if it is of that edition and of these targets.
    pub(crate) fn plan_of(&self, edition: Edition, targets: &[String]) -> Option<&Plan>
        ensures { IfSome result (λ plan. IsKeptPlan edition self.now.registers (string_texts targets.now) plan.now) }
    {
        let plan = self.plan.as_ref()?;
        if plan.is_of(edition, targets) {
            Some(plan)
        } else {
            None
        }
    }

    /// What is reached of some directories. Its plan is kept, in the place of another.
    pub(crate) fn reach(
        &mut self,
        rt: &(impl Threads + Sync),
        alloc: Global,
        targets: Vec<String>,
        edition: Edition,
    ) -> Result<Vec<Reached>, BuildError>
        ensures same { self.new ≡ self.old }
        ensures ok { IfOk result (λ reached. IsReachedBy edition self.old.registers (string_texts targets.items) (map reached_of reached.items)) }
        ensures none { result ≡ Err BuildError.NoPackage → (W : List AWrite) → StandsFor held_cmp self.old.registers W → SomeHasNoFiles edition W (string_texts targets.items) }
    {
        let kept = self.plan.take();
        let plan = kept_or_planned(
            rt,
            alloc,
            &self.registers,
            &mut self.past,
            kept,
            targets,
            edition,
        )?;
        let reached = all_reached(
            alloc,
            edition,
            self.past.as_ref(),
            plan.directories.as_slice(),
        )?;
        self.plan = Some(plan);
        Ok(reached)
    }

    /// Keeps the actions of a build of its plan, for the next one.
    pub(crate) fn remember(&mut self, actions: Arc<Vec<Arc<Action>>>)
        ensures { self.new ≡ self.old }
    {
        let past = self.past.take();
        self.past = previous::with_actions(past, actions);
    }

    pub(crate) fn put_cache(&mut self, cache: Cache)
        ensures { self.new ≡ record self.old { cache = cache } }
    {
        self.cache = cache;
    }

    /// What is held at a path, a removal too.
    pub fn get(&self, path: &str) -> Option<&Held>
        ensures { (writes : List AWrite) (actions : List AnAction) → ReplicaStandsFor self.now writes actions → StandsAt held_cmp writes path.now (option_copied result) }
    {
        self.registers.get(path)
    }

    /// The greatest counter of the writes, and 0 for none.
    pub fn greatest_counter(&self) -> u64
        ensures stands { (writes : List AWrite) (actions : List AnAction) → ReplicaStandsFor self.now writes actions → result ≡ top writes }
    {
        self.registers.greatest_counter()
    }

    /// Sees that the sources are source texts at paths of files.
    pub fn see_files(&self)
        ensures { (writes : List AWrite) (actions : List AnAction) → ReplicaStandsFor self.now writes actions → HasFiles writes }
    {
        self.registers.see_files();
    }

    /// The replica with that number writes a text at a path: one more than the greatest counter is
    /// its counter. An `Err` changes nothing.
    pub fn edit(&mut self, path: String, source: Source, number: u32) -> Result<(), EditError>
        ensures refused { (writes : List AWrite) (actions : List AnAction) → ReplicaStandsFor self.old writes actions → IfErr result (λ error. IsRefusal error (edit_refusal (top writes) (string_bytes path) source.name)) }
        ensures allowed { (writes : List AWrite) (actions : List AnAction) → ReplicaStandsFor self.old writes actions → OnOk result (edit_refusal (top writes) (string_bytes path) source.name ≡ None) }
        ensures err { OnErr result (self.new ≡ self.old) }
        ensures stands { OnOk result ((writes : List AWrite) (actions : List AnAction) → ReplicaStandsFor self.old writes actions → ReplicaStandsFor self.new (writes ++ (string_bytes path, edited (top writes) number source.text) ∷ []) actions) }
    {
        // So that the counter is known as that of the writes.
        let _greatest = self.registers.greatest_counter();
        self.plan = None;
        self.registers.edit(path, source, number)
    }

    /// The replica with that number removes the file at a path: one more than the greatest counter
    /// is its counter.
    ///
    /// It is `BadPath` if the path isn't one, else `NoFile` if nothing is held there or a removal,
    /// else `CounterFull` if the greatest counter is the last, and `Memory` may come in the place
    /// of any answer. An `Err` changes nothing.
    pub fn remove(&mut self, path: String, number: u32) -> Result<(), EditError>
        ensures refused { (writes : List AWrite) (actions : List AnAction) → ReplicaStandsFor self.old writes actions → IfErr result (λ error. IsRefusal error (removal_refusal (top writes) (string_bytes path) (greatest_at (string_bytes path) writes))) }
        ensures allowed { (writes : List AWrite) (actions : List AnAction) → ReplicaStandsFor self.old writes actions → OnOk result (removal_refusal (top writes) (string_bytes path) (greatest_at (string_bytes path) writes) ≡ None) }
        ensures err { OnErr result (self.new ≡ self.old) }
        ensures stands { OnOk result ((writes : List AWrite) (actions : List AnAction) → ReplicaStandsFor self.old writes actions → ReplicaStandsFor self.new (writes ++ (string_bytes path, removed (top writes) number) ∷ []) actions) }
    {
        self.plan = None;
        self.registers.remove(path, number)
    }

    /// Takes one write, of any replica: it is kept if it is above what is held at its path. An
    /// `Err`, for want of memory, changes nothing.
    pub fn apply(&mut self, write: Write) -> Result<(), AllocError>
        ensures err { OnErr result (self.new ≡ self.old) }
        ensures stands { OnOk result ((writes : List AWrite) (actions : List AnAction) → ReplicaStandsFor self.old writes actions → ReplicaStandsFor self.new (writes ++ write ∷ []) actions) }
    {
        self.plan = None;
        self.registers.apply(write)
    }

    /// Copies of the held writes, removals too, in path order. An `Err` is for want of memory.
    pub fn writes(&self) -> Result<Vec<Write>, AllocError>
        ensures { IfOk result (λ held. (writes : List AWrite) (actions : List AnAction) → ReplicaStandsFor self.now writes actions → AreGreatestWrites writes held.items) }
    {
        let writes = self.registers.writes()?;
        Ok(writes)
    }

    /// Copies of the sources: path and text of each held write that is no removal, in path order.
    /// An `Err` is for want of memory.
    pub fn sources(&self) -> Result<Vec<(String, Text)>, AllocError>
        ensures { IfOk result (λ sources. (writes : List AWrite) (actions : List AnAction) → ReplicaStandsFor self.now writes actions → IsSources writes (texted sources.items)) }
    {
        let sources = self.registers.sources()?;
        Ok(sources)
    }

    /// What it holds now, which is shared and not copied. An `Err` is for want of memory.
    pub fn snapshot(&self) -> Result<Snapshot, AllocError>
        ensures { IfOk result (λ snapshot. snapshot ≡ self.now) }
    {
        let held = self.copy()?;
        Ok(Snapshot::new(held))
    }

    /// Takes the results of a build into its cache. An `Err`, for want of memory, changes nothing.
    pub fn take_results(&mut self, results: &Cache) -> Result<(), AllocError>
        ensures ok { OnOk result (self.new ≡ record self.old { cache = joined lesser self.old.cache results.now }) }
        ensures err { OnErr result (self.new ≡ self.old) }
        ensures stands { OnOk result ((writes : List AWrite) (E F : List AnAction) → ReplicaStandsFor self.old writes E
            → CacheStandsFor results.now F → ReplicaStandsFor self.new writes (E ++ F)) }
    {
        self.cache.merge(results)?;
        Ok(())
    }

    /// Takes what another replica holds, of its writes and of its results what is news: nothing is
    /// looked at where one has all that the other has. An `Err`, for want of memory, changes
    /// nothing.
    pub fn merge_news(
        &mut self,
        other: &Replica,
        writes: News,
        results: News,
    ) -> Result<(), AllocError>
        ensures err { OnErr result (self.new ≡ self.old) }
        ensures stands { OnOk result ((V W : List AWrite) (E F : List AnAction) → Brings writes V W → Brings results E F
            → ReplicaStandsFor self.old V E → ReplicaStandsFor other.now W F → ReplicaStandsFor self.new (V ++ W) (E ++ F)) }
    {
        // Registers go into a copy, so that an `Err` of the caches changes nothing.
        let registers = sharing::registers_of(&self.registers, &other.registers, writes)?;
        sharing::merge_cache(&mut self.cache, &other.cache, results)?;
        self.plan = None;
        self.registers = registers;
        Ok(())
    }

    /// Takes what another replica holds, whose writes have no news but at some paths: these alone
    /// are looked up; of its results it takes what is news. An `Err`, for want of memory, changes
    /// nothing.
    pub fn merge_at(
        &mut self,
        other: &Replica,
        paths: &[FilePath],
        results: News,
    ) -> Result<(), AllocError>
        ensures err { OnErr result (self.new ≡ self.old) }
        ensures stands { OnOk result ((V W : List AWrite) (E F : List AnAction) → HasNewsAt paths.now V W → Brings results E F
            → ReplicaStandsFor self.old V E → ReplicaStandsFor other.now W F → ReplicaStandsFor self.new (V ++ W) (E ++ F)) }
    {
        // Registers go into a copy, so that an `Err` of the caches changes nothing.
        let registers = self.registers.merged_at(&other.registers, paths)?;
        sharing::merge_cache(&mut self.cache, &other.cache, results)?;
        self.plan = None;
        self.registers = registers;
        Ok(())
    }
}

impl Join for Replica {
    ghost use Rattle.ws_replica.specs.Holdings.{replica_join, both-commutative, both-associative, both-idempotent};

    ghost joined = { replica_join };

    ghost commutative = { both-commutative };

    ghost associative = { both-associative };

    ghost idempotent = { both-idempotent };

    fn copy(&self) -> Result<Replica, AllocError> {
        let registers = self.registers.copy()?;
        let cache = self.cache.copy()?;
        let past = previous::copied(self.past.as_ref())?;
        Ok(Replica {
            registers,
            cache,
            plan: None,
            past,
        })
    }

    fn merge(&mut self, other: &Replica) -> Result<(), AllocError>
        ensures ok { OnOk result (self.new ≡ replica_join self.old other.now) }
        ensures err { OnErr result (self.new ≡ self.old) }
        ensures stands { OnOk result ((V W : List AWrite) (E F : List AnAction) → ReplicaStandsFor self.old V E → ReplicaStandsFor other.now W F → ReplicaStandsFor self.new (V ++ W) (E ++ F)) }
    {
        // A copy of registers shares their pages; one of the cache would have it cloned.
        let mut registers = self.registers.copy()?;
        registers.merge(&other.registers)?;
        self.cache.merge(&other.cache)?;
        self.plan = None;
        self.registers = registers;
        Ok(())
    }
}

/// Of one set of writes a target has one plan, whose directories come to one thing each.
pub fn law_one_build()
    ensures { (edition : AnEdition) (V W : List AWrite) (target : List ℕ) (a b : Option TargetBuild) → SameMembers V W → IsTargetBuild edition V target a → IsTargetBuild edition W target b → a ≡ b }
{}

/// Of each set of writes each target has a plan, whose directories come to something.
pub fn law_some_build()
    ensures { (edition : AnEdition) (W : List AWrite) (target : List ℕ) → (build : Option TargetBuild) × IsTargetBuild edition W target build }
{}

/// Replicas that took the same writes and the same results hold the same.
pub fn law_equal_replicas()
    ensures { (a b : AReplica) (V W : List AWrite) (E F : List AnAction) → SameMembers V W → SameMembers E F
        → ReplicaStandsFor a V E → ReplicaStandsFor b W F → a ≡ b }
{}

/// What a replica stands for is a matter of membership alone.
pub fn law_same_members()
    ensures { (a : AReplica) (V W : List AWrite) (E F : List AnAction) → SameMembers V W → SameMembers E F
        → ReplicaStandsFor a V E → ReplicaStandsFor a W F }
{}

/// Replicas that took the same writes and the same results have equal images, where no two hashed
/// texts clash.
pub fn law_equal_images()
    ensures { (edition : AnEdition) (target : List ℕ) (a b : Option AnImage) (V W : List AWrite) (E F : List AnAction) → SameMembers V W → SameMembers E F
        → (p : IsImage edition V E target a) → IsImage edition W F target b → NoClash (hashed_actions (E ++ actions_of edition p.build)) → a ≡ b }
{}

/// The package of the target stands last in its program.
pub fn law_target_is_last()
    ensures { (edition : AnEdition) (W : List AWrite) (target : List ℕ) (build : TargetBuild) (held : List AnAction) (packages : List APackage) → IsTargetBuild edition W target (Some build)
        → IsHeldProgram edition held build packages → (before : List APackage) × (p : APackage) × (packages ≡ before ++ p ∷ []) × (p.path ≡ target) }
{}

/// The text of its summary tells what a good package of a build exports; and the files of each
/// directory make an action with the summaries of its imports, where those are good, which has a
/// summary too, where it is good. So a package without a summary, and a job that is blocked for what
/// is held, come only where hashed texts clash.
pub fn law_built_packages_are_shown()
    ensures shown { (edition : AnEdition) (W : List AWrite) (target : List ℕ) (build : TargetBuild) (p : APackage) → HasFiles W → IsTargetBuild edition W target (Some build)
        → Contains build.fates (Good p) → All writable.IsShown (values_of (exports_of p)) }
    ensures make { (edition : AnEdition) (W : List AWrite) (target : List ℕ) (build : TargetBuild) (d : Directory) (files : List AParsed) (imports : List APackage) → HasFiles W
        → IsTargetBuild edition W target (Some build) → Contains build.directories d → IsReady build.fates d files imports → MakeAction edition files (map summary_of imports) }
    ensures told { (edition : AnEdition) (W : List AWrite) (target : List ℕ) (build : TargetBuild) (d : Directory) (files : List AParsed) (imports : List APackage) → HasFiles W
        → IsTargetBuild edition W target (Some build) → Contains build.directories d → IsReady build.fates d files imports → All writable.IsWritten (map summary_of imports)
        → ¬ (IsUnshown (action_of edition d.path files (map summary_of imports))) }
{}
