//! What holds of plans of builds.
ghost use Rattle.std.specs.Prelude.{◌≡◌, ◌⊎◌, ℕ, List};
ghost use Rattle.go_text.specs.declared.edition.Edition.{Edition};
ghost use Rattle.ws_version.specs.Writes.{Write};
ghost use Rattle.ws_map.specs.Kept.{SameMembers};
ghost use Rattle.ws_graph.specs.Plan.{NoFiles, IsPlanOf};
ghost use Rattle.ws_graph.specs.BuildPlan.{Directory, IsBuildPlanOf, AreRanks};

/// In an edition the plan of a build depends on the members of the set of writes alone.
pub fn law_one_build_plan()
    ensures { (edition : Edition) (V W : List Write) (target : List ℕ) (ds es : List Directory) → SameMembers V W → IsBuildPlanOf edition V target ds → IsBuildPlanOf edition W target es → ds ≡ es }
{}

/// Each target has no files, or a plan.
pub fn law_some_build_plan()
    ensures { (edition : Edition) (W : List Write) (target : List ℕ) → IsPlanOf edition W target NoFiles ⊎ ((ds : List Directory) × IsBuildPlanOf edition W target ds) }
{}

/// The sound directories of a plan have ranks, and what one of them imports lies lower.
pub fn law_build_plan_is_ranked()
    ensures { (edition : Edition) (W : List Write) (target : List ℕ) (ds : List Directory) → IsBuildPlanOf edition W target ds → (rank : ℕ → ℕ) × AreRanks ds rank }
{}
