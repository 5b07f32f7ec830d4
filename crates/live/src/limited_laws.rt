//! Laws of collections up to a limit: each is the contract of a function that does nothing.
ghost use Rattle.std.specs.Prelude.{◌≡◌, ◌↔◌, ℕ, Bool, not, IsTrue, List, [], Contains, take, suc, ◌<◌, filter, sum_by};
ghost use Rattle.std.specs.List.{slice_index_or};
ghost use Rattle.std.specs.FinMap as finite;
ghost use Rattle.paths.specs.Root.{Root};
ghost use Rattle.live.specs.Graph.{Graph, Keep, Path, holds, is_edge, is_valid, references_only};
ghost use Rattle.live.specs.Live.{IsDead, is_live};
ghost use Rattle.live.specs.Limited.{DeletesGroups, is_among, limited_groups, limited_paths, refers};

/// A collection up to a limit has one answer: the groups that it takes are those that are computed.
pub fn limited_collections_have_one_answer()
    ensures { (g : Graph) (dead : Path → Bool) (size : Path → ℕ) (limit : ℕ) (groups : List (List Path)) →
        DeletesGroups g dead size (finite.keys g) limit groups ↔ (groups ≡ limited_groups g dead size limit) }
{}

/// A collection up to a limit of 0 removes nothing.
pub fn a_limit_of_nothing_removes_nothing()
    ensures { (g : Graph) (dead : Path → Bool) (size : Path → ℕ) → limited_paths g dead size 0 ≡ [] }
{}

/// What a collection up to a limit removes is dead.
pub fn limits_remove_dead_paths()
    ensures { (keep : Keep) (g : Graph) (roots : List Root) (size : Path → ℕ) (limit : ℕ) (p : Path) →
        Contains (limited_paths g (λ x. not (is_live keep g roots x)) size limit) p → IsDead keep g roots p }
{}

/// No reference of a path that a collection up to a limit leaves points at one that it removes.
pub fn what_stays_refers_to_nothing_deleted()
    ensures { (g : Graph) (dead : Path → Bool) (size : Path → ℕ) (limit : ℕ) (q p : Path) → IsTrue (is_valid g q)
        → (Contains (limited_paths g dead size limit) q → ⊥) →
        IsTrue (is_edge references_only g q p) → Contains (limited_paths g dead size limit) p → ⊥ }
{}

/// What refers to a member of a group is deleted with that group or with one before: without cycles, before it.
pub fn referrers_are_deleted_with_it_or_before()
    ensures { (g : Graph) (dead : Path → Bool) (size : Path → ℕ) (limit k : ℕ) (q p : Path) → IsTrue (is_valid g q)
        → IsTrue (refers g q p) →
        IsTrue (holds (slice_index_or (limited_groups g dead size limit) k []) p)
        → IsTrue (is_among (take (suc k) (limited_groups g dead size limit)) q) }
{}

/// A limit beyond the bytes of all dead paths removes what no limit removes.
pub fn a_limit_beyond_all_removes_all()
    ensures { (keep : Keep) (g : Graph) (roots : List Root) (size : Path → ℕ) (limit : ℕ)
        → sum_by size (filter (λ x. not (is_live keep g roots x)) (finite.keys g)) < limit →
        limited_paths g (λ x. not (is_live keep g roots x)) size limit ≡ filter
        (λ x. not (is_live keep g roots x)) (finite.keys g) }
{}
