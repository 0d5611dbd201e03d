//! Laws of paths, orders and arrivals. Each function does nothing, and its clause is the law.
ghost use Rattle.std.specs.Prelude.{◌≡◌, ◌↔◌, ℕ, ℤ, ◌+ℤ◌, ◌-ℤ◌, ◌≤ℤ◌, List, [], ◌++◌};
ghost use Rattle.bud_base.specs.Arrivals.{FollowDelays, FollowStarts, AreSuiting};
ghost use Rattle.bud_base.specs.Orders.{IsOrder, IsCycle, IsLive, Passes};
ghost use Rattle.bud_base.specs.Paths.{Joins, Path, IsPath, end_at, sum_along, room, slack};
ghost use Rattle.bud_base.specs.declared.ids.NodeId.{NodeId};
ghost use Rattle.bud_base.specs.declared.ids.ItemId.{ItemId};
ghost use Rattle.bud_base.specs.declared.problems.Item.{Item};
ghost use Rattle.bud_base.specs.declared.problems.Problem.{Problem};

/// Where two lists of items join up one after the other, so does the whole.
pub fn joined_lists_join()
    ensures { (items : List Item) (xs ys : List ItemId) (a b c : ℕ) → Joins items a xs b → Joins items b ys c
        → Joins items a (xs ++ ys) c }
{}

/// Where a whole joins up, its parts meet at some node.
pub fn joined_lists_part()
    ensures { (items : List Item) (xs ys : List ItemId) (a c : ℕ) → Joins items a (xs ++ ys) c
        → (b : ℕ) × (Joins items a xs b × Joins items b ys c) }
{}

/// A whole adds up to what its parts add up to together.
pub fn sums_add_up()
    ensures { (delay : ItemId → ℤ) (xs ys : List ItemId)
        → sum_along delay (xs ++ ys) ≡ sum_along delay xs +ℤ sum_along delay ys }
{}

/// Where items follow an order of the nodes, no item leads back, so there is no cycle.
pub fn orders_exclude_cycles()
    ensures back { (nodes : ℕ) (items : List Item) (order : List NodeId) → IsOrder nodes items order
        → (is : List ItemId) (node : ℕ) → Joins items node is node → is ≡ [] }
    ensures cycle { (nodes : ℕ) (items : List Item) (order : List NodeId) → IsOrder nodes items order
        → (is : List ItemId) → IsCycle items is → ⊥ }
{}

/// The live nodes are those that a path passes.
pub fn live_nodes_lie_on_paths()
    ensures { (p : Problem) (n : ℕ) → (IsLive p n ↔ ((path : Path) × IsPath p path × Passes p path n)) }
{}

/// Items that join up add up to at most the difference of arrivals that follow their delays.
pub fn arrivals_bound_sums()
    ensures { (items : List Item) (delay : ItemId → ℤ) (arrival : ℕ → ℤ) (is : List ItemId) (a b : ℕ)
        → FollowDelays items delay arrival → Joins items a is b
        → sum_along delay is ≤ℤ (arrival b -ℤ arrival a) }
{}

/// A path has at least the slack that arrivals leave at its end. Where they suit the delays, it adds
/// up to at most its room.
pub fn arrivals_bound_paths()
    ensures slack { (p : Problem) (delay : ItemId → ℤ) (arrival : ℕ → ℤ) (path : Path)
        → FollowDelays p.items delay arrival → FollowStarts p.starts arrival → IsPath p path
        → ((end_at p.ends path.end).require -ℤ arrival (end_at p.ends path.end).node.0) ≤ℤ slack p delay path }
    ensures room { (p : Problem) (delay : ItemId → ℤ) (arrival : ℕ → ℤ) (path : Path)
        → AreSuiting p delay arrival → IsPath p path → sum_along delay path.items ≤ℤ room p path }
{}
