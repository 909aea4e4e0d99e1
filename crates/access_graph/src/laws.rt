//! Laws of the order among systems that conflict. Each function does nothing: its contract is the law.

ghost use Rattle.std.specs.Prelude.{◌≡◌, ◌≢◌, ◌↔◌, ◌<◌, ℕ, Bool, List, length, max, min, IsTrue, IsFalse};
ghost use Rattle.std.specs.FinSet as set;
ghost use Rattle.world_model.specs.declared.access.Access.{Access};
ghost use Rattle.access_graph.specs.declared.edge.Edge.{Edge};
ghost use Rattle.access_graph.specs.Conflicts.{ComesBefore, IsEdge, IsOtherEdge, IsReachable, IsTopLevel, IsWave, Reaches, access_at, systems_conflict};
ghost use Rattle.access_graph.specs.Graphs.{AreEdges, IsGraphOf, SystemGraph, set_at};

/// Whether two systems conflict doesn't depend on their order. Of two different systems that conflict, the
/// one with the smaller number is among those that the other waits for. No memory. (This project's own.)
pub fn conflicting_systems_wait()
    ensures mutual { (a b : Access) → systems_conflict a b ≡ systems_conflict b a }
    ensures smaller { (systems : List Access) (graph : SystemGraph) (i j : ℕ) →
        IsGraphOf systems graph → i < length systems → j < length systems → i ≢ j →
        IsTrue (systems_conflict (access_at systems i) (access_at systems j)) →
        IsTrue (set.contains (set_at graph.preds (max i j)) (min i j)) }
{}

/// Along the edges each system is reached from exactly those from which it is reached in the conflict
/// order; so one to which no edge leads waits for none. No memory. (EnTT: the graph that
/// `organizer.graph()` gives, after its transitive reduction.)
pub fn edges_keep_the_order()
    ensures top { (systems : List Access) (i j : ℕ) → IsTopLevel systems j →
        ¬ ComesBefore systems i j }
    ensures reached { (systems : List Access) (i j : ℕ) →
        IsReachable systems i j ↔ Reaches (IsEdge systems) i j }
{}

/// The edges are the fewest: each of them joins two systems that conflict, without it the later one isn't
/// reached from the earlier one, and it is among any pairs that keep the order. No memory. (This project's
/// own.)
pub fn every_edge_is_needed()
    ensures conflict { (systems : List Access) (i j : ℕ) → IsEdge systems i j →
        IsTrue (systems_conflict (access_at systems i) (access_at systems j)) }
    ensures lost { (systems : List Access) (i j : ℕ) → IsEdge systems i j →
        ¬ Reaches (IsOtherEdge systems i j) i j }
    ensures among { (systems : List Access) (pairs : ℕ → ℕ → Bool) →
        ((i j : ℕ) → IsTrue (pairs i j) → IsReachable systems i j) →
        ((i j : ℕ) → IsReachable systems i j → Reaches (λ a b. IsTrue (pairs a b)) i j) →
        (i j : ℕ) → IsEdge systems i j → IsTrue (pairs i j) }
{}

/// A system's wave is above those of all that it has to wait for, and two systems of one wave don't
/// conflict. No memory. (This project's own.)
pub fn waves_rise()
    ensures above { (systems : List Access) (i j before wave : ℕ) → IsReachable systems i j →
        IsWave systems i before → IsWave systems j wave → before < wave }
    ensures apart { (systems : List Access) (i j wave : ℕ) →
        i < length systems → j < length systems → i ≢ j →
        IsWave systems i wave → IsWave systems j wave →
        IsFalse (systems_conflict (access_at systems i) (access_at systems j)) }
{}

/// Systems have one graph, and so one list of edges, and each of them one wave. No memory. (This project's
/// own.)
pub fn graphs_are_unique()
    ensures graph { (systems : List Access) (graph other : SystemGraph) →
        IsGraphOf systems graph → IsGraphOf systems other → graph ≡ other }
    ensures edges { (systems : List Access) (edges others : List Edge) →
        AreEdges systems edges → AreEdges systems others → edges ≡ others }
    ensures waves { (systems : List Access) (j wave other : ℕ) →
        IsWave systems j wave → IsWave systems j other → wave ≡ other }
{}

/// Any systems have a list of their edges: there can't be none. No memory. (This project's own.)
pub fn systems_have_edges()
    ensures { (systems : List Access) → ((edges : List Edge) → AreEdges systems edges → ⊥) → ⊥ }
{}
