//! The graph of systems that have to wait for each other.

ghost use Rattle.std.specs.Prelude.{◌≡◌, ◌==◌, ◌↔◌, ◌<◌, ◌≤◌, ℕ, List, not, if◌then◌else◌};
ghost use Rattle.std.specs.Prelude.{length, slice_index, IfOk, IsTrue};
ghost use Rattle.std.specs.Int.{bit_at};
ghost use Rattle.std.specs.FinSet as set;
ghost use Rattle.std.specs.List.{list_any};
ghost use Rattle.world_model.specs.declared.access.Access.{Access};
ghost use Rattle.access_graph.specs.Conflicts.{ComesBefore, IsTopLevel, IsWave};
ghost use Rattle.access_graph.specs.Graphs.{IsGraphOf, set_at};
ghost use Rattle.access_graph.specs.Systems.{system_limit};

use super::building::Building;
use super::{Edge, Systems};
use entity_id::OutOfMemory;
use std::alloc::Global;
use std::marker::Model;
use world_model::Access;

/// Which systems have to wait for which. Each system is its place in the list that the graph was made of.
/// A contract sees for each of them those that it waits for and its wave, and the edges of all
/// (`SystemGraph` in `specs/Graphs.antt`). (EnTT: the adjacency list that `organizer.graph()` gives.)
#[derive(Debug, Drop)]
pub struct Graph {
    preds: Vec<Systems>,
    waves: Vec<u32>,
    edges: Vec<Edge>,
}

impl Model for Graph {
    ghost use Rattle.std.specs.Prelude.{◌≡◌, ◌≤◌, length};
    ghost use Rattle.access_graph.specs.Graphs.{SystemGraph, graph_code};
    ghost use Rattle.access_graph.specs.Systems.{system_limit};

    ghost Value = { SystemGraph };

    ghost coded = { graph_code };

    ghost view = { λ a. record {
      preds = a.preds.items;
      waves = a.waves.items;
      edges = a.edges.items;
    } };

    ghost invariant = { λ a. (length a.preds.items ≤ system_limit) ×
        (length a.waves.items ≡ length a.preds.items) };
}

impl Graph {
    /// The graph of these systems, of which there are at most 64. `OutOfMemory` where there is no memory
    /// for it. For n systems it compares at most n² / 2 pairs of them, unites two sets for each pair that
    /// conflicts, and takes a step for each edge, of which there are at most n² / 4. (EnTT:
    /// `organizer.graph()`.)
    pub fn new(alloc: Global, accesses: &[Access]) -> Result<Graph, OutOfMemory>
        requires { length accesses.now ≤ system_limit }
        ensures { IfOk result (λ graph. IsGraphOf accesses.now graph) }
    {
        let mut building = Building::new(alloc);
        for _ in 0..accesses.len() {
            building.add(accesses)?;
        }
        Ok(Graph {
            preds: building.preds,
            waves: building.waves,
            edges: building.edges,
        })
    }

    /// How many systems it has, at most 64. No memory.
    pub fn len(&self) -> u32
        ensures { result ≡ length self.now.preds }
    {
        self.preds.len() as u32
    }

    /// The earlier systems that conflict with a system, which it waits for, as a set. No memory.
    pub fn before(&self, system: u32) -> &Systems
        requires { system < length self.now.preds }
        ensures set { result.now ≡ set_at self.now.preds system }
        ensures earlier { (systems : List Access) → IsGraphOf systems self.now →
            (i : ℕ) → IsTrue (set.contains result.now i) ↔ ComesBefore systems i system }
    {
        &self.preds[system as usize]
    }

    /// The earlier systems that conflict with a system, as the bits of a number. No memory.
    pub fn preds(&self, system: u32) -> u64
        requires { system < length self.now.preds }
        ensures bits { (i : ℕ) → bit_at result i
            ≡ (if set.contains (set_at self.now.preds system) i then 1 else 0) }
        ensures earlier { (systems : List Access) → IsGraphOf systems self.now →
            (i : ℕ) → (bit_at result i ≡ 1) ↔ ComesBefore systems i system }
    {
        self.before(system).bits()
    }

    /// The fewest edges along which each system is reached from all that it waits for, in ascending order
    /// of the systems that they lead to, and for each of these of the systems that they come from. No
    /// memory.
    pub fn edges(&self) -> &[Edge]
        ensures { result.now ≡ self.now.edges }
    {
        &self.edges
    }

    /// Whether no edge leads to a system, so that it waits for none. No memory. (EnTT: `top_level` of a
    /// vertex.)
    pub fn top_level(&self, system: u32) -> bool
        requires { system < length self.now.preds }
        ensures edges { result ≡ not (list_any (λ edge. edge.to == system) self.now.edges) }
        ensures waits { (systems : List Access) → IsGraphOf systems self.now →
            IsTrue result ↔ IsTopLevel systems system }
    {
        !lead_to(&self.edges, system)
    }

    /// The wave of a system: how many edges the longest way to it has. No memory.
    pub fn wave(&self, system: u32) -> u32
        requires { system < length self.now.preds }
        ensures at { result ≡ slice_index self.now.waves system }
        ensures longest { (systems : List Access) → IsGraphOf systems self.now →
            IsWave systems system result }
    {
        self.waves[system as usize]
    }
}

// Whether one of these edges leads to a system.
fn lead_to(edges: &[Edge], system: u32) -> bool
    ensures { result ≡ list_any (λ edge. edge.to == system) edges.now }
{
    edges.iter().any(|edge| edge.to == system)
}
