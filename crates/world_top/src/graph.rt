//! Which systems of a document wait for which.

ghost use Rattle.std.specs.Prelude.{◌≡◌, ◌≢◌, ◌≤◌, ◌++◌, List, Some, length, map, slice_get, take, OnOk, IfOk, IfErr};
ghost use Rattle.std.specs.List.{flat_map, AllByRecursion};
ghost use Rattle.access_graph.specs.declared.edge.Edge.{Edge};
ghost use Rattle.access_graph.specs.Graphs.{AreEdges, AreOrdered};
ghost use Rattle.access_graph.specs.Systems.{system_limit};
ghost use Rattle.world_top.specs.Graphed.{accesses_of, graph_text, spaced, task_line, task_lines, waits_text};
ghost use Rattle.world_top.specs.Output.{IsOutput, IsInputCause};

use super::Verb;
use super::canonical::read_document;
use access_graph::{Edge, Graph};
use entity_id::{OutOfMemory, Pools};
use itoa::Buffer;
use row_lang::SystemDef;
use std::alloc::Global;
use world_model::Access;
use world_text::TextRefused;

/// What `graph` prints for an input: the systems of the document that it is, each with those that it
/// waits for.
pub fn graph(alloc: Global, input: Vec<u8>) -> Result<Vec<u8>, TextRefused>
    ensures ok { IfOk result (λ out. IsOutput Verb.Graph input.items out.items) }
    ensures cause { IfErr result (IsInputCause Verb.Graph input.items) }
{
    let document = read_document(alloc, input)?;
    match write_graph(alloc, document.systems.as_slice()) {
        Ok(out) => Ok(out),
        Err(_) => Err(TextRefused::OutOfMemory),
    }
}

// The text of systems and of the edges among them.
fn write_graph(alloc: Global, systems: &[SystemDef]) -> Result<Vec<u8>, OutOfMemory>
    requires { length systems.now ≤ system_limit }
    ensures { IfOk result (λ out. (edges : List Edge) ×
        AreEdges (accesses_of systems.now) edges × (out.items ≡ graph_text systems.now edges)) }
{
    let accesses = copy_accesses(alloc, systems)?;
    let graph = Graph::new(alloc, &accesses)?;
    let edges = graph.edges();
    let mut out = Vec::new(alloc);
    push_tasks(&mut out, systems, edges)?;
    out.extend_from_slice(b"edges")?;
    push_spaced(&mut out, edges.len() as u64)?;
    out.push(b'\n')?;
    Ok(out)
}

// What each system uses, and how.
fn copy_accesses(alloc: Global, systems: &[SystemDef]) -> Result<Vec<Access>, OutOfMemory>
    ensures { IfOk result (λ accesses. accesses.items ≡ accesses_of systems.now) }
{
    let mut accesses = Vec::with_capacity(alloc, systems.len())?;
    for system in systems {
        accesses.push(copy_access(alloc, system.access())?)?;
    }
    Ok(accesses)
}

fn copy_access(alloc: Global, access: &Access) -> Result<Access, OutOfMemory>
    ensures { IfOk result (λ copy. copy ≡ access.now) }
{
    Ok(Access {
        read: copy_pools(alloc, &access.read)?,
        write: copy_pools(alloc, &access.write)?,
        look: copy_pools(alloc, &access.look)?,
        without: copy_pools(alloc, &access.without)?,
    })
}

fn copy_pools(alloc: Global, pools: &Pools) -> Result<Pools, OutOfMemory>
    ensures { IfOk result (λ copy. copy ≡ pools.now) }
{
    Ok(Pools::from_vec(pools.as_slice().to_vec(alloc)?))
}

// Appends the lines of systems. The edges stand in the order of where they lead to.
fn push_tasks(out: &mut Vec<u8>, systems: &[SystemDef], edges: &[Edge]) -> Result<(), OutOfMemory>
    requires few { length systems.now ≤ system_limit }
    requires ordered { AreOrdered edges.now }
    ensures { OnOk result (out.new.items ≡ out.old.items ++ task_lines edges.now 0 systems.now) }
{
    let mut rest = edges;
    for number in 0..systems.len() {
        let (leading, others) = rest.split_at(count_leading(rest, number as u32));
        push_task(out, number as u32, &systems[number], leading)?;
        rest = others;
    }
    Ok(())
}

// How many edges at the front lead to the system of this number.
fn count_leading(edges: &[Edge], number: u32) -> usize
    ensures within { result ≤ length edges.now }
    ensures each { AllByRecursion (λ edge. edge.to ≡ number) (take result edges.now) }
    ensures end { (edge : Edge) → slice_get edges.now result ≡ Some edge → edge.to ≢ number }
{
    for at in 0..edges.len() {
        if edges[at].to != number {
            return at;
        }
    }
    edges.len()
}

// Appends the line of the system of this number, to which these edges lead.
fn push_task(
    out: &mut Vec<u8>,
    number: u32,
    system: &SystemDef,
    leading: &[Edge],
) -> Result<(), OutOfMemory>
    ensures { OnOk result (out.new.items ≡ out.old.items
        ++ task_line number system.now.name (map (λ edge. edge.from) leading.now)) }
{
    out.extend_from_slice(b"task")?;
    push_spaced(out, number as u64)?;
    out.push(b' ')?;
    out.extend_from_slice(system.name().as_slice())?;
    push_waits(out, leading)?;
    out.push(b'\n')?;
    Ok(())
}

// Appends what a system waits for, to which these edges lead.
fn push_waits(out: &mut Vec<u8>, leading: &[Edge]) -> Result<(), OutOfMemory>
    ensures { OnOk result (out.new.items ≡ out.old.items
        ++ waits_text (map (λ edge. edge.from) leading.now)) }
{
    if leading.is_empty() {
        out.extend_from_slice(b" top")?;
        return Ok(());
    }
    out.extend_from_slice(b" after")?;
    push_sources(out, leading)
}

// Appends the number of the system from which each edge comes, behind a space.
fn push_sources(out: &mut Vec<u8>, edges: &[Edge]) -> Result<(), OutOfMemory>
    ensures { OnOk result (out.new.items ≡ out.old.items
        ++ flat_map spaced (map (λ edge. edge.from) edges.now)) }
{
    for edge in edges {
        push_spaced(out, edge.from as u64)?;
    }
    Ok(())
}

// Appends a number behind a space.
fn push_spaced(out: &mut Vec<u8>, number: u64) -> Result<(), OutOfMemory>
    ensures { OnOk result (out.new.items ≡ out.old.items ++ spaced number) }
{
    let mut buffer = Buffer::new();
    out.push(b' ')?;
    out.extend_from_slice(buffer.format(number).as_bytes())?;
    Ok(())
}
