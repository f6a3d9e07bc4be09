//! Which nodes lead back to themselves: the strongly connected components of a graph, found by one search along a path.
ghost use Rattle.std.specs.Prelude.{◌≡◌, ◌<◌, true, length, map, IfOk, OnOk, slice_get, Some};
ghost use Rattle.fac_graph.specs.Paths.{AreLeadingBack, one_of, successors};
ghost use Rattle.fac_graph.specs.inner.Components.{Opens, Joins, Closes, IsExplored, IsIdle, IsOver, Steps, Follows, MayFollow, Visits, all_done, all_finished, are_below, behind_place, comes_back, is_done, last_of, standing_or_done};
ghost use Rattle.fac_graph.specs.declared.components.VisitState.TheVariants.{Unseen, Done};

use fac_base::{List, Memory};
use std::alloc::Global;

// How far a search has come with a node.
#[derive(Clone, Copy)]
enum VisitState {
    // It wasn't met.
    Unseen,
    // It is at this place of the path.
    Open(usize),
    // Whether it leads back to itself is known.
    Done(bool),
}

// Nodes of the path that lead to one another: those from a place on, up to the next component.
#[derive(Clone, Copy)]
struct Component {
    first: usize,
    // How many nodes were pending when it began.
    pending: usize,
}

// What a search has found.
#[derive(Drop)]
struct Search {
    standings: Vec<VisitState>,
    // The open nodes, in the order in which they were met.
    path: Vec<u32>,
    // The components of the path.
    components: Vec<Component>,
    // The nodes that are to be followed, as edges go to them from nodes of the path.
    pending: Vec<u32>,
}

// The successors of a node.
fn successors_of(edges: &List<List<u32>>, node: u32) -> &[u32]
    ensures { result.now ≡ successors edges.now node }
{
    match edges.get(node as usize) {
        Some(nodes) => nodes.as_slice(),
        None => &[],
    }
}

// Whether an edge goes from a node to itself.
fn has_own_edge(edges: &List<List<u32>>, node: u32) -> bool
    ensures { result ≡ one_of node (successors edges.now node) }
{
    for other in successors_of(edges, node) {
        if node == *other {
            return true;
        }
    }
    false
}

// Opens a node that wasn't met.
fn open(search: &mut Search, edges: &List<List<u32>>, node: u32) -> Result<(), Memory>
    requires { node < length search.old.standings.items }
    ensures { OnOk result (Opens edges.now node search.old search.new) }
{
    let first = search.path.len();
    let pending = search.pending.len();
    search.standings[node as usize] = VisitState::Open(first);
    search.path.push(node)?;
    search.components.push(Component { first, pending })?;
    search
        .pending
        .extend_from_slice(successors_of(edges, node))?;
    Ok(())
}

// The last component.
fn last(components: &[Component]) -> Option<Component>
    ensures { result ≡ last_of components.now }
{
    if components.is_empty() {
        return None;
    }
    components.get(components.len() - 1).copied()
}

// Whether the last component begins behind a place.
fn begins_behind(components: &[Component], place: usize) -> bool
    ensures { result ≡ behind_place place (last_of components.now) }
{
    match last(components) {
        Some(component) => component.first > place,
        None => false,
    }
}

// Joins the components that begin behind a place to the one that has it.
fn join(components: &mut Vec<Component>, place: usize)
    ensures { Joins place components.old.items components.new.items }
{
    while begins_behind(components.as_slice(), place) {
        components.pop();
    }
}

// The standing of a node. A number that isn't a node's is done, since it leads nowhere.
fn standing_of(standings: &[VisitState], node: u32) -> VisitState
    ensures { result ≡ standing_or_done (slice_get standings.now node) }
{
    match standings.get(node as usize) {
        Some(standing) => *standing,
        None => VisitState::Done(false),
    }
}

// Follows a node that was pending.
fn follow(search: &mut Search, edges: &List<List<u32>>, node: u32) -> Result<(), Memory>
    requires { MayFollow edges.now search.old node }
    ensures { OnOk result (Follows edges.now search.old search.new) }
{
    match standing_of(search.standings.as_slice(), node) {
        VisitState::Unseen => open(search, edges, node),
        VisitState::Open(place) => {
            join(&mut search.components, place);
            Ok(())
        }
        VisitState::Done(_) => Ok(()),
    }
}

// Whether the nodes of the path from a place on, a component, lead back to themselves: where there are several, or the one has an edge to itself.
fn leads_back(edges: &List<List<u32>>, path: &[u32], first: usize) -> bool
    requires { first < length path.now }
    ensures { result ≡ comes_back edges.now path.now first }
{
    path.len() - first > 1 || has_own_edge(edges, path[first])
}

// Finishes nodes.
fn finish(standings: &mut Vec<VisitState>, nodes: &[u32], back: bool)
    requires { are_below (length standings.old.items) nodes.now ≡ true }
    ensures { standings.new.items ≡ all_done back nodes.now standings.old.items }
{
    for node in nodes {
        let next = *node as usize;
        standings[next] = VisitState::Done(back);
    }
}

// Closes the last component, which begins at this place.
fn close(search: &mut Search, edges: &List<List<u32>>, first: usize)
    requires path { are_below (length search.old.standings.items) search.old.path.items ≡ true }
    requires first { first < length search.old.path.items }
    requires components { 0 < length search.old.components.items }
    ensures { Closes edges.now first search.old search.new }
{
    let back = leads_back(edges, search.path.as_slice(), first);
    finish(&mut search.standings, &search.path[first..], back);
    search.path.truncate(first);
    search.components.pop();
}

// One step: follows a node that is pending in the last component, or closes this.
fn step(search: &mut Search, edges: &List<List<u32>>, top: Component) -> Result<(), Memory>
    requires search { IsExplored edges.now search.old }
    requires top { last_of search.old.components.items ≡ Some top }
    ensures { OnOk result (Steps edges.now search.old search.new) }
{
    if search.pending.len() > top.pending {
        match search.pending.pop() {
            Some(node) => follow(search, edges, node),
            None => unreachable!(),
        }
    } else {
        close(search, edges, top.first);
        Ok(())
    }
}

// Searches from a node that wasn't met, until all that it leads to is done.
fn explore(search: &mut Search, edges: &List<List<u32>>, node: u32) -> Result<(), Memory>
    requires search { IsIdle edges.now search.old }
    requires node { slice_get search.old.standings.items node ≡ Some Unseen }
    ensures { OnOk result (Visits edges.now node search.old search.new) }
{
    open(search, edges, node)?;
    while let Some(top) = last(search.components.as_slice()) {
        step(search, edges, top)?;
    }
    Ok(())
}

// Searches from a node, where it wasn't met.
fn visit(search: &mut Search, edges: &List<List<u32>>, node: u32) -> Result<(), Memory>
    requires { IsIdle edges.now search.old }
    ensures { OnOk result (Visits edges.now node search.old search.new) }
{
    match standing_of(search.standings.as_slice(), node) {
        VisitState::Unseen => explore(search, edges, node),
        VisitState::Open(_) => Ok(()),
        VisitState::Done(_) => Ok(()),
    }
}

// Searches from all nodes.
fn visit_all(search: &mut Search, edges: &List<List<u32>>) -> Result<(), Memory>
    requires { IsIdle edges.now search.old }
    ensures { OnOk result (IsOver edges.now search.new) }
{
    for node in 0..edges.len() {
        visit(search, edges, node)?;
    }
    Ok(())
}

// Whether a node that is done leads back to itself. slots.rt has the same for its standings, which are of another type.
fn flag_of(standing: VisitState) -> bool
    requires { is_done (Some standing) ≡ true }
    ensures { standing ≡ Done result }
{
    match standing {
        VisitState::Done(back) => back,
        _ => unreachable!(),
    }
}

// For each node whether it leads back to itself.
fn flags_of(alloc: Global, standings: &[VisitState]) -> Result<List<bool>, Memory>
    requires { all_finished standings.now ≡ true }
    ensures { IfOk result (λ flags. standings.now ≡ map Done flags) }
{
    let mut flags = List::new(alloc);
    for standing in standings {
        flags.push(flag_of(*standing))?;
    }
    Ok(flags)
}

/// For each node of a graph whether a path of at least one edge leads from it to itself. `edges` has for each node, by its number, the nodes to
/// which edges go from it; an edge to a number that isn't a node's leads nowhere. The time is linear in the number of nodes and edges. Want of
/// memory is the one error.
pub fn leading_back(alloc: Global, edges: &List<List<u32>>) -> Result<List<bool>, Memory>
    ensures { IfOk result (AreLeadingBack edges.now) }
{
    let mut search = Search {
        standings: vec![in alloc; VisitState::Unseen; edges.as_slice().len()]?,
        path: Vec::new(alloc),
        components: Vec::new(alloc),
        pending: Vec::new(alloc),
    };
    visit_all(&mut search, edges)?;
    flags_of(alloc, search.standings.as_slice())
}
