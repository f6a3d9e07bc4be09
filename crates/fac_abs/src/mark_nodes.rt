//! Marks by numbers: the nodes that were seen so far.
ghost use Rattle.std.specs.Prelude.{◌≡◌, ◌<◌, ◌^◌, ◌∷◌, [], length, get_or, IfOk, OnErr};
ghost use Rattle.std.specs.Map.{keys_of, values_of};
ghost use Rattle.indexmap.specs.IndexMap.{keys};
ghost use Rattle.fac_abs.specs.declared.mark_node.MarkNode.TheVariants.{Any};
ghost use Rattle.fac_abs.specs.inner.Interning.{IsTable, Numbers};

use crate::MarkNode;
use fac_base::Memory;
use indexmap::IndexMap;
use std::alloc::Global;
use std::marker::Model;

/// Nodes in the order in which they were first seen, each with the depth of its mark. The first is that of nothing known.
#[derive(Drop)]
pub struct MarkNodes {
    nodes: IndexMap<MarkNode, u32>,
}

impl Model for MarkNodes {
    ghost use Rattle.std.specs.Prelude.{List, ℕ, ◌<◌, ◌^◌, length};
    ghost use Rattle.fac_abs.specs.declared.mark_node.MarkNode.{MarkNode};
    ghost use Rattle.indexmap.specs.IndexMap.{keys};
    ghost use Rattle.fac_abs.specs.inner.Interning.{IsTable};

    ghost Value = { List (MarkNode × ℕ) };

    ghost view = { λ a. a.nodes.entries };

    ghost invariant = { λ a. IsTable (keys a.nodes) × (length (keys a.nodes) < 2 ^ 32) };
}

// The number of a node, which is added with its depth where it isn't there.
fn number(nodes: &mut IndexMap<MarkNode, u32>, node: MarkNode, depth: u32) -> Result<u32, Memory>
    requires { length (keys nodes.old) < 2 ^ 32 }
    ensures found { IfOk result (λ r. Numbers nodes.old.entries nodes.new.entries node depth r) }
    ensures short { length (keys nodes.new) < 2 ^ 32 }
    ensures err { OnErr result (nodes.new.entries ≡ nodes.old.entries) }
{
    if let Some(place) = nodes.get_index_of(&node) {
        return Ok(place as u32);
    }
    let place = nodes.len();
    if place >= u32::MAX as usize {
        return Err(Memory);
    }
    nodes.insert(node, depth)?;
    Ok(place as u32)
}

impl MarkNodes {
    /// The table with the mark of nothing known.
    pub fn new(alloc: Global) -> Result<MarkNodes, Memory>
        ensures { IfOk result (λ nodes. nodes ≡ (Any, 0) ∷ []) }
    {
        let mut nodes = IndexMap::new(alloc);
        number(&mut nodes, MarkNode::Any, 0)?;
        Ok(MarkNodes { nodes })
    }

    /// The number of the mark of nothing known.
    pub fn first(&self) -> u32
        ensures zero { result ≡ 0 }
        ensures table { IsTable (keys_of self.now) }
    {
        let _nodes = &self.nodes;
        0
    }

    /// The node of a number, and the depth of its mark.
    pub fn at(&self, mark: u32) -> (MarkNode, u32)
        requires { mark < length (keys_of self.now) }
        ensures node { result.0 ≡ get_or (keys_of self.now) mark Any }
        ensures depth { result.1 ≡ get_or (values_of self.now) mark 0 }
        ensures table { IsTable (keys_of self.now) }
    {
        let Some((node, depth)) = self.nodes.get_index(mark as usize) else {
            unreachable!()
        };
        (*node, *depth)
    }

    /// The number of a node, which is added where it isn't there.
    pub fn intern(&mut self, node: MarkNode, depth: u32) -> Result<u32, Memory>
        ensures made { IfOk result (λ r. Numbers self.old self.new node depth r) }
        ensures table { IsTable (keys_of self.new) }
        ensures err { OnErr result (self.new ≡ self.old) }
    {
        number(&mut self.nodes, node, depth)
    }
}
