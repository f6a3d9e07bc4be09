//! Frames of marks, which share what lies before, each by one number.
ghost use Rattle.std.specs.Prelude.{◌≡◌, ◌∷◌, ◌<◌, ◌^◌, ◌+◌, [], length, get_or, slice_get, IfOk, OnErr};
ghost use Rattle.indexmap.specs.IndexMap.{keys};
ghost use Rattle.fac_abs.specs.InTurn.{under};
ghost use Rattle.fac_abs.specs.Marks.{piled};
ghost use Rattle.fac_abs.specs.inner.Framing.{AreDistinct, IsNumbered};
ghost use Rattle.fac_abs.specs.inner.Keeping.{Keeps, IsStackWith, Uncovers, IsWhere};

use crate::stack_nodes::StackNode;
use fac_base::Memory;
use indexmap::IndexMap;
use std::alloc::Global;
use std::marker::Model;

/// Frames of numbers, of which two are equal where their numbers are. Number 0 is the frame with no cells, and node k makes frame k + 1: that
/// of its last cell's mark behind those of an earlier one.
#[derive(Drop)]
pub struct FrameNodes {
    nodes: IndexMap<StackNode, ()>,
}

impl Model for FrameNodes {
    ghost use Rattle.std.specs.Prelude.{List, ℕ, ◌<◌, ◌+◌, ◌^◌, length};
    ghost use Rattle.indexmap.specs.IndexMap.{keys};

    ghost Value = { List (List ℕ) };

    ghost use Rattle.fac_abs.specs.inner.Stacks.{stacks_of, TellHeights, LieOnEarlier};
    ghost use Rattle.fac_abs.specs.inner.Framing.{AreDistinct};

    ghost view = { λ a. stacks_of (keys a.nodes) };

    ghost invariant = { λ a. (length (keys a.nodes) + 1 < 2 ^ 32) × TellHeights (keys a.nodes) × LieOnEarlier (keys a.nodes) × AreDistinct (keys a.nodes) };
}

// The number of a node, which is added where it isn't there.
fn number(nodes: &mut IndexMap<StackNode, ()>, node: StackNode) -> Result<u32, Memory>
    requires { length (keys nodes.old) + 1 < 2 ^ 32 }
    ensures found { IfOk result (λ r. IsNumbered (keys nodes.old) (keys nodes.new) node r) }
    ensures short { length (keys nodes.new) + 1 < 2 ^ 32 }
    ensures err { OnErr result (keys nodes.new ≡ keys nodes.old) }
{
    if let Some(place) = nodes.get_index_of(&node) {
        return Ok(place as u32);
    }
    let place = nodes.len();
    if place >= u32::MAX as usize - 1 {
        return Err(Memory);
    }
    nodes.insert(node, ())?;
    Ok(place as u32)
}

impl FrameNodes {
    /// The frame with no cells alone.
    pub fn new(alloc: Global) -> FrameNodes
        ensures { result ≡ [] ∷ [] }
    {
        FrameNodes {
            nodes: IndexMap::new(alloc),
        }
    }

    /// The number of the frame with no cells.
    pub fn empty(&self) -> u32
        ensures empty { IsStackWith self.now result [] }
        ensures distinct { AreDistinct self.now }
    {
        let _nodes = &self.nodes;
        0
    }

    /// The number of cells of a frame.
    pub fn height(&self, frame: u32) -> u32
        requires { frame < length self.now }
        ensures { result ≡ length (get_or self.now frame []) }
    {
        let nodes = &self.nodes;
        if frame == 0 {
            return 0;
        }
        match nodes.get_index(frame as usize - 1) {
            Some((node, _)) => node.height,
            None => unreachable!(),
        }
    }

    /// The mark of the last cell, and the frame before it. None where there are no cells.
    pub fn pop(&self, frame: u32) -> Option<(u32, u32)>
        requires { frame < length self.now }
        ensures { Uncovers self.now frame result }
    {
        let nodes = &self.nodes;
        if frame == 0 {
            return None;
        }
        match nodes.get_index(frame as usize - 1) {
            Some((node, _)) => Some((node.mark, node.below)),
            None => unreachable!(),
        }
    }

    /// A frame with one cell more. It promises what `push` of `StackNodes` does.
    pub fn push(&mut self, below: u32, mark: u32) -> Result<u32, Memory>
        requires { below < length self.old }
        ensures keeps { Keeps self.old self.new }
        ensures made { IfOk result (λ r. IsStackWith self.new r (mark ∷ get_or self.old below [])) }
        ensures err { OnErr result (self.new ≡ self.old) }
    {
        let height = self.height(below);
        let node = StackNode {
            mark,
            below,
            height: height + 1,
        };
        let place = number(&mut self.nodes, node)?;
        Ok(place + 1)
    }

    // What lies before so many cells, the last first. None where there are fewer.
    fn under(&self, frame: u32, count: u32) -> Option<u32>
        requires { frame < length self.now }
        ensures { IsWhere self.now result (under count (get_or self.now frame [])) }
    {
        let mut rest = frame;
        let mut left = count;
        while left > 0 {
            let Some((_, below)) = self.pop(rest) else {
                return None;
            };
            rest = below;
            left -= 1;
        }
        Some(rest)
    }

    /// The mark of the cell with this number, where there is one. It takes the time of the cells behind it.
    pub fn cell(&self, frame: u32, cell: u32) -> Option<u32>
        requires { frame < length self.now }
        ensures { result ≡ slice_get (piled (get_or self.now frame []) []) cell }
    {
        let height = self.height(frame);
        if cell >= height {
            return None;
        }
        let Some(rest) = self.under(frame, height - 1 - cell) else {
            return None;
        };
        match self.pop(rest) {
            Some((mark, _)) => Some(mark),
            None => None,
        }
    }
}
