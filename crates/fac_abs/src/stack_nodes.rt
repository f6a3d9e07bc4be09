//! Stacks of marks, which share what lies below.
ghost use Rattle.std.specs.Prelude.{◌≡◌, ◌∷◌, ◌++◌, ◌<◌, ◌≤◌, ◌&&◌, ◌||◌, [], length, get_or, slice_get, map, nat_eq, Some, None, IfOk, OnErr};
ghost use Rattle.fac_lang.specs.Procedures.{or_else};
ghost use Rattle.fac_abs.specs.InTurn.{under, taken, moved};
ghost use Rattle.fac_abs.specs.inner.Stacks.{zeros, joined_number, joined_numbers, cover_numbers};
ghost use Rattle.fac_abs.specs.inner.Keeping.{Keeps, IsStackWith, Uncovers, IsWhere, Joins};

use fac_base::Memory;
use std::alloc::Global;
use std::marker::Model;

/// A mark on a stack, with the height of the whole; or in the last cell of a frame, with the number of cells.
#[derive(Clone, Copy, PartialEq, Eq, Hash)]
pub struct StackNode {
    /// The number of the mark.
    pub mark: u32,
    /// The number of the stack below, or of the frame before.
    pub below: u32,
    /// The number of marks together.
    pub height: u32,
}

/// Stacks of numbers, each by its own number. Number 0 is the empty stack, and node k makes stack k + 1.
#[derive(Drop)]
pub struct StackNodes {
    alloc: Global,
    stack_nodes: Vec<StackNode>,
}

impl Model for StackNodes {
    ghost use Rattle.std.specs.Prelude.{List, ℕ, ◌<◌, ◌+◌, ◌^◌, vec_len};

    ghost Value = { List (List ℕ) };

    ghost use Rattle.fac_abs.specs.inner.Stacks.{stacks_of, TellHeights, LieOnEarlier};

    ghost view = { λ a. stacks_of a.stack_nodes.items };

    ghost invariant = { λ a. (vec_len a.stack_nodes + 1 < 2 ^ 32) × TellHeights a.stack_nodes.items × LieOnEarlier a.stack_nodes.items };
}

impl StackNodes {
    /// The empty stack alone.
    pub fn new(alloc: Global) -> StackNodes
        ensures { result ≡ [] ∷ [] }
    {
        StackNodes {
            alloc,
            stack_nodes: Vec::new(alloc),
        }
    }

    /// Forgets all stacks but the empty one, and keeps their memory for others.
    pub fn clear(&mut self)
        ensures { self.new ≡ [] ∷ [] }
    {
        self.stack_nodes.clear();
    }

    /// The number of the empty stack.
    pub fn empty(&self) -> u32
        ensures { IsStackWith self.now result [] }
    {
        let _stack_nodes = &self.stack_nodes;
        0
    }

    /// The number of marks of a stack.
    pub fn height(&self, stack: u32) -> u32
        requires { stack < length self.now }
        ensures { result ≡ length (get_or self.now stack []) }
    {
        let stack_nodes = self.stack_nodes.as_slice();
        if stack == 0 {
            return 0;
        }
        stack_nodes[stack as usize - 1].height
    }

    /// The top mark of a stack, and the stack below it. None where the stack is empty.
    pub fn pop(&self, stack: u32) -> Option<(u32, u32)>
        requires { stack < length self.now }
        ensures { Uncovers self.now stack result }
    {
        let stack_nodes = self.stack_nodes.as_slice();
        if stack == 0 {
            return None;
        }
        let stack_node = stack_nodes[stack as usize - 1];
        Some((stack_node.mark, stack_node.below))
    }

    /// A stack with one mark more.
    pub fn push(&mut self, below: u32, mark: u32) -> Result<u32, Memory>
        requires { below < length self.old }
        ensures keeps { Keeps self.old self.new }
        ensures made { IfOk result (λ r. IsStackWith self.new r (mark ∷ get_or self.old below [])) }
        ensures err { OnErr result (self.new ≡ self.old) }
    {
        let height = self.height(below);
        let count = self.stack_nodes.len();
        if count >= u32::MAX as usize - 1 {
            return Err(Memory);
        }
        self.stack_nodes.push(StackNode {
            mark,
            below,
            height: height + 1,
        })?;
        Ok(count as u32 + 1)
    }

    /// A stack with so many marks 0 on another.
    pub fn zeros(&mut self, below: u32, count: u64) -> Result<u32, Memory>
        requires { below < length self.old }
        ensures keeps { Keeps self.old self.new }
        ensures made { IfOk result (λ r. IsStackWith self.new r (zeros count (get_or self.old below []))) }
    {
        let mut stack = below;
        let mut left = count;
        while left > 0 {
            stack = self.push(stack, 0)?;
            left -= 1;
        }
        Ok(stack)
    }

    /// What lies under so many marks. None where there are fewer.
    pub fn under(&self, stack: u32, count: u32) -> Option<u32>
        requires { stack < length self.now }
        ensures { IsWhere self.now result (under count (get_or self.now stack [])) }
    {
        let mut rest = stack;
        let mut left = count;
        while left > 0 {
            let Some((_, below)) = self.pop(rest) else {
                return None;
            };
            rest = below;
            left -= 1;
        }
        Some(rest)
    }

    // The mark below so many others, or 0 where there are fewer.
    fn mark_below(&self, stack: u32, count: u32) -> u32
        requires { stack < length self.now }
        ensures { result ≡ get_or (get_or self.now stack []) count 0 }
    {
        let Some(rest) = self.under(stack, count) else {
            return 0;
        };
        match self.pop(rest) {
            Some((mark, _)) => mark,
            None => 0,
        }
    }

    // The mark at a place of the `takes` that lie on top, of which the deepest is at place 0; or 0 where no such place is.
    fn mark_at(&self, stack: u32, takes: u32, place: u32) -> u32
        requires stack { stack < length self.now }
        requires takes { takes ≤ length (get_or self.now stack []) }
        ensures { result ≡ or_else 0 (slice_get (taken takes [] (get_or self.now stack [])) place) }
    {
        if place >= takes {
            return 0;
        }
        self.mark_below(stack, takes - 1 - place)
    }

    /// The stack after `takes` marks are taken and those at the places `leaves` put back, the last on top; the deepest that was taken is at place
    /// 0. None where there are fewer marks. It takes no memory but for the marks that it puts back. Want of memory can come after some of them.
    pub fn shuffle(&mut self, stack: u32, takes: u32, leaves: &[u32]) -> Result<Option<u32>, Memory>
        requires { stack < length self.old }
        ensures keeps { Keeps self.old self.new }
        ensures made { IfOk result (λ o. IsWhere self.new o (moved 0 takes leaves.now (get_or self.old stack []))) }
    {
        let Some(below) = self.under(stack, takes) else {
            return Ok(None);
        };
        let mut top = below;
        for place in leaves {
            let mark = self.mark_at(stack, takes, *place);
            top = self.push(top, mark)?;
        }
        Ok(Some(top))
    }

    // Walks down two stacks of one height to what they share: the joined marks above it, the top first, and the stack that is shared.
    fn differing(&self, a: u32, b: u32) -> Result<(Vec<u32>, u32), Memory>
        requires first { a < length self.now }
        requires second { b < length self.now }
        requires heights { length (get_or self.now a []) ≡ length (get_or self.now b []) }
        ensures { IfOk result (λ r. (r.1 < length self.now) × (joined_numbers (get_or self.now a []) (get_or self.now b []) ≡ r.0.items ++ get_or self.now r.1 [])) }
    {
        let mut marks = Vec::new(self.alloc);
        let mut left = a;
        let mut right = b;
        while left != right {
            let Some((x, under_left)) = self.pop(left) else {
                return Ok((marks, left));
            };
            let Some((y, under_right)) = self.pop(right) else {
                return Ok((marks, left));
            };
            marks.push(joined(x, y))?;
            left = under_left;
            right = under_right;
        }
        Ok((marks, left))
    }

    // Marks on a stack, the top first.
    fn lay(&mut self, below: u32, marks: Vec<u32>) -> Result<u32, Memory>
        requires { below < length self.old }
        ensures keeps { Keeps self.old self.new }
        ensures made { IfOk result (λ r. IsStackWith self.new r (marks.items ++ get_or self.old below [])) }
    {
        let mut left = marks;
        let mut stack = below;
        while let Some(mark) = left.pop() {
            stack = self.push(stack, mark)?;
        }
        Ok(stack)
    }

    /// What two stacks agree on, and 0 elsewhere. None where their heights differ. It takes the time of the marks that they don't share.
    pub fn join(&mut self, a: u32, b: u32) -> Result<Option<u32>, Memory>
        requires first { a < length self.old }
        requires second { b < length self.old }
        ensures keeps { Keeps self.old self.new }
        ensures made { IfOk result (λ o. Joins self.new o (get_or self.old a []) (get_or self.old b [])) }
    {
        if self.height(a) != self.height(b) {
            return Ok(None);
        }
        let (marks, shared) = self.differing(a, b)?;
        Ok(Some(self.lay(shared, marks)?))
    }

    // Walks down two stacks to what they share, or to a place where the first doesn't cover the second.
    fn covers_above(&self, bound: u32, got: u32) -> bool
        requires bound { bound < length self.now }
        requires got { got < length self.now }
        ensures { result ≡ cover_numbers (get_or self.now bound []) (get_or self.now got []) }
    {
        let mut left = bound;
        let mut right = got;
        while left != right {
            let Some((x, under_left)) = self.pop(left) else {
                return true;
            };
            let Some((y, under_right)) = self.pop(right) else {
                return false;
            };
            if !covered(x, y) {
                return false;
            }
            left = under_left;
            right = under_right;
        }
        true
    }

    /// Whether each mark of a stack is 0 or that of another at the same place, where both have one height. It takes the time of the marks that
    /// they don't share.
    pub fn covers(&self, bound: u32, got: u32) -> bool
        requires bound { bound < length self.now }
        requires got { got < length self.now }
        ensures { result ≡ (nat_eq (length (get_or self.now bound [])) (length (get_or self.now got [])) && cover_numbers (get_or self.now bound []) (get_or self.now got [])) }
    {
        if self.height(bound) != self.height(got) {
            return false;
        }
        self.covers_above(bound, got)
    }
}

// A number that two agree on, else 0.
fn joined(x: u32, y: u32) -> u32
    ensures { result ≡ joined_number x y }
{
    if x == y { x } else { 0 }
}

// Whether a number is 0 or the other.
fn covered(x: u32, y: u32) -> bool
    ensures { result ≡ (nat_eq x 0 || nat_eq x y) }
{
    x == 0 || x == y
}
