//! Marks, frames and stacks of marks, each by a number.
ghost use Rattle.std.specs.Prelude.{◌≡◌, ◌∷◌, ◌<◌, ◌≤◌, ◌&&◌, [], true, length, get_or, map, nat_eq, Some, None, IfOk, OnOk, OnErr, MatchOption};
ghost use Rattle.fac_lang.specs.Phrases.{any, lit_mark, wrd_mark, par_mark};
ghost use Rattle.fac_abs.specs.InTurn.{under, moved};
ghost use Rattle.fac_abs.specs.Marks.{on, base_eq, mark_eq, mark_depth, limited, is_callable, curried_mark, composed_mark, cover_marks, joined, covered, unknowns};
ghost use Rattle.fac_abs.specs.MarkTrees.{Naming, tree, trees};
ghost use Rattle.std.specs.Map.{keys_of, values_of};
ghost use Rattle.fac_abs.specs.inner.Interning.{HasPartsBelow, deepest_of};
ghost use Rattle.fac_abs.specs.SeenMarks.{mark_of, frame_of, stack_of, base_seen, reached_seen, are_below, IsMark, IsFrame, IsStack, IsReached, Grows, NumbersAreMarks};
ghost use Rattle.fac_abs.specs.MarkPromises.{IsMarkOf, IsFrameOf, HasCellWhere, IsStackOf, IsStackWhere, IsNodeOf, HasTopWhere, IsJoinedWhere, IsReachedWhere};

use crate::MarkNode;
use crate::frame_nodes::FrameNodes;
use crate::mark_nodes::MarkNodes;
use crate::reached::Reached;
use crate::stack_nodes::StackNodes;
use fac_base::Memory;
use fac_base::limits::MOST_MARK_DEPTH;
use std::alloc::Global;
use std::marker::Model;

/// Marks, frames and stacks of marks, each by a number. Marks are numbered in the order in which they were first made, and frames likewise, so
/// that two of them are equal where their numbers are; number 0 is the mark of a value of which nothing is known, and the frame with no cells.
/// Stack 0 is empty. Numbers stay what they are until the stacks are cleared. Each literal among the marks is that of one of as many templates
/// as `new` was given. The one error is want of memory, which comes too at the 2^32-th mark, frame or stack; what was there before such an error
/// stays.
#[derive(Drop)]
pub struct Marks {
    // How many templates there are, which contracts alone ask.
    templates: u32,
    nodes: MarkNodes,
    frames: FrameNodes,
    stack_nodes: StackNodes,
}

impl Model for Marks {
    ghost use Rattle.std.specs.Map.{keys_of, values_of};
    ghost use Rattle.fac_abs.specs.inner.Interning.{IsOrdered, TellDepths};
    ghost use Rattle.fac_abs.specs.SeenMarks.{MarksSeen};

    ghost Value = { MarksSeen };

    ghost view = { λ a. record { templates = a.templates; nodes = keys_of a.nodes; frames = a.frames; stacks = a.stack_nodes } };

    ghost invariant = { λ a. IsOrdered a.templates a.frames (keys_of a.nodes) × TellDepths a.frames (keys_of a.nodes) (values_of a.nodes) };
}

// The depth of a literal with these cells, unless it is greater than a mark's may be.
fn frame_depth(nodes: &MarkNodes, frames: &FrameNodes, frame: u32) -> Option<u32>
    requires frame { frame < length frames.now }
    requires marks { are_below (length (keys_of nodes.now)) (get_or frames.now frame []) ≡ true }
    ensures { MatchOption result (MOST_MARK_DEPTH < deepest_of (values_of nodes.now) (get_or frames.now frame [])) (λ d. (d ≤ MOST_MARK_DEPTH) × (d ≡ deepest_of (values_of nodes.now) (get_or frames.now frame []))) }
{
    let mut rest = frame;
    let mut depth = 0;
    while let Some((mark, below)) = frames.pop(rest) {
        let found = nodes.at(mark).1;
        if found >= MOST_MARK_DEPTH {
            return None;
        }
        depth = depth.max(found + 1);
        rest = below;
    }
    Some(depth)
}

impl Marks {
    /// The mark of nothing known, the frame with no cells, and the empty stack, each with number 0, for literals of so many templates.
    pub fn new(alloc: Global, templates: u32) -> Result<Marks, Memory>
        ensures templates { IfOk result (λ marks. marks.templates ≡ templates) }
        ensures mark { IfOk result (λ marks. IsMarkOf marks 0 (λ N. any)) }
        ensures frame { IfOk result (λ marks. IsFrameOf marks 0 (λ N. [])) }
        ensures stack { IfOk result (λ marks. IsStackOf marks 0 (λ N. [])) }
    {
        Ok(Marks {
            templates,
            nodes: MarkNodes::new(alloc)?,
            frames: FrameNodes::new(alloc),
            stack_nodes: StackNodes::new(alloc),
        })
    }

    /// What a mark is, by the numbers of its parts, which are lower than its own. A literal's template and frame are there.
    pub fn node(&self, mark: u32) -> MarkNode
        requires { IsMark self.now mark }
        ensures { IsNodeOf self.now mark result }
    {
        self.nodes.at(mark).0
    }

    /// The mark of nothing known.
    pub fn unknown(&self) -> u32
        ensures zero { result ≡ 0 }
        ensures any { IsMarkOf self.now result (λ N. any) }
    {
        self.nodes.first()
    }

    // The mark of a node.
    fn make(&mut self, node: MarkNode, depth: u32) -> Result<u32, Memory>
        requires parts { HasPartsBelow self.old.templates self.old.frames (length self.old.nodes) node }
        requires depth { (N : Naming) → depth ≡ mark_depth (tree N self.old.frames (trees N self.old.frames self.old.nodes) node) }
        ensures grows { Grows self.old self.new }
        ensures made { IfOk result (λ r. IsMarkOf self.new r (λ N. tree N self.old.frames (trees N self.old.frames self.old.nodes) node)) }
        ensures err { OnErr result (self.new ≡ self.old) }
    {
        self.nodes.intern(node, depth)
    }

    /// The frame with no cells.
    pub fn no_cells(&self) -> u32
        ensures { IsFrameOf self.now result (λ N. []) }
    {
        self.frames.empty()
    }

    /// A frame with one cell more, behind the others.
    pub fn bind(&mut self, frame: u32, mark: u32) -> Result<u32, Memory>
        requires frame { IsFrame self.old frame }
        requires mark { IsMark self.old mark }
        ensures grows { Grows self.old self.new }
        ensures made { IfOk result (λ r. IsFrameOf self.new r (λ N. mark_of N self.old mark ∷ frame_of N self.old frame)) }
        ensures err { OnErr result (self.new ≡ self.old) }
    {
        self.frames.push(frame, mark)
    }

    /// The number of cells of a frame.
    pub fn cells(&self, frame: u32) -> u32
        requires { IsFrame self.now frame }
        ensures { (N : Naming) → result ≡ length (frame_of N self.now frame) }
    {
        self.frames.height(frame)
    }

    /// The mark in the cell of this number, where there is one; cell 0 is the first. It takes the time of the cells behind it.
    pub fn cell(&self, frame: u32, cell: u32) -> Option<u32>
        requires { IsFrame self.now frame }
        ensures { HasCellWhere self.now frame cell result }
    {
        self.frames.cell(frame, cell)
    }

    /// The mark of a literal, by the number of its template, which is there, and the frame with the marks of its cells. Where it would be deeper
    /// than a mark may be, nothing is known. It takes the time of the cells.
    pub fn lit(&mut self, template: u32, frame: u32) -> Result<u32, Memory>
        requires template { template < self.old.templates }
        requires frame { IsFrame self.old frame }
        ensures grows { Grows self.old self.new }
        ensures made { IfOk result (λ r. IsMarkOf self.new r (λ N. limited (lit_mark (N.literal template) (N.phrase template (frame_of N self.old frame))))) }
        ensures err { OnErr result (self.new ≡ self.old) }
    {
        match frame_depth(&self.nodes, &self.frames, frame) {
            Some(depth) => self.make(MarkNode::Lit(template, frame), depth),
            None => Ok(self.unknown()),
        }
    }

    /// The mark of a word, by its number.
    pub fn wrd(&mut self, word: u32) -> Result<u32, Memory>
        ensures grows { Grows self.old self.new }
        ensures made { IfOk result (λ r. IsMarkOf self.new r (λ N. wrd_mark word)) }
        ensures err { OnErr result (self.new ≡ self.old) }
    {
        self.make(MarkNode::Wrd(word), 0)
    }

    /// The mark of an input of the row word that is checked, by its number.
    pub fn par(&mut self, input: u32) -> Result<u32, Memory>
        ensures grows { Grows self.old self.new }
        ensures made { IfOk result (λ r. IsMarkOf self.new r (λ N. par_mark input)) }
        ensures err { OnErr result (self.new ≡ self.old) }
    {
        self.make(MarkNode::Par(input), 0)
    }

    // The depth of a mark.
    fn depth(&self, mark: u32) -> u32
        requires { IsMark self.now mark }
        ensures { (N : Naming) → result ≡ mark_depth (mark_of N self.now mark) }
    {
        self.nodes.at(mark).1
    }

    /// Whether a mark stands for callables alone.
    pub fn is_callable(&self, mark: u32) -> bool
        requires { IsMark self.now mark }
        ensures { (N : Naming) → result ≡ is_callable (mark_of N self.now mark) }
    {
        match self.node(mark) {
            MarkNode::Any => false,
            MarkNode::Lit(_, _) => true,
            MarkNode::Cur(_, _) => true,
            MarkNode::Com(_, _) => true,
            MarkNode::Wrd(_) => false,
            MarkNode::Par(_) => true,
        }
    }

    /// Whether two marks are the same.
    pub fn same(&self, a: u32, b: u32) -> bool
        requires first { IsMark self.now a }
        requires second { IsMark self.now b }
        ensures { (N : Naming) → result ≡ mark_eq (mark_of N self.now a) (mark_of N self.now b) }
    {
        let _first = self.nodes.first();
        let _apart = self.frames.empty();
        a == b
    }

    /// A law: what has one mark has one number. That equal numbers are equal marks goes without saying.
    pub fn numbers_are_marks(&self)
        ensures { NumbersAreMarks self.now }
    {
        let _first = self.nodes.first();
        let _apart = self.frames.empty();
    }

    /// The mark of what `curry` makes of a value with the mark `mark` and a callable with the mark `callable`. Where `callable` doesn't stand for
    /// callables alone, or the mark would be deeper than one may be, nothing is known.
    pub fn curried(&mut self, mark: u32, callable: u32) -> Result<u32, Memory>
        requires mark { IsMark self.old mark }
        requires callable { IsMark self.old callable }
        ensures grows { Grows self.old self.new }
        ensures made { IfOk result (λ r. IsMarkOf self.new r (λ N. curried_mark (mark_of N self.old mark) (mark_of N self.old callable))) }
        ensures err { OnErr result (self.new ≡ self.old) }
    {
        if !self.is_callable(callable) {
            return Ok(self.unknown());
        }
        let first = self.depth(mark);
        let second = self.depth(callable);
        if first >= MOST_MARK_DEPTH || second >= MOST_MARK_DEPTH {
            return Ok(self.unknown());
        }
        self.make(MarkNode::Cur(mark, callable), first.max(second) + 1)
    }

    /// The mark of what `compose` makes of two callables, of which `first` runs first. Where one of them doesn't stand for callables alone, or the
    /// mark would be deeper than one may be, nothing is known.
    pub fn composed(&mut self, first: u32, second: u32) -> Result<u32, Memory>
        requires first { IsMark self.old first }
        requires second { IsMark self.old second }
        ensures grows { Grows self.old self.new }
        ensures made { IfOk result (λ r. IsMarkOf self.new r (λ N. composed_mark (mark_of N self.old first) (mark_of N self.old second))) }
        ensures err { OnErr result (self.new ≡ self.old) }
    {
        if !self.is_callable(first) {
            return Ok(self.unknown());
        }
        if !self.is_callable(second) {
            return Ok(self.unknown());
        }
        let deep = self.depth(first);
        let other = self.depth(second);
        if deep >= MOST_MARK_DEPTH || other >= MOST_MARK_DEPTH {
            return Ok(self.unknown());
        }
        self.make(MarkNode::Com(first, second), deep.max(other) + 1)
    }

    /// The empty stack.
    pub fn empty(&self) -> u32
        ensures { IsStackOf self.now result (λ N. []) }
    {
        let _first = self.nodes.first();
        self.stack_nodes.empty()
    }

    /// The number of marks of a stack.
    pub fn height(&self, stack: u32) -> u32
        requires { IsStack self.now stack }
        ensures { (N : Naming) → result ≡ length (stack_of N self.now stack) }
    {
        self.stack_nodes.height(stack)
    }

    /// The top mark of a stack, and the stack below it. None where the stack is empty.
    pub fn pop(&self, stack: u32) -> Option<(u32, u32)>
        requires { IsStack self.now stack }
        ensures { HasTopWhere self.now stack result }
    {
        self.stack_nodes.pop(stack)
    }

    /// What lies below the first `count` marks of a stack. None where there are fewer. It takes the time of `count` steps.
    pub fn below(&self, stack: u32, count: u32) -> Option<u32>
        requires { IsStack self.now stack }
        ensures { IsStackWhere self.now result (λ N. under count (stack_of N self.now stack)) }
    {
        self.stack_nodes.under(stack, count)
    }

    /// A stack with one mark more.
    pub fn push(&mut self, stack: u32, mark: u32) -> Result<u32, Memory>
        requires stack { IsStack self.old stack }
        requires mark { IsMark self.old mark }
        ensures grows { Grows self.old self.new }
        ensures made { IfOk result (λ r. IsStackOf self.new r (λ N. mark_of N self.old mark ∷ stack_of N self.old stack)) }
        ensures err { OnErr result (self.new ≡ self.old) }
    {
        self.stack_nodes.push(stack, mark)
    }

    /// A stack with `count` more values of which nothing is known. Want of memory can come after some of them.
    pub fn unknowns(&mut self, stack: u32, count: u64) -> Result<u32, Memory>
        requires { IsStack self.old stack }
        ensures grows { Grows self.old self.new }
        ensures made { IfOk result (λ r. IsStackOf self.new r (λ N. unknowns count (stack_of N self.old stack))) }
    {
        let _first = self.nodes.first();
        self.stack_nodes.zeros(stack, count)
    }

    /// The stack after a shuffle, which takes `takes` marks and puts those at the places `leaves` back, the last on top; the deepest mark that it
    /// takes is at place 0. None where there are fewer marks. It takes the time of at most `takes` steps for each mark that it puts back. Want of
    /// memory can come after some of them.
    pub fn shuffle(&mut self, stack: u32, takes: u32, leaves: &[u32]) -> Result<Option<u32>, Memory>
        requires { IsStack self.old stack }
        ensures grows { Grows self.old self.new }
        ensures made { IfOk result (λ o. IsStackWhere self.new o (λ N. moved any takes leaves.now (stack_of N self.old stack))) }
    {
        let _first = self.nodes.first();
        self.stack_nodes.shuffle(stack, takes, leaves)
    }

    // The join of two stacks. None where their heights differ.
    fn join_stacks(&mut self, a: u32, b: u32) -> Result<Option<u32>, Memory>
        requires first { IsStack self.old a }
        requires second { IsStack self.old b }
        ensures grows { Grows self.old self.new }
        ensures made { IfOk result (λ o. IsJoinedWhere self.old self.new a b o) }
    {
        let _first = self.nodes.first();
        let _apart = self.frames.empty();
        self.stack_nodes.join(a, b)
    }

    // The join of two stacks on their bases.
    fn join_on(
        &mut self,
        base: Option<u32>,
        stack: u32,
        other: Option<u32>,
        below: u32,
    ) -> Result<Option<Reached>, Memory>
        requires first { IsStack self.old stack }
        requires second { IsStack self.old below }
        ensures grows { Grows self.old self.new }
        ensures made { IfOk result (λ o. IsReachedWhere self.new o (λ N. joined (on (base_seen N base) (stack_of N self.old stack)) (on (base_seen N other) (stack_of N self.old below)))) }
    {
        if !same_base(base, other) {
            return Ok(None);
        }
        match self.join_stacks(stack, below)? {
            Some(stack) => Ok(Some(Reached::On { base, stack })),
            None => Ok(None),
        }
    }

    /// The join of what two branches come to: a dead one joins to the other. Else it keeps the marks that both stacks have and knows nothing of
    /// the others, and there is none where their bases or heights differ. It takes the time of the marks above what the two share.
    pub fn join(&mut self, first: Reached, second: Reached) -> Result<Option<Reached>, Memory>
        requires first { IsReached self.old first }
        requires second { IsReached self.old second }
        ensures grows { Grows self.old self.new }
        ensures made { IfOk result (λ o. IsReachedWhere self.new o (λ N. joined (reached_seen N self.old first) (reached_seen N self.old second))) }
    {
        match first {
            Reached::Dead => Ok(Some(second)),
            Reached::On { base, stack } => match second {
                Reached::Dead => Ok(Some(Reached::On { base, stack })),
                Reached::On {
                    base: other,
                    stack: below,
                } => self.join_on(base, stack, other, below),
            },
        }
    }

    // Whether a stack covers another: both have one height, and each mark of `bound` is that of nothing known or the mark of `got` at the same
    // place.
    fn covers_stack(&self, bound: u32, got: u32) -> bool
        requires bound { IsStack self.now bound }
        requires got { IsStack self.now got }
        ensures { (N : Naming) → result ≡ (nat_eq (length (stack_of N self.now bound)) (length (stack_of N self.now got)) && cover_marks (stack_of N self.now bound) (stack_of N self.now got)) }
    {
        let _first = self.nodes.first();
        let _apart = self.frames.empty();
        self.stack_nodes.covers(bound, got)
    }

    // Whether a stack on its base covers another.
    fn covers_on(&self, base: Option<u32>, stack: u32, other: Option<u32>, got: u32) -> bool
        requires bound { IsStack self.now stack }
        requires got { IsStack self.now got }
        ensures { (N : Naming) → result ≡ covered (on (base_seen N base) (stack_of N self.now stack)) (on (base_seen N other) (stack_of N self.now got)) }
    {
        if !same_base(base, other) {
            return false;
        }
        self.covers_stack(stack, got)
    }

    /// Whether what a walk comes to is covered by another, as a bound row asks for: everything covers a dead one. Else both have one base and one
    /// height, and each mark of `bound` is that of nothing known or the mark of `got` at the same place. It takes no memory, and the time of the
    /// marks above what the two share.
    pub fn covers(&self, bound: Reached, got: Reached) -> bool
        requires bound { IsReached self.now bound }
        requires got { IsReached self.now got }
        ensures { (N : Naming) → result ≡ covered (reached_seen N self.now bound) (reached_seen N self.now got) }
    {
        match got {
            Reached::Dead => true,
            Reached::On {
                base: other,
                stack: below,
            } => match bound {
                Reached::Dead => false,
                Reached::On { base, stack } => self.covers_on(base, stack, other, below),
            },
        }
    }

    /// Forgets all stacks but the empty one, so that their memory serves again. The marks and frames stay.
    pub fn clear_stacks(&mut self)
        ensures templates { self.new.templates ≡ self.old.templates }
        ensures nodes { self.new.nodes ≡ self.old.nodes }
        ensures frames { self.new.frames ≡ self.old.frames }
        ensures stacks { self.new.stacks ≡ [] ∷ [] }
    {
        self.stack_nodes.clear();
    }
}

/// Whether two bases are the same.
pub fn same_base(a: Option<u32>, b: Option<u32>) -> bool
    ensures { (N : Naming) → result ≡ base_eq (base_seen N a) (base_seen N b) }
{
    match a {
        None => match b {
            None => true,
            Some(_) => false,
        },
        Some(x) => match b {
            None => false,
            Some(y) => x == y,
        },
    }
}
