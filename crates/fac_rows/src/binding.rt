//! The rows that are bound at a use of a row word.
ghost use Rattle.std.specs.Prelude.{◌≡◌, ◌∷◌, [], ℕ, List, Some, None, length, reverse, IfOk, OnOk, OnErr};
ghost use Rattle.std.specs.declared.option.Option.{Option};
ghost use Rattle.std.specs.Option.{option_copied};
ghost use Rattle.fac_base.specs.Signatures.{never, leaves};
ghost use Rattle.fac_abs.specs.RowVariables.{Row, outer_in, outer_out, named_row, row_eq};
ghost use Rattle.fac_abs.specs.declared.rule.Rule.TheVariants.{Rows};
ghost use Rattle.fac_abs.specs.MarkTrees.{Naming};
ghost use Rattle.fac_abs.specs.MarkPromises.{IsReachedWhere};
ghost use Rattle.fac_abs.specs.SeenMarks.{MarksSeen, IsStack, IsReached, Grows, base_seen, stack_of, reached_seen};
ghost use Rattle.fac_rows.specs.RowBinding.{bound_to, tie, tie_row, row_bound, row_binding, row_result};
ghost use Rattle.fac_rows.specs.SeenBindings.{IsBinding, binding_seen, IsStart, IsTie};
ghost use Rattle.fac_rows.specs.inner.Bounds.{bound_seen, all_seen};
ghost use Rattle.fac_rows.specs.inner.Ties.{row_by, covers_rest, IsTieBy, IsTieOfRow};

use crate::has_rows;
use crate::leaving::leave;
use crate::numbers::{count_inputs, row_out, rows, sum};
use fac_abs::{Marks, Reached, Rule};
use fac_base::{Effect, Memory, Outs, Text};
use std::alloc::Global;
use std::marker::Model;

// A row, by its name where it has one, and what it is bound to.
#[derive(Clone, Copy)]
struct Bound<'a> {
    row: Option<&'a Text>,
    to: Reached,
}

/// The rows of a used word's effect that are bound so far. Contracts see them as a list, the latest first.
#[derive(Drop)]
pub struct Binding<'a> {
    bound: Vec<Bound<'a>>,
}

impl<'a> Model for Binding<'a> {
    ghost use Rattle.std.specs.Prelude.{List, reverse};
    ghost use Rattle.fac_abs.specs.RowVariables.{Row};
    ghost use Rattle.fac_abs.specs.declared.reached.Reached.{Reached};

    ghost Value = { List (Row × Reached) };

    ghost use Rattle.fac_rows.specs.inner.Bounds.{all_seen};

    ghost view = { λ b. all_seen (reverse b.bound.items) };
}

// Whether what a row is bound to covers what stands below the outputs.
fn covers_below(marks: &Marks, bound: Reached, outs: u32, base: Option<u32>, stack: u32) -> bool
    requires bound { IsReached marks.now bound }
    requires stack { IsStack marks.now stack }
    ensures { (N : Naming) → result ≡ covers_rest (reached_seen N marks.now bound) outs (base_seen N base) (stack_of N marks.now stack) }
{
    match marks.below(stack, outs) {
        None => false,
        Some(rest) => marks.covers(bound, Reached::On { base, stack: rest }),
    }
}

// The rule that a quotation input breaks that has a row on one side alone.
fn one_sided(input: u32) -> Rule
    ensures { result ≡ Rows input 0 0 }
{
    Rule::Rows {
        input,
        expected: 0,
        found: 0,
    }
}

// What a quotation input left that is declared never to return.
fn tie_never(marks: &Marks, input: u32, left: Reached) -> Option<Rule>
    requires { IsReached marks.now left }
    ensures { (y : Option (List ℕ)) → IsTieBy marks.now left result (λ N. tie input y never) }
{
    match left {
        Reached::Dead => None,
        Reached::On { stack, .. } => Some(rows(marks, input, 0, stack)),
    }
}

// What a quotation input without rows left.
fn tie_without_rows(marks: &Marks, input: u32, outs: u32, left: Reached) -> Option<Rule>
    requires { IsReached marks.now left }
    ensures { (names : List (List ℕ)) → length names ≡ outs → IsTieBy marks.now left result (λ N. tie input None (leaves None names)) }
{
    match left {
        Reached::Dead => None,
        Reached::On { base, stack } => {
            if base.is_none() && marks.height(stack) == outs {
                return None;
            }
            Some(rows(marks, input, outs, stack))
        }
    }
}

// What a quotation input left, against what its row is bound to.
fn tie_bound(
    marks: &Marks,
    input: u32,
    outs: u32,
    bound: Reached,
    left: Reached,
) -> Result<Option<Rule>, Memory>
    requires bound { IsReached marks.now bound }
    requires left { IsReached marks.now left }
    ensures { IfOk result (λ o. (r : Row) → IsTieBy marks.now left o (λ N. tie_row input outs r (Some (reached_seen N marks.now bound)))) }
{
    match left {
        Reached::Dead => Ok(None),
        Reached::On { base, stack } => match bound {
            Reached::Dead => Ok(Some(rows(marks, input, outs, stack))),
            Reached::On {
                base: under,
                stack: row,
            } => {
                if covers_below(marks, bound, outs, base, stack) {
                    return Ok(None);
                }
                let expected = sum(marks.height(row), outs)?;
                Ok(Some(rows(marks, input, expected, stack)))
            }
        },
    }
}

// Whether two rows are the same, each by its name where it has one.
fn same_row(a: Option<&Text>, b: Option<&Text>) -> bool
    ensures { result ≡ row_eq (row_by (option_copied b.entry)) (row_by (option_copied a.entry)) }
{
    match a {
        None => b.is_none(),
        Some(name) => match b {
            None => false,
            Some(other) => other == name,
        },
    }
}

// Whether what is bound is this row.
fn is_of(bound: &Bound, row: Option<&Text>) -> bool
    ensures { result ≡ row_eq (row_by (option_copied row.entry)) (bound_seen bound.now).0 }
{
    same_row(bound.row, row)
}

// What a row is bound to among these, the latest last.
fn find_in(bound: &[Bound], row: Option<&Text>) -> Option<Reached>
    ensures { result ≡ bound_to (row_by (option_copied row.entry)) (all_seen (reverse bound.now)) }
{
    let mut left = bound.len();
    while left > 0 {
        left -= 1;
        if is_of(&bound[left], row) {
            return Some(bound[left].to);
        }
    }
    None
}

impl<'a> Binding<'a> {
    // Binds a row, the hidden one where no name is given.
    fn add(&mut self, row: Option<&'a Text>, to: Reached) -> Result<(), Memory>
        ensures ok { OnOk result (self.new ≡ (row_by (option_copied row.entry), to) ∷ self.old) }
        ensures err { OnErr result (self.new ≡ self.old) }
    {
        self.bound.push(Bound { row, to })?;
        Ok(())
    }

    // What a row is bound to, the hidden one where no name is given.
    fn find(&self, row: Option<&Text>) -> Option<Reached>
        ensures { (M : MarksSeen) → IsBinding M self.now → IsReachedWhere M result (λ N. bound_to (row_by (option_copied row.entry)) (binding_seen N M self.now)) }
    {
        find_in(self.bound.as_slice(), row)
    }

    // What the outer output row of an effect is bound to.
    fn outer(&self, effect: &Effect) -> Option<Reached>
        ensures { (M : MarksSeen) → IsBinding M self.now → IsReachedWhere M result (λ N. row_bound (outer_out effect.now) (binding_seen N M self.now)) }
    {
        match row_out(&effect.outs) {
            Some(name) => self.find(Some(name)),
            None => {
                if has_rows(effect) {
                    None
                } else {
                    self.find(None)
                }
            }
        }
    }

    // The outer input row of an effect is bound to what lies below the inputs.
    fn bind_outer(&mut self, effect: &'a Effect, below: Reached) -> Result<(), Memory>
        requires { self.old ≡ [] }
        ensures { OnOk result (self.new ≡ row_binding (outer_in effect.now) below) }
    {
        match &effect.row_in {
            Some(name) => self.add(Some(name), below),
            None => {
                if has_rows(effect) {
                    Ok(())
                } else {
                    self.add(None, below)
                }
            }
        }
    }

    /// The rows at the start of a use of a row word: its outer input row is bound to what lies below the inputs.
    pub fn new(alloc: Global, effect: &'a Effect, below: Reached) -> Result<Binding<'a>, Memory>
        ensures there { IfOk result (λ bs. (M : MarksSeen) → IsReached M below → IsBinding M bs) }
        ensures is { IfOk result (λ bs. (N : Naming) (M : MarksSeen) → binding_seen N M bs ≡ row_binding (outer_in effect.now) (reached_seen N M below)) }
    {
        let mut binding = Binding {
            bound: Vec::new(alloc),
        };
        binding.bind_outer(effect, below)?;
        Ok(binding)
    }

    /// From what a quotation input with this effect is walked: from its row with its named inputs on it, as unknown values. None where its row
    /// isn't bound.
    pub fn start(&self, marks: &mut Marks, effect: &Effect) -> Result<Option<Reached>, Memory>
        requires { IsBinding marks.old self.now }
        ensures grows { Grows marks.old marks.new }
        ensures starts { IfOk result (λ o. IsStart marks.old marks.new self.now effect.now o) }
    {
        let count = count_inputs(effect) as u64;
        match &effect.row_in {
            None => {
                let empty = marks.empty();
                let stack = marks.unknowns(empty, count)?;
                Ok(Some(Reached::On { base: None, stack }))
            }
            Some(name) => match self.find(Some(name)) {
                None => Ok(None),
                Some(bound) => match bound {
                    Reached::Dead => Ok(Some(Reached::Dead)),
                    Reached::On { base, stack } => {
                        let stack = marks.unknowns(stack, count)?;
                        Ok(Some(Reached::On { base, stack }))
                    }
                },
            },
        }
    }

    // What a quotation input left becomes its row, which isn't bound yet.
    fn tie_free(
        &mut self,
        marks: &Marks,
        input: u32,
        name: &'a Text,
        outs: u32,
        left: Reached,
    ) -> Result<Option<Rule>, Memory>
        requires there { IsBinding marks.now self.old }
        requires left { IsReached marks.now left }
        requires free { (N : Naming) → bound_to (named_row name.now) (binding_seen N marks.now self.old) ≡ None }
        ensures ties { IfOk result (λ o. IsTieOfRow marks.now input outs (named_row name.now) left self.old self.new o) }
        ensures err { OnErr result (self.new ≡ self.old) }
    {
        match left {
            Reached::Dead => {
                self.add(Some(name), Reached::Dead)?;
                Ok(None)
            }
            Reached::On { base, stack } => match marks.below(stack, outs) {
                None => Ok(Some(rows(marks, input, outs, stack))),
                Some(rest) => {
                    self.add(Some(name), Reached::On { base, stack: rest })?;
                    Ok(None)
                }
            },
        }
    }

    // What a quotation input left, against its row. It takes what `tie_free` takes.
    fn tie_row(
        &mut self,
        marks: &Marks,
        input: u32,
        name: &'a Text,
        outs: u32,
        left: Reached,
    ) -> Result<Option<Rule>, Memory>
        requires there { IsBinding marks.now self.old }
        requires left { IsReached marks.now left }
        ensures ties { IfOk result (λ o. IsTieOfRow marks.now input outs (named_row name.now) left self.old self.new o) }
        ensures err { OnErr result (self.new ≡ self.old) }
    {
        match self.find(Some(name)) {
            None => self.tie_free(marks, input, name, outs, left),
            Some(bound) => tie_bound(marks, input, outs, bound, left),
        }
    }

    /// Ties what quotation input `input`, counted from 1, left on its walk: a row that is free is bound to what stands below its outputs, and one
    /// that is bound has to cover that. The rule that it breaks, where it breaks one; then the rows are bound as before.
    pub fn bind(
        &mut self,
        marks: &Marks,
        input: u32,
        effect: &'a Effect,
        left: Reached,
    ) -> Result<Option<Rule>, Memory>
        requires there { IsBinding marks.now self.old }
        requires left { IsReached marks.now left }
        ensures ties { IfOk result (λ o. IsTie marks.now input effect.now left self.old self.new o) }
        ensures err { OnErr result (self.new ≡ self.old) }
    {
        match &effect.outs {
            Outs::Never => Ok(tie_never(marks, input, left)),
            Outs::Left { row, names } => match &effect.row_in {
                None => match row {
                    None => Ok(tie_without_rows(marks, input, names.len(), left)),
                    Some(_) => Ok(Some(one_sided(input))),
                },
                Some(_) => match row {
                    None => Ok(Some(one_sided(input))),
                    Some(name) => self.tie_row(marks, input, name, names.len(), left),
                },
            },
        }
    }

    /// What a use of a row word with this effect leaves, once all its quotation inputs are tied: its outputs on its outer output row.
    pub fn leaves(&self, marks: &mut Marks, effect: &Effect) -> Result<Reached, Memory>
        requires { IsBinding marks.old self.now }
        ensures grows { Grows marks.old marks.new }
        ensures there { IfOk result (λ A. IsReached marks.new A) }
        ensures leaves { IfOk result (λ A. (N : Naming) → reached_seen N marks.new A ≡ row_result effect.now (binding_seen N marks.old self.now)) }
    {
        match self.outer(effect) {
            None => Ok(Reached::Dead),
            Some(bound) => match bound {
                Reached::Dead => Ok(Reached::Dead),
                Reached::On { base, stack } => leave(marks, &effect.outs, base, stack),
            },
        }
    }
}
