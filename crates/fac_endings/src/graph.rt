//! Which classes reach themselves by their parents and members.
ghost use Rattle.std.specs.Prelude.{◌≡◌, ◌++◌, ◌∷◌, [], Some, length, IfOk, OnOk, slice_get};
ghost use Rattle.fac_lang.specs.Whole.{parts_of};
ghost use Rattle.fac_graph.specs.Laws.{class_edges};
ghost use Rattle.fac_endings.specs.inner.Cycles.{AreCycles};

use fac_base::{Duplicate, List, Memory};
use fac_graph::{cycles_of_classes, leading_back};
use fac_lang::{ClassDef, Shape};
use std::alloc::Global;

// The list of one number.
fn sole(alloc: Global, number: u32) -> Result<List<u32>, Memory>
    ensures { IfOk result (λ numbers. numbers ≡ number ∷ []) }
{
    let mut numbers = List::new(alloc);
    numbers.push(number)?;
    Ok(numbers)
}

// A copy of numbers.
fn numbers_of(alloc: Global, numbers: &[u32]) -> Result<List<u32>, Memory>
    ensures { IfOk result (λ copy. copy ≡ numbers.now) }
{
    let mut copy = List::new(alloc);
    for number in numbers {
        copy.push(*number)?;
    }
    Ok(copy)
}

// The parent of a class of this shape, or its members.
fn parts_of(alloc: Global, shape: &Shape) -> Result<List<u32>, Memory>
    ensures { IfOk result (λ parts. parts ≡ parts_of (Some shape.now)) }
{
    match shape {
        Shape::Tuple {
            parent: Some(class),
            ..
        } => sole(alloc, *class),
        Shape::Tuple { parent: None, .. } => Ok(List::new(alloc)),
        Shape::Union(members) => numbers_of(alloc, members.as_slice()),
        Shape::Kind(_) => Ok(List::new(alloc)),
        Shape::Single => Ok(List::new(alloc)),
    }
}

// Adds the parent or the members of a class.
fn add_parts(alloc: Global, edges: &mut List<List<u32>>, class: &ClassDef) -> Result<(), Memory>
    ensures { OnOk result (edges.new ≡ edges.old ++ parts_of (Some class.now.shape) ∷ []) }
{
    let parts = parts_of(alloc, &class.shape)?;
    edges.push(parts)?;
    Ok(())
}

// The graph of classes.
fn edges_of(alloc: Global, classes: &[ClassDef]) -> Result<List<List<u32>>, Memory>
    ensures { IfOk result (λ edges. edges ≡ class_edges classes.now) }
{
    let mut edges = List::new(alloc);
    for class in classes {
        add_parts(alloc, &mut edges, class)?;
    }
    Ok(edges)
}

/// For each class whether it reaches itself.
pub fn cycles_of(alloc: Global, classes: &[ClassDef]) -> Result<List<bool>, Memory>
    ensures { IfOk result (AreCycles classes.now) }
{
    cycles_of_classes();
    let edges = edges_of(alloc, classes)?;
    leading_back(alloc, &edges)
}
