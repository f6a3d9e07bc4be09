//! A test of the checker's marks that no program of today makes: they are made where there is memory.
use fac_abs::Marks;
use fac_base::Memory;
use std::test::Fail;

// Makes the mark of a word and that of an input.
fn add_others(marks: &mut Marks) -> Result<(), Memory> {
    let _word = marks.wrd(7)?;
    let _input = marks.par(8)?;
    Ok(())
}

#[test]
fn other_marks(rt: HostRuntime) -> Result<(), Fail> {
    let mut marks = Marks::new(rt.alloc(), 0)?;
    Ok(add_others(&mut marks)?)
}
