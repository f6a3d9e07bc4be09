//! The literal arrays of an image.
ghost use Rattle.std.specs.Prelude.{◌≡◌, map, true, IfOk};
ghost use Rattle.std.specs.List.{list_all};
ghost use Rattle.fac_emit.specs.ProgramCode.{elem_of, elems_of, program_arrays};
ghost use Rattle.fac_emit.specs.inner.Coded.{array_is_coded, element_is_coded};

use crate::emission::Emission;
use fac_base::{List, Memory};
use fac_code::Elem;
use fac_lang::Lit;

// The element of an image for one of a literal array.
fn elem(emission: &Emission<'_>, lit: &Lit) -> Elem
    requires { element_is_coded lit.now ≡ true }
    ensures { result ≡ elem_of emission.now lit.now }
{
    match lit {
        Lit::Int(value) => Elem::Int(value.get()),
        Lit::True => Elem::True,
        Lit::False => Elem::False,
        Lit::Str(text) => Elem::Text(emission.text_number(text)),
        Lit::Arr(array) => Elem::Array(*array),
        Lit::Wref(word) => Elem::Word(*word),
        Lit::Made(template) => Elem::Template(*template),
        Lit::Quot(_) => unreachable!(),
    }
}

// The elements of an array.
fn elems(emission: &Emission<'_>, lits: &List<Lit>) -> Result<List<Elem>, Memory>
    requires { array_is_coded lits.now ≡ true }
    ensures { IfOk result (λ elems. elems ≡ elems_of emission.now lits.now) }
{
    let mut elems = List::new(emission.alloc());
    for lit in lits.as_slice() {
        elems.push(elem(emission, lit))?;
    }
    Ok(elems)
}

/// The literal arrays of a closed program.
pub fn arrays_of(emission: &Emission<'_>) -> Result<List<List<Elem>>, Memory>
    requires { list_all array_is_coded emission.now.program.arrays ≡ true }
    ensures { IfOk result (λ arrays. arrays ≡ program_arrays emission.now) }
{
    let mut arrays = List::new(emission.alloc());
    for lits in emission.program().arrays.as_slice() {
        arrays.push(elems(emission, lits)?)?;
    }
    Ok(arrays)
}
