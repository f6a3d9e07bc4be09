//! The tables of a program's methods.
ghost use Rattle.std.specs.Prelude.{◌≡◌, ◌<◌, length, map};
ghost use Rattle.fac_lang.specs.Classes.{pick, next};
ghost use Rattle.fac_classes.specs.ClassKinds.{kind_total};
ghost use Rattle.fac_generic.specs.Methods.{methods_in_order};
ghost use Rattle.fac_generic.specs.inner.Rows.{AreTables};

use crate::rows::{behind, first_of, method_of, place_among};
use fac_base::List;
use fac_classes::Classes;
use fac_lang::Program;
use std::marker::Model;

/// The methods of the generics of a program. Contracts see the program.
#[derive(Drop)]
pub struct Tables<'a> {
    program: &'a Program,
    classes: &'a Classes,
    // For each word its methods, in the order of their classes.
    rows: Vec<List<u32>>,
}

impl<'a> Model for Tables<'a> {
    ghost use Rattle.fac_lang.specs.declared.program.Program.{Program};
    ghost use Rattle.fac_generic.specs.inner.Rows.{AreTables};
    ghost use Rattle.std.specs.Coded.{codes};
    ghost use Rattle.fac_lang.specs.PhraseCodes.{coded_phrase};
    ghost use Rattle.fac_base.specs.Signatures.{coded_signature};

    ghost Value = { Program };

    ghost coded = { Prim.hlevel (codes, coded_phrase, coded_signature) };

    ghost view = { λ t. t.program.now };

    ghost invariant = { λ t. AreTables t.program.now t.classes.now t.rows.items };
}

impl<'a> Tables<'a> {
    // The tables with these rows.
    pub(crate) fn with_rows(
        program: &'a Program,
        classes: &'a Classes,
        rows: Vec<List<u32>>,
    ) -> Tables<'a>
        requires { AreTables program.now classes.now rows.items }
        ensures { result ≡ program.now }
    {
        Tables {
            program,
            classes,
            rows,
        }
    }

    /// The words of all methods of a generic, in the order of their classes. Another word has none.
    pub fn methods(&self, generic: u32) -> &List<u32>
        requires { generic < length self.now.words }
        ensures { result.now ≡ map (λ m. m.0) (methods_in_order self.now generic) }
    {
        &self.rows[generic as usize]
    }

    /// The method of a generic for a kind. None exactly where none of its methods has a class with the kind. It takes the time of the methods of
    /// the generic, of which there are at most as many as classes.
    pub fn pick(&self, generic: u32, kind: u32) -> Option<u32>
        requires generic { generic < length self.now.words }
        requires kind { kind < kind_total self.now.classes }
        ensures { result ≡ pick self.now generic kind }
    {
        let row = self.methods(generic);
        first_of(self.program, self.classes, row.as_slice(), kind)
    }

    /// The method after a method of a generic, for a kind. None exactly where there is none, or where the class of the method doesn't have the
    /// kind. It takes the time of the methods behind it.
    pub fn next(&self, method: u32, kind: u32) -> Option<u32>
        requires { kind < kind_total self.now.classes }
        ensures { result ≡ next self.now method kind }
    {
        match method_of(self.program, method) {
            Some((class, generic)) => {
                if !self.classes.has(class, kind) {
                    return None;
                }
                let row = self.methods(generic).as_slice();
                let rank = self.classes.order_of(class);
                let place = place_among(self.program, self.classes, row, rank);
                first_of(self.program, self.classes, behind(row, place), kind)
            }
            None => None,
        }
    }
}
