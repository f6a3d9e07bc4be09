//! A table of which classes have which kinds: a row of cells for each class, with a cell for each kind.
ghost use Rattle.std.specs.Prelude.{◌≡◌, ◌<◌, ◌≤◌, ◌+◌, ◌*◌, length};
ghost use Rattle.fac_classes.specs.inner.Cells.{cell, Marks, Joins};

/// Whether a kind of a class is marked.
pub fn is_marked(cells: &[bool], width: u32, class: u32, kind: u32) -> bool
    requires row { class * width + width ≤ length cells.now }
    requires kind { kind < width }
    ensures { result ≡ cell width cells.now class kind }
{
    let first = class as usize * width as usize;
    cells[first + kind as usize]
}

/// Marks a kind of a class.
pub fn mark(cells: &mut [bool], width: u32, class: u32, kind: u32)
    requires row { class * width + width ≤ length cells.old }
    requires kind { kind < width }
    ensures { Marks width class kind cells.old cells.new }
{
    let first = class as usize * width as usize;
    cells[first + kind as usize] = true;
}

/// Marks for a class what is marked for another.
pub fn join(cells: &mut [bool], width: u32, to: u32, from: u32)
    requires to { to * width + width ≤ length cells.old }
    requires from { from * width + width ≤ length cells.old }
    ensures { Joins width to from cells.old cells.new }
{
    for kind in 0..width {
        if is_marked(cells, width, from, kind) {
            mark(cells, width, to, kind);
        }
    }
}
