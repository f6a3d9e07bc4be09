//! Laws of paths, each on the contract of a function that does nothing.
ghost use Rattle.fac_graph.specs.Laws.{CyclesOfClasses, ShortPathsSuffice};

/// Where a path leads from one node to another, one does that has no more edges than there are nodes.
pub fn short_paths_suffice()
    ensures { ShortPathsSuffice }
{}

/// What `leading_back` tells of the parents and members of classes is which classes reach themselves by these, as it is defined of whole
/// programs.
pub fn cycles_of_classes()
    ensures { CyclesOfClasses }
{}
