//! Laws of the grammar, each on the contract of a function that does nothing.
ghost use Rattle.fac_parse.specs.Nesting.{ItemsNest, LiteralsNest, OneNesting};
ghost use Rattle.fac_parse.specs.Trees.{OnePlace, OneTree, SomePlace, TreeOrNone};

/// No two trees have the same tokens.
pub fn one_tree()
    ensures { OneTree }
{}

/// Tokens are those of a tree, or of none.
pub fn tree_or_none()
    ensures { TreeOrNone }
{}

/// Tokens of no tree are refused at one place, and for one reason.
pub fn one_place()
    ensures { OnePlace }
{}

/// Tokens of no tree are refused at some place.
pub fn some_place()
    ensures { SomePlace }
{}

/// The items of a form are those that nest well, and no others: what is said of levels, elements, locals and holes holds of what stands in each
/// pair of brackets.
pub fn items_nest()
    ensures { ItemsNest }
{}

/// Likewise the literal of a constant.
pub fn literals_nest()
    ensures { LiteralsNest }
{}

/// Elements nest in one way.
pub fn one_nesting()
    ensures { OneNesting }
{}
