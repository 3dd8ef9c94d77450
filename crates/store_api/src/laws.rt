//! Laws of journals, as the contracts of functions that do nothing.

ghost use Rattle.store_api.specs.Laws.{TreesLaw, PoliteLaw, NamesLaw, FirstLaw, RowsLaw, PutsLaw};

/// Standing trees: in a legal polite journal in which nothing is put again, each snapshot that was
/// put keeps its tree, or keeps having none.
pub fn trees_law()
    ensures { TreesLaw }
{}

/// What is polite stays polite, whatever good events come.
pub fn polite_law()
    ensures { PoliteLaw }
{}

/// In a legal polite journal each ref names a snapshot that was put, each snapshot was put after its log, and
/// the parent that it first named and the manifests that any put of it named, and each manifest after the objects in
/// which it has chunks.
pub fn names_law()
    ensures { NamesLaw }
{}

/// Where nothing was put again, a polite operation that puts nothing again names nothing that wasn't put.
pub fn first_law()
    ensures { FirstLaw }
{}

/// And it keeps its rows.
pub fn rows_law()
    ensures { RowsLaw }
{}

/// And what was put of manifests and of objects with chunks stays put and readable.
pub fn puts_law()
    ensures { PutsLaw }
{}
