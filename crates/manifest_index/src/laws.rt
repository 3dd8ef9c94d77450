ghost use Rattle.manifest_index.specs.Laws.{MergedLaw, NewListLaw, ExtentsLaw, SizedExtentsLaw};

/// The chunks after a change are at each index where they are merged to be, in strict order; they have the array's rank,
/// and each is the change's own or one of an old manifest. It does nothing: the contract is a law.
pub fn merged_law()
    ensures { MergedLaw }
{}

/// A list of one manifest that has but the array after a change, with the extents of its chunks, finds each chunk where
/// the change leaves it. It does nothing: the contract is a law.
pub fn new_list_law()
    ensures { NewListLaw }
{}

/// The extents of chunks contain their indices, and are the least that do. It does nothing: the contract is a law.
pub fn extents_law()
    ensures { ExtentsLaw }
{}

/// The numbers of extents have 32 bits where no chunk has the number 4,294,967,295 in its index. It does nothing: the
/// contract is a law.
pub fn sized_extents_law()
    ensures { SizedExtentsLaw }
{}
