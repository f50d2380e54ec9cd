ghost use Rattle.table_images.specs.Stands.{StandsIsHeap};
ghost use Rattle.table_images.specs.Nodes.{StandsIsIndex};

/// The pages of a heap, and of an index, are what they are to be exactly where the heap is right, and the index by itself.
pub fn stands_laws()
    ensures heap { StandsIsHeap }
    ensures index { StandsIsIndex }
{}
