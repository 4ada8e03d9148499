//! What holds of stores whose numbers in use are those below their count. Who takes numbers by `fresh` and `fresh_block` alone, and gives them back
//! by `remove` and `remove_block` alone, has such a store.
ghost use Rattle.store.specs.Dense.{DenseEmpty, DenseFresh, DenseRemove, DenseFreshBlock, DenseRemoveBlock, DenseCount, DenseShape, ShapeDense, BlockMoves, FewForWords, FewForFresh, FewForBlock};

/// A new store is dense, and it stays so.
pub fn dense_stands()
    ensures empty { DenseEmpty }
    ensures fresh { DenseFresh }
    ensures remove { DenseRemove }
    ensures taken { DenseFreshBlock }
    ensures given { DenseRemoveBlock }
{}

/// The sum that refuses has a constant for each list in use.
pub fn dense_count_stands()
    ensures counts { DenseCount }
    ensures shape { DenseShape }
    ensures back { ShapeDense }
{}

/// What `remove_block` does to each list, where the two blocks have no list in common.
pub fn block_moves_stands()
    ensures { BlockMoves }
{}

/// How few words are lent where room is refused.
pub fn few_lent_stands()
    ensures words { FewForWords }
    ensures fresh { FewForFresh }
    ensures block { FewForBlock }
{}
