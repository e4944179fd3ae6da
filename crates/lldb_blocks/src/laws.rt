//! What holds of rows of blocks: calls that do nothing, whose contracts are the laws.
ghost use Rattle.lldb_blocks.specs.Laws.{BridgeLaws, ReadLaws, WriteLaws, EditLaws, RestLaws, HeapLaws, MapLaws};

/// A sound content is a row at rest that lies in it, with its heap, and the other way round.
pub fn bridge_laws()
    ensures { BridgeLaws }
{}

/// What a write of a head, of a link or of a free block does to the row that lies in a content.
pub fn write_laws()
    ensures { WriteLaws }
{}

/// What an edit of the row asks of the writes: taking out of a list and putting in, joining, parting, filling, cutting and
/// growing, and giving up a hole.
pub fn edit_laws()
    ensures { EditLaws }
{}

/// What a row's heap is once a content is written, moved or taken away.
pub fn heap_laws()
    ensures { HeapLaws }
{}

/// What is read of a block, of its head and of the bytes before it, and where no free block has room.
pub fn read_laws()
    ensures { ReadLaws }
{}

/// What stays of a row at rest while a call has a block in hand, and what makes it a row at rest again.
pub fn rest_laws()
    ensures { RestLaws }
{}

/// What contents by handle come to over the steps of a call that moves or removes one.
pub fn map_laws()
    ensures { MapLaws }
{}
