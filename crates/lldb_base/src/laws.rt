//! What a batch does, byte by byte.
ghost use Rattle.lldb_base.specs.Batch.{BatchLaws};

/// After a batch the content has the batch's length, and each byte is that of the piece that covers its place, else the
/// old one. The call does nothing.
pub fn batch_laws()
    ensures { BatchLaws }
{}
