//! What the reading of a log comes to. The function does nothing: it is called where its facts are needed.

ghost use Rattle.checkpoint_reader.specs.Keeping.{NothingStands, RepliesStand, ReadIsLast};

/// While the replies are the log's, what is kept are its bytes behind whole records. The log that is read in the end has
/// the last records of the log of all bytes, ends where that ends, and has its tail.
pub fn reader_laws()
    ensures nothing { NothingStands }
    ensures replies { RepliesStand }
    ensures last { ReadIsLast }
{
    log_record::reading_laws();
    log_head::whole_laws();
    log_checkpoint::search_laws();
    log_reader::reader_laws();
}
