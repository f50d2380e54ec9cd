//! What the reading of a log comes to. The function does nothing: it is called where its facts are needed.

ghost use Rattle.log_reader.specs.Keeping.{NothingIsOf, BeginningIsOf, KeepingIsOf, GrownIsOf, ReadIsLast, NothingIsNoted, KeepingIsNoted, GrownIsNoted, OldIsNoted};

/// What is kept of a log are its bytes behind whole records. The log that is read in the end has the last records of the
/// log of all bytes, ends where that ends, and has its tail. Of a log that is read from its first byte on it is known in the
/// end whether one of all its records is of version 1.
pub fn reader_laws()
    ensures nothing { NothingIsOf }
    ensures beginning { BeginningIsOf }
    ensures keeping { KeepingIsOf }
    ensures grown { GrownIsOf }
    ensures last { ReadIsLast }
    ensures nothing_noted { NothingIsNoted }
    ensures keeping_noted { KeepingIsNoted }
    ensures grown_noted { GrownIsNoted }
    ensures old_noted { OldIsNoted }
{
    log_record::reading_laws();
    log_head::whole_laws();
}
