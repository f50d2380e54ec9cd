//! What reading by definition keeps to, for who speaks of all the records of a log. The functions do nothing: they are
//! called where their facts are needed.

ghost use Rattle.std.specs.Prelude.{◌≡◌, ◌≤◌, ◌<◌, ◌-◌, ℕ, List, ◌++◌, length, take, slice_index};
ghost use Rattle.ds_model.specs.declared.log.LogRecord.{LogRecord};
ghost use Rattle.ds_model.specs.Logs.{IsLog};
ghost use Rattle.ds_model.specs.RecordBytes.{IsAllowed, record_bytes, log_bytes};
ghost use Rattle.log_record.specs.declared.fault.RecordFault.TheVariants.{NotWhole};
ghost use Rattle.log_record.specs.Reading.{Found, record_in};
ghost use Rattle.log_record.specs.Logs.{Parts, parts_in, ArePartsOf, IsDamagedAt};

/// What is read is a spelling, and every spelling is read, whatever follows it. A front of a spelling is not whole.
pub fn reading_laws()
    ensures found { (bytes : List ℕ) (r : LogRecord) (n : ℕ) → ((i : ℕ) → slice_index bytes i < 256) → record_in bytes ≡ Ok (r, n) → Found bytes r n }
    ensures again { (r : LogRecord) (rest : List ℕ) → IsAllowed r → record_in (record_bytes r ++ rest) ≡ Ok (r, length (record_bytes r)) }
    ensures cut { (r : LogRecord) (n : ℕ) → IsAllowed r → n < length (record_bytes r) → record_in (take n (record_bytes r)) ≡ Err NotWhole }
{}

/// The parts of bytes are their whole records and what follows them, and damage is named where the first bad field
/// begins. A log that a stop inside an append has left is read as its whole records and the tail.
pub fn log_laws()
    ensures sound { (bytes : List ℕ) (records : List LogRecord) → IsLog bytes records → parts_in bytes ≡ Ok (record { records = records; size = length (log_bytes records); tail = length bytes - length (log_bytes records) }) }
    ensures whole { (bytes : List ℕ) (p : Parts) → ArePartsOf bytes p → parts_in bytes ≡ Ok p }
    ensures damaged { (bytes : List ℕ) (at : ℕ) → IsDamagedAt bytes at → parts_in bytes ≡ Err at }
    ensures damage { (bytes : List ℕ) (at : ℕ) → ((i : ℕ) → slice_index bytes i < 256) → parts_in bytes ≡ Err at → IsDamagedAt bytes at }
{
    reading_laws();
}
