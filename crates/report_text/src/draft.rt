//! A report that is being read, and what one line more makes of it.

ghost use Rattle.std.specs.Prelude.{◌≡◌, ◌==◌, ◌&&◌, IfOk, Some, None};
ghost use Rattle.ds_model.specs.declared.report.Told.{Told};
ghost use Rattle.report_text.specs.Grammar.{is_before};
ghost use Rattle.report_text.specs.Steps as spec;

use ds_base::{Bytes, Key, MemberId, NoMemory, Row, RowList, Sequence, TableId, Value};
use ds_model::{
    CauseLine, EventLine, Report, ReportEntry, ReportEntryList, Told, ToldRead, ToldRefusal, Trace,
};
use report_line::{ReportLine, read_line};
use std::alloc::Global;

/// What has been read, and so what may come next.
#[derive(Debug, Drop)]
pub enum Stage {
    /// Nothing.
    Start,
    /// Committed entries, the last of which has no reads.
    Committed,
    /// Committed entries, the last of which is answered: its reads may follow.
    Reads,
    /// A scan of the last entry, with fewer rows so far than its count says.
    Scan {
        table: TableId,
        low: Key,
        high: Key,
        count: u64,
        rows: RowList,
    },
    /// An entry that isn't committed.
    Others,
    /// The cause of a refusal.
    Causes,
    /// An event.
    Events,
    /// The count of the rows.
    Rows {
        count: u64,
    },
    /// The whole report.
    Done,
}

/// The report as far as it has been read.
#[derive(Debug, Drop)]
pub struct Draft {
    pub stage: Stage,
    pub report: Report,
}

impl Stage {
    fn is_start(&self) -> bool
        ensures { result ≡ spec.is_start self.now }
    {
        matches!(self, Stage::Start)
    }

    pub fn is_done(&self) -> bool
        ensures { result ≡ spec.is_done self.now }
    {
        matches!(self, Stage::Done)
    }

    fn takes_committed(&self) -> bool
        ensures { result ≡ spec.takes_committed self.now }
    {
        matches!(self, Stage::Committed | Stage::Reads)
    }

    fn takes_others(&self) -> bool
        ensures { result ≡ spec.takes_others self.now }
    {
        matches!(self, Stage::Committed | Stage::Reads | Stage::Others)
    }

    fn takes_causes(&self) -> bool
        ensures { result ≡ spec.takes_causes self.now }
    {
        matches!(
            self,
            Stage::Committed | Stage::Reads | Stage::Others | Stage::Causes
        )
    }

    fn takes_events(&self) -> bool
        ensures { result ≡ spec.takes_events self.now }
    {
        matches!(
            self,
            Stage::Committed | Stage::Reads | Stage::Others | Stage::Causes | Stage::Events
        )
    }
}

fn is_before(first: &Row, second: &Row) -> bool
    ensures { result ≡ is_before first.now second.now }
{
    first.table.number() < second.table.number()
        || (first.table.number() == second.table.number() && first.key < second.key)
}

// Whether a row may stand behind these.
#[tactic(auto, using(crate::proofs::Lists::follows_last))]
fn may_follow(rows: &[Row], row: &Row) -> bool
    ensures { result ≡ spec.may_follow rows.now row.now }
{
    match rows.last() {
        Some(last) => is_before(last, row),
        None => true,
    }
}

fn told_with(told: Told, read: ToldRead) -> Result<Told, NoMemory>
    ensures { IfOk result (λ found. found ≡ spec.told_with told read) }
{
    match told {
        Told::Committed {
            answered,
            mut reads,
        } => {
            reads.push(read)?;
            Ok(Told::Committed { answered, reads })
        }
        other => Ok(other),
    }
}

// The entries with one read more in the last of them.
#[tactic(auto, using(crate::proofs::Lists::last_with_push))]
fn last_with(entries: ReportEntryList, read: ToldRead) -> Result<ReportEntryList, NoMemory>
    ensures { IfOk result (λ found. found ≡ spec.last_with entries read) }
{
    let mut entries = entries.into_vec();
    if let Some(last) = entries.pop() {
        let ReportEntry { name, member, told } = last;
        let told = told_with(told, read)?;
        entries.push(ReportEntry { name, member, told })?;
    }
    Ok(Sequence::from_vec(entries))
}

fn with_read(report: Report, read: ToldRead) -> Result<Report, NoMemory>
    ensures { IfOk result (λ found. found ≡ spec.with_read report read) }
{
    let Report {
        entries,
        trace,
        rows,
        status,
    } = report;
    Ok(Report {
        entries: last_with(entries, read)?,
        trace,
        rows,
        status,
    })
}

// A scan with these rows so far.
fn scanning(
    report: Report,
    table: TableId,
    low: Key,
    high: Key,
    count: u64,
    rows: RowList,
) -> Result<Draft, NoMemory>
    ensures { IfOk result (λ draft. draft ≡ spec.scanning report table low high count rows) }
{
    if rows.len() as u64 == count {
        let scan = ToldRead::Scan {
            table,
            low,
            high,
            rows,
        };
        Ok(Draft {
            stage: Stage::Reads,
            report: with_read(report, scan)?,
        })
    } else {
        Ok(Draft {
            stage: Stage::Scan {
                table,
                low,
                high,
                count,
                rows,
            },
            report,
        })
    }
}

// A scan with one row more, or `None` where it may not have it.
fn scanned(
    report: Report,
    table: TableId,
    low: Key,
    high: Key,
    count: u64,
    mut rows: RowList,
    row: Row,
) -> Result<Option<Draft>, NoMemory>
    ensures { IfOk result (λ found. found ≡ spec.scanned report table low high count rows row) }
{
    if row.table.number() != table.number() || !may_follow(rows.as_slice(), &row) {
        return Ok(None);
    }
    rows.push(row)?;
    Ok(Some(scanning(report, table, low, high, count, rows)?))
}

impl Draft {
    pub fn new(alloc: Global) -> Draft
        ensures { result ≡ spec.start }
    {
        Draft {
            stage: Stage::Start,
            report: Report {
                entries: Sequence::new(alloc),
                trace: Trace {
                    causes: Sequence::new(alloc),
                    events: Sequence::new(alloc),
                },
                rows: Sequence::new(alloc),
                status: 0,
            },
        }
    }

    fn opened(self) -> Option<Draft>
        ensures { result ≡ spec.opened self }
    {
        if !self.stage.is_start() {
            return None;
        }
        Some(Draft {
            stage: Stage::Committed,
            report: self.report,
        })
    }

    fn with_entry(self, stage: Stage, entry: ReportEntry) -> Result<Draft, NoMemory>
        ensures { IfOk result (λ draft. draft ≡ spec.draft_at stage (spec.with_entry self.report entry)) }
    {
        let mut report = self.report;
        report.entries.push(entry)?;
        Ok(Draft { stage, report })
    }

    fn committed(
        self,
        alloc: Global,
        name: Bytes,
        member: MemberId,
        answered: bool,
    ) -> Result<Option<Draft>, NoMemory>
        ensures { IfOk result (λ found. found ≡ spec.committed self name member answered) }
    {
        if !self.stage.takes_committed() {
            return Ok(None);
        }
        let stage = if answered {
            Stage::Reads
        } else {
            Stage::Committed
        };
        let told = Told::Committed {
            answered,
            reads: Sequence::new(alloc),
        };
        let entry = ReportEntry { name, member, told };
        Ok(Some(self.with_entry(stage, entry)?))
    }

    fn ended(self, name: Bytes, member: MemberId, told: Told) -> Result<Option<Draft>, NoMemory>
        ensures { IfOk result (λ found. found ≡ spec.ended self name member told) }
    {
        if !self.stage.takes_others() {
            return Ok(None);
        }
        let entry = ReportEntry { name, member, told };
        Ok(Some(self.with_entry(Stage::Others, entry)?))
    }

    fn read(self, table: TableId, key: Key, value: Option<Value>) -> Result<Option<Draft>, NoMemory>
        ensures { IfOk result (λ found. found ≡ spec.read_at self.report self.stage table key value) }
    {
        let Draft { stage, report } = self;
        match stage {
            Stage::Reads => {
                let get = ToldRead::Get { table, key, value };
                Ok(Some(Draft {
                    stage: Stage::Reads,
                    report: with_read(report, get)?,
                }))
            }
            Stage::Scan {
                table: of,
                low,
                high,
                count,
                rows,
            } => match value {
                Some(value) => {
                    let row = Row { table, key, value };
                    scanned(report, of, low, high, count, rows, row)
                }
                None => Ok(None),
            },
            _ => Ok(None),
        }
    }

    fn scan(
        self,
        alloc: Global,
        table: TableId,
        low: Key,
        high: Key,
        count: u64,
    ) -> Result<Option<Draft>, NoMemory>
        ensures { IfOk result (λ found. found ≡ spec.scan_at self.report self.stage table low high count) }
    {
        match self.stage {
            Stage::Reads => {
                let rows = Sequence::new(alloc);
                Ok(Some(scanning(self.report, table, low, high, count, rows)?))
            }
            _ => Ok(None),
        }
    }

    fn caused(self, cause: CauseLine) -> Result<Option<Draft>, NoMemory>
        ensures { IfOk result (λ found. found ≡ spec.caused self cause) }
    {
        if !self.stage.takes_causes() {
            return Ok(None);
        }
        let mut report = self.report;
        report.trace.causes.push(cause)?;
        Ok(Some(Draft {
            stage: Stage::Causes,
            report,
        }))
    }

    fn happened(self, event: EventLine) -> Result<Option<Draft>, NoMemory>
        ensures { IfOk result (λ found. found ≡ spec.happened self event) }
    {
        let place = self.report.trace.events.len() as u64 + 1;
        if !self.stage.takes_events() || event.place != place {
            return Ok(None);
        }
        let mut report = self.report;
        report.trace.events.push(event)?;
        Ok(Some(Draft {
            stage: Stage::Events,
            report,
        }))
    }

    fn counted(self, count: u64) -> Option<Draft>
        ensures { result ≡ spec.counted self count }
    {
        if !self.stage.takes_events() {
            return None;
        }
        Some(Draft {
            stage: Stage::Rows { count },
            report: self.report,
        })
    }

    fn row(self, row: Row) -> Result<Option<Draft>, NoMemory>
        ensures { IfOk result (λ found. found ≡ spec.row_at self.report self.stage row) }
    {
        let Stage::Rows { count } = self.stage else {
            return Ok(None);
        };
        let mut report = self.report;
        if report.rows.len() as u64 >= count || !may_follow(report.rows.as_slice(), &row) {
            return Ok(None);
        }
        report.rows.push(row)?;
        Ok(Some(Draft {
            stage: Stage::Rows { count },
            report,
        }))
    }

    fn end(self, status: u8) -> Option<Draft>
        ensures { result ≡ spec.end_at self.report self.stage status }
    {
        let Stage::Rows { count } = self.stage else {
            return None;
        };
        let mut report = self.report;
        if report.rows.len() as u64 != count {
            return None;
        }
        report.status = status;
        Some(Draft {
            stage: Stage::Done,
            report,
        })
    }

    // The draft with one line more, or `None` where the line may not stand there.
    #[tactic(auto, unfolding(crate::specs::Steps::step))]
    fn step(self, alloc: Global, line: ReportLine) -> Result<Option<Draft>, NoMemory>
        ensures { IfOk result (λ found. found ≡ spec.step self line) }
    {
        match line {
            ReportLine::Opening => Ok(self.opened()),
            ReportLine::Committed {
                name,
                member,
                answered,
            } => self.committed(alloc, name, member, answered),
            ReportLine::Refused {
                name,
                member,
                refusal,
            } => self.ended(name, member, Told::Refused(refusal)),
            ReportLine::Stopped { name, member } => self.ended(name, member, Told::Stopped),
            ReportLine::Read { table, key, value } => self.read(table, key, value),
            ReportLine::Scan {
                table,
                low,
                high,
                count,
            } => self.scan(alloc, table, low, high, count),
            ReportLine::Cause(cause) => self.caused(cause),
            ReportLine::Event(event) => self.happened(event),
            ReportLine::Rows { count } => Ok(self.counted(count)),
            ReportLine::Row(row) => self.row(row),
            ReportLine::End { status } => Ok(self.end(status)),
        }
    }

    /// The draft with a line of text more, or `None` where such a line may not stand there.
    pub fn step_text(self, alloc: Global, text: &[u8]) -> Result<Option<Draft>, NoMemory>
        ensures { IfOk result (λ found. found ≡ spec.step_text self text.now) }
    {
        match read_line(alloc, text)? {
            Some(line) => self.step(alloc, line),
            None => Ok(None),
        }
    }
}
