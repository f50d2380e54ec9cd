//! The commits that logs tell of.

ghost use Rattle.std.specs.Prelude.{◌≡◌, ◌++◌, ◌-◌, [], map, take, drop, slice_index, slice_set, option_to_list, OnOk, IfOk, Decides};
ghost use Rattle.std.specs.List.{AllByRecursion};
ghost use Rattle.report_check.specs.Records.{records_of};
ghost use Rattle.report_check.specs.Commits.{commits_of, at_member};
ghost use Rattle.report_check.specs.Commits as model;

use ds_base::{MemberId, NoMemory};
use ds_model::{Body, LogRecord};
use log_record::Log;
use std::alloc::Global;
use std::collections::VecDeque;

fn put_commits(out: &mut VecDeque<u128>, records: &[LogRecord]) -> Result<(), NoMemory>
    ensures { OnOk result (out.new.items ≡ out.old.items ++ commits_of records.now) }
{
    for item in records {
        if let Body::Commit = item.body {
            out.push_back(item.tran.number())?;
        }
    }
    Ok(())
}

// The commits behind so many records.
fn commits_behind(
    alloc: Global,
    records: &[LogRecord],
    had: usize,
) -> Result<VecDeque<u128>, NoMemory>
    ensures { IfOk result (λ trans. trans.items ≡ commits_of (drop had records.now)) }
{
    let mut trans = VecDeque::new(alloc);
    if records.len() <= had {
        return Ok(trans);
    }
    put_commits(&mut trans, &records[had..])?;
    Ok(trans)
}

fn count_at(had: &[usize], i: usize) -> usize
    ensures { result ≡ slice_index had.now i }
{
    had.get(i).copied().unwrap_or(0)
}

/// For each log the transactions of its Commit records behind those that it had at the opening, in the order of the log.
pub fn new_commits(
    alloc: Global,
    logs: &[Log],
    had: &[usize],
) -> Result<Vec<VecDeque<u128>>, NoMemory>
    ensures { IfOk result (λ commits. map (λ q. q.items) commits.items ≡ model.new_commits had.now (records_of logs.now)) }
{
    let mut commits = Vec::new(alloc);
    for i in 0..logs.len() {
        commits.push(commits_behind(alloc, logs[i].records(), count_at(had, i))?)?;
    }
    Ok(commits)
}

/// Takes the first commit of a member.
pub fn next_commit(commits: &mut [VecDeque<u128>], member: MemberId) -> Option<u128>
    ensures first { option_to_list result ≡ take 1 (at_member (map (λ q. q.items) commits.old) member) }
    ensures left { map (λ q. q.items) commits.new ≡ slice_set (map (λ q. q.items) commits.old) (member - 1) (drop 1 (at_member (map (λ q. q.items) commits.old) member)) }
{
    let place = member.number() as usize - 1;
    if place < commits.len() {
        commits[place].pop_front()
    } else {
        None
    }
}

/// Whether no commit is left.
pub fn none_left(commits: &[VecDeque<u128>]) -> bool
    ensures { Decides result (AllByRecursion (λ q. q.items ≡ []) commits.now) }
{
    for trans in commits {
        if !trans.is_empty() {
            return false;
        }
    }
    true
}
