ghost use Rattle.std.specs.Prelude.{◌≡◌, ◌++◌, OnOk, IfOk, Some, codes, decimal, replicate};
ghost use Rattle.std.specs.List.{flat_map};
ghost use Rattle.ds_model.specs.ScriptText.{line, spot_text, op_text, tran_text, wait_text, restart_text, fail_text, part_text, groupfail_text, phase_text, script_text};

use ds_base::{Bytes, NoMemory};
use ds_model::{FailAt, Op, Part, Phase, Script, Tran};
use std::alloc::Global;

// A word, a table and a key.
fn put_spot(
    alloc: Global,
    out: &mut Bytes,
    word: &[u8],
    table: u64,
    key: u64,
) -> Result<(), NoMemory>
    ensures { OnOk result (out.new ≡ out.old ++ spot_text word.now table key) }
{
    out.extend(word)?;
    out.extend(b" ")?;
    out.extend_number(alloc, table)?;
    out.extend(b" ")?;
    out.extend_number(alloc, key)
}

// A line of a word and a number.
fn put_counted(alloc: Global, out: &mut Bytes, word: &[u8], number: u32) -> Result<(), NoMemory>
    ensures { OnOk result (out.new ≡ out.old ++ line (word.now ++ decimal number)) }
{
    out.extend(word)?;
    out.extend_number(alloc, u64::from(number))?;
    out.extend(b"\n")
}

fn put_op(alloc: Global, out: &mut Bytes, op: &Op) -> Result<(), NoMemory>
    ensures { OnOk result (out.new ≡ out.old ++ op_text op.now) }
{
    match op {
        Op::Get { table, key } => {
            put_spot(alloc, out, b"get", table.number(), *key)?;
            out.extend(b"\n")
        }
        Op::Getu { table, key } => {
            put_spot(alloc, out, b"getu", table.number(), *key)?;
            out.extend(b"\n")
        }
        Op::Put { table, key, value } => {
            put_spot(alloc, out, b"put", table.number(), *key)?;
            out.extend(b" =")?;
            out.extend(value.bytes())?;
            out.extend(b"\n")
        }
        Op::Del { table, key } => {
            put_spot(alloc, out, b"del", table.number(), *key)?;
            out.extend(b"\n")
        }
        Op::Scan { table, low, high } => {
            put_spot(alloc, out, b"scan", table.number(), *low)?;
            out.extend(b" ")?;
            out.extend_number(alloc, *high)?;
            out.extend(b"\n")
        }
        Op::Raise { flag } => put_counted(alloc, out, b"raise ", u32::from(*flag)),
        Op::Await { flag } => put_counted(alloc, out, b"await ", u32::from(*flag)),
        Op::LoseCache => out.extend(b"losecache\n"),
        Op::Abort => out.extend(b"abort\n"),
    }
}

fn put_ops(alloc: Global, out: &mut Bytes, ops: &[Op]) -> Result<(), NoMemory>
    ensures { OnOk result (out.new ≡ out.old ++ flat_map op_text ops.now) }
{
    for op in ops {
        put_op(alloc, out, op)?;
    }
    Ok(())
}

// The head of a transaction.
fn put_head(out: &mut Bytes, name: &[u8], wait: bool) -> Result<(), NoMemory>
    ensures { OnOk result (out.new ≡ out.old ++ line (codes "tran " ++ name.now ++ wait_text wait)) }
{
    out.extend(b"tran ")?;
    out.extend(name)?;
    if !wait {
        out.extend(b" nowait")?;
    }
    out.extend(b"\n")
}

fn put_tran(alloc: Global, out: &mut Bytes, tran: &Tran) -> Result<(), NoMemory>
    ensures { OnOk result (out.new ≡ out.old ++ tran_text tran.now) }
{
    put_head(out, tran.name.as_slice(), tran.wait)?;
    put_ops(alloc, out, tran.ops.as_slice())?;
    out.extend(b"end\n")
}

fn put_trans(alloc: Global, out: &mut Bytes, trans: &[Tran]) -> Result<(), NoMemory>
    ensures { OnOk result (out.new ≡ out.old ++ flat_map tran_text trans.now) }
{
    for tran in trans {
        put_tran(alloc, out, tran)?;
    }
    Ok(())
}

fn put_restart(out: &mut Bytes, restart: bool) -> Result<(), NoMemory>
    ensures { OnOk result (out.new ≡ out.old ++ restart_text restart) }
{
    if restart {
        out.extend(b"restart\n")?;
    }
    Ok(())
}

// The line of a failure.
fn put_fail_at(alloc: Global, out: &mut Bytes, fail: FailAt) -> Result<(), NoMemory>
    ensures { OnOk result (out.new ≡ out.old ++ fail_text (Some fail)) }
{
    match fail {
        FailAt::Command(n) => put_counted(alloc, out, b"fail command ", n),
        FailAt::Commit(n) => put_counted(alloc, out, b"fail commit ", n),
        FailAt::Committed(n) => put_counted(alloc, out, b"fail committed ", n),
        FailAt::Raise(flag) => put_counted(alloc, out, b"fail raise ", u32::from(flag)),
    }
}

fn put_fail(alloc: Global, out: &mut Bytes, fail: Option<FailAt>) -> Result<(), NoMemory>
    ensures { OnOk result (out.new ≡ out.old ++ fail_text fail) }
{
    match fail {
        None => Ok(()),
        Some(fail) => put_fail_at(alloc, out, fail),
    }
}

fn put_member(alloc: Global, out: &mut Bytes, member: u64) -> Result<(), NoMemory>
    ensures { OnOk result (out.new ≡ out.old ++ line (codes "member " ++ decimal member)) }
{
    out.extend(b"member ")?;
    out.extend_number(alloc, member)?;
    out.extend(b"\n")
}

fn put_part(alloc: Global, out: &mut Bytes, part: &Part) -> Result<(), NoMemory>
    ensures { OnOk result (out.new ≡ out.old ++ part_text part.now) }
{
    put_member(alloc, out, part.member.number())?;
    put_restart(out, part.restart)?;
    put_fail(alloc, out, part.fail)?;
    put_trans(alloc, out, part.trans.as_slice())
}

fn put_parts(alloc: Global, out: &mut Bytes, parts: &[Part]) -> Result<(), NoMemory>
    ensures { OnOk result (out.new ≡ out.old ++ flat_map part_text parts.now) }
{
    for part in parts {
        put_part(alloc, out, part)?;
    }
    Ok(())
}

fn put_groupfails(out: &mut Bytes, count: u32) -> Result<(), NoMemory>
    ensures { OnOk result (out.new ≡ out.old ++ groupfail_text count) }
{
    for _ in 0..count {
        out.extend(b"groupfail\n")?;
    }
    Ok(())
}

fn put_phase(alloc: Global, out: &mut Bytes, phase: &Phase) -> Result<(), NoMemory>
    ensures { OnOk result (out.new ≡ out.old ++ phase_text phase.now) }
{
    put_groupfails(out, phase.groupfails)?;
    out.extend(b"phase\n")?;
    put_parts(alloc, out, phase.parts.as_slice())
}

fn put_phases(alloc: Global, out: &mut Bytes, phases: &[Phase]) -> Result<(), NoMemory>
    ensures { OnOk result (out.new ≡ out.old ++ flat_map phase_text phases.now) }
{
    for phase in phases {
        put_phase(alloc, out, phase)?;
    }
    Ok(())
}

/// The canonical text of a script: one line an item, each with a line feed, words and numbers apart by single spaces.
pub fn script_bytes(alloc: Global, script: &Script) -> Result<Bytes, NoMemory>
    ensures { IfOk result (λ text. text ≡ script_text script.now) }
{
    let mut out = Bytes::new(alloc);
    put_phases(alloc, &mut out, script.phases.as_slice())?;
    put_groupfails(&mut out, script.groupfails)?;
    Ok(out)
}
