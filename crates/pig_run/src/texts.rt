ghost use Rattle.std.specs.Prelude.{◌≡◌, ◌++◌, ◌∷◌, [], map, codes, decimal, IfOk, OnOk};
ghost use Rattle.pig_run.specs.Texts.{done_line, fault_line, fault_text, is_silent, kind_name, large_name, ok_text, stored_line};
ghost use Rattle.std.specs.List.{flat_map};
ghost use Rattle.std.specs.Option.{option_copied};
ghost use Rattle.pig_run.specs.OwnRun.{parts_found};
ghost use Rattle.pig_collect.specs.Collecting.{joined};
ghost use Rattle.pig_run.specs.Running.{noted_line};
ghost use Rattle.pig_run.specs.declared.outcome.RunFault.TheVariants as fault;

use crate::progress::Notes;
use crate::{Counts, RunFault, TooLarge};
use itoa::Buffer;
use pig_outside::DirState;
use pig_typing::CheckKind;
use pig_value::{Blob, Text};
use std::alloc::{AllocError, Global};

// A part, a number and another part.
fn numbered(alloc: Global, before: &[u8], number: u64, behind: &[u8]) -> Result<Vec<u8>, AllocError>
    ensures { IfOk result (λ line. line.items ≡ before.now ++ decimal number ++ behind.now) }
{
    let mut line = Vec::from_slice(alloc, before)?;
    add_digits(&mut line, number)?;
    line.extend_from_slice(behind)?;
    Ok(line)
}

// A part and another one.
fn followed(alloc: Global, before: &[u8], behind: &[u8]) -> Result<Vec<u8>, AllocError>
    ensures { IfOk result (λ line. line.items ≡ before.now ++ behind.now) }
{
    let mut line = Vec::from_slice(alloc, before)?;
    line.extend_from_slice(behind)?;
    Ok(line)
}

// The name of a kind of refusal.
fn kind_name(kind: CheckKind) -> &'static str
    ensures { result.now ≡ kind_name kind }
{
    match kind {
        CheckKind::UnknownAlias => "UnknownAlias",
        CheckKind::UnknownField => "UnknownField",
        CheckKind::AmbiguousField => "AmbiguousField",
        CheckKind::PositionOut => "PositionOut",
        CheckKind::TypeMismatch => "TypeMismatch",
        CheckKind::BadKey => "BadKey",
        CheckKind::FloatType => "FloatType",
        CheckKind::UnknownFunction => "UnknownFunction",
        CheckKind::WrongArguments => "WrongArguments",
        CheckKind::SchemaMismatch => "SchemaMismatch",
        CheckKind::OutputTwice => "OutputTwice",
        CheckKind::SelfLoad => "SelfLoad",
        CheckKind::Compressed => "Compressed",
        CheckKind::Unsupported => "Unsupported",
        CheckKind::TooWide => "TooWide",
        CheckKind::TooDeep => "TooDeep",
    }
}

// The name of what is too large.
fn large_name(which: TooLarge) -> &'static str
    ensures { result.now ≡ large_name which }
{
    match which {
        TooLarge::Script => "script",
        TooLarge::Statements => "statements",
        TooLarge::Depth => "depth",
        TooLarge::Input => "input",
        TooLarge::Tasks => "tasks",
    }
}

const USAGE: &str = "usage: pig run|explain|check SCRIPT | demo N \
    [--workers N] [--reducers N] [--split BYTES] [--attempts N]";

// The text of a fault, with what is said behind its line. That the console failed is said nowhere.
pub fn fault_bytes(alloc: Global, fault: &RunFault, said: &[u8]) -> Result<Vec<u8>, AllocError>
    ensures { IfOk result (λ text. text.items ≡ fault_text said.now fault.now) }
{
    if is_silent(fault) {
        return Ok(Vec::new(alloc));
    }
    let mut text = fault_line(alloc, fault)?;
    text.extend_from_slice(said)?;
    text.push(10)?;
    Ok(text)
}

fn is_silent(fault: &RunFault) -> bool
    ensures { result ≡ is_silent fault.now }
{
    matches!(fault, RunFault::ConsoleFault)
}

// The line of a fault, without its end.
fn fault_line(alloc: Global, fault: &RunFault) -> Result<Vec<u8>, AllocError>
    ensures { IfOk result (λ line. line.items ≡ fault_line fault.now) }
{
    match fault {
        RunFault::Usage => Vec::from_slice(alloc, USAGE.as_bytes()),
        RunFault::NoScript => Vec::from_slice(alloc, b"pig: no script"),
        RunFault::Param { offset } => numbered(alloc, b"pig: offset ", *offset, b": parameter"),
        RunFault::Lex { offset } => numbered(alloc, b"pig: offset ", *offset, b": no token"),
        RunFault::Syntax { statement } => of_statement(alloc, *statement, b": syntax"),
        RunFault::Check { statement, kind } => check_line(alloc, *statement, *kind),
        RunFault::NoInput { path } => followed(alloc, b"pig: no input ", path.as_bytes()),
        RunFault::OutputExists { dir } => followed(alloc, b"pig: output exists ", dir.as_bytes()),
        RunFault::DepotFault { store } => depot_line(alloc, *store),
        RunFault::TaskFailed { wave, task, failed } => task_line(alloc, *wave, *task, *failed),
        RunFault::AssertFailed { statement } => {
            of_statement(alloc, *statement, b": assert failed")
        }
        RunFault::OutOfMemory => Vec::from_slice(alloc, b"pig: out of memory"),
        RunFault::ConsoleFault => Ok(Vec::new(alloc)),
        RunFault::TooLarge { which } => {
            followed(alloc, b"pig: too large: ", large_name(*which).as_bytes())
        }
    }
}

fn of_statement(alloc: Global, statement: u32, behind: &[u8]) -> Result<Vec<u8>, AllocError>
    ensures { IfOk result (λ line. line.items
        ≡ codes "pig: statement " ++ decimal statement ++ behind.now) }
{
    numbered(alloc, b"pig: statement ", u64::from(statement), behind)
}

// The line of a statement without a typing.
fn check_line(alloc: Global, statement: u32, kind: CheckKind) -> Result<Vec<u8>, AllocError>
    ensures { IfOk result (λ line. line.items ≡ fault_line (fault.Check statement kind)) }
{
    let mut line = of_statement(alloc, statement, b": ")?;
    line.extend_from_slice(kind_name(kind).as_bytes())?;
    Ok(line)
}

// The line of a task that failed.
fn task_line(alloc: Global, wave: u32, task: u32, failed: u32) -> Result<Vec<u8>, AllocError>
    ensures { IfOk result (λ line. line.items ≡ fault_line (fault.TaskFailed wave task failed)) }
{
    let mut line = numbered(alloc, b"pig: wave ", u64::from(wave), b" task ")?;
    add_digits(&mut line, u64::from(task))?;
    line.extend_from_slice(b" failed ")?;
    add_digits(&mut line, u64::from(failed))?;
    line.extend_from_slice(b" times")?;
    Ok(line)
}

// The line of a depot's fault.
fn depot_line(alloc: Global, store: Option<u32>) -> Result<Vec<u8>, AllocError>
    ensures { IfOk result (λ line. line.items ≡ fault_line (fault.DepotFault store)) }
{
    let mut line = Vec::from_slice(alloc, b"pig: storage failed")?;
    if let Some(statement) = store {
        line.extend_from_slice(b" at statement ")?;
        add_digits(&mut line, u64::from(statement))?;
    }
    Ok(line)
}

// Adds a number.
fn add_digits(out: &mut Vec<u8>, number: u64) -> Result<(), AllocError>
    ensures { OnOk result (out.new.items ≡ out.old.items ++ decimal number) }
{
    let mut buffer = Buffer::new();
    out.extend_from_slice(buffer.format(number).as_bytes())?;
    Ok(())
}

// The text of a script that was checked, of so many statements.
pub fn ok_bytes(alloc: Global, statements: u64) -> Result<Vec<u8>, AllocError>
    ensures { IfOk result (λ text. text.items ≡ ok_text statements) }
{
    let mut text = Vec::new(alloc);
    add_number(&mut text, b"ok ", statements, 10)?;
    Ok(text)
}

// Adds a part, a number and the byte behind it.
fn add_number(out: &mut Vec<u8>, before: &[u8], number: u64, behind: u8) -> Result<(), AllocError>
    ensures { OnOk result (out.new.items
        ≡ out.old.items ++ before.now ++ decimal number ++ behind ∷ []) }
{
    out.extend_from_slice(before)?;
    add_digits(out, number)?;
    out.push(behind)?;
    Ok(())
}

// Adds the line of a STORE.
fn add_stored(out: &mut Vec<u8>, dir: &[u8], lines: u64) -> Result<(), AllocError>
    ensures { OnOk result (out.new.items ≡ out.old.items ++ stored_line dir.now lines) }
{
    out.extend_from_slice(b"stored ")?;
    out.extend_from_slice(dir)?;
    add_number(out, b" ", lines, 10)
}

// Adds the last line of a run.
fn add_done(out: &mut Vec<u8>, counts: &Counts) -> Result<(), AllocError>
    ensures { OnOk result (out.new.items ≡ out.old.items ++ done_line counts.now) }
{
    add_number(out, b"done ", counts.read, 32)?;
    add_number(out, b"", counts.shuffled, 32)?;
    add_number(out, b"", counts.stored, 10)
}

// The text of a run that made these directories.
pub fn done_bytes(alloc: Global, notes: &Notes, counts: &Counts) -> Result<Vec<u8>, AllocError>
    ensures { IfOk result (λ text. text.items
        ≡ flat_map noted_line notes.now ++ done_line counts.now) }
{
    let mut out = Vec::new(alloc);
    let mut left = notes.as_slice();
    while let [note, rest @ ..] = left {
        add_stored(&mut out, note.dir.as_bytes(), note.lines)?;
        left = rest;
    }
    add_done(&mut out, counts)?;
    Ok(out)
}

// Adds parts, one after the other.
fn add_parts(out: &mut Vec<u8>, parts: &[Blob]) -> Result<(), AllocError>
    ensures { OnOk result (out.new.items ≡ out.old.items ++ joined parts.now) }
{
    let mut left = parts;
    while let [part, rest @ ..] = left {
        out.extend_from_slice(part.as_slice())?;
        left = rest;
    }
    Ok(())
}

// The text of what stands in a directory, if it is there, and of numbers.
pub fn top_bytes(
    alloc: Global,
    top: Option<&DirState>,
    counts: &Counts,
) -> Result<Vec<u8>, AllocError>
    ensures { IfOk result (λ text. text.items
        ≡ joined (parts_found (option_copied top.entry)) ++ done_line counts.now) }
{
    let mut out = Vec::new(alloc);
    if let Some(top) = top {
        add_parts(&mut out, top.parts.as_slice())?;
    }
    add_done(&mut out, counts)?;
    Ok(out)
}
