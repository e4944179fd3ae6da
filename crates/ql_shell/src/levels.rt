//! Levels that open and close, and statements inside them.
ghost use Rattle.std.specs.Prelude.{◌≡◌, [], Some, ◌+◌, ◌^◌, ◌<◌, ◌≤◌, ◌++◌, ◌&&◌, ◌==◌, IsTrue, length, drop, IfOk, OnOk};
ghost use Rattle.ql_edge.specs.Frame.{Keeps};
ghost use Rattle.ql_syntax.specs.ReadsBack.{IsReadBack};
ghost use Rattle.ql_rel.specs.declared.db.Db.{Db};
ghost use Rattle.ql_rel.specs.Sessions.{State, begins, carries, closed, commit_line, needs_level, rolls_back};
ghost use Rattle.ql_shell.specs.Goings.{Closes, Goes, IsCausedStep, KeepsBelow, LeavesRest, MayGoOn, ShowsLine, Stands};

use crate::fault::StepFault;
use ql_edge::{Bytes, NoMemory, show_all};
use ql_exec::exec;
use ql_rel::Rel;
use ql_syntax::Statement;
use ql_value::{Kind, Refusal, Value, print_value};
use std::alloc::Global;

/// How many levels may be open.
const MOST_LEVELS: u32 = 256;

/// No level is open that the script opened.
pub const NO_TRANSACTION: u8 = 40;

/// One level too many.
pub const TOO_DEEP: u8 = 41;

/// A level is open at the end that the script opened.
pub const UNBALANCED: u8 = 42;

/// Opens a level.
pub fn begin<R: Rel>(alloc: Global, rel: &mut R) -> Result<(), StepFault>
    requires ready { IsTrue (R.is_ready rel.old) }
    ensures done { (st : State) → Stands (R.db rel.old) (R.saved rel.old) st
        → Goes st.kept (begins st) result (R.told rel.old) (R.told rel.new) (R.db rel.new)
        (R.saved rel.new) }
    ensures ready { R.is_ready rel.new ≡ R.is_ready rel.old }
    ensures deeper { length (R.saved rel.old) ≤ length (R.saved rel.new) }
    ensures leaves { LeavesRest R.limit R.left R.fixed rel.old rel.new }
    ensures cause { IsCausedStep (R.limit rel.old) (R.db rel.old) result (R.faults rel.old)
        (R.faults rel.new) }
{
    if rel.depth() >= MOST_LEVELS {
        return Err(StepFault::Refused(Refusal::new(alloc, TOO_DEEP)));
    }
    rel.begin()?;
    Ok(())
}

/// Takes up the database that the last level saved.
pub fn roll_back<R: Rel>(alloc: Global, rel: &mut R, base: u32) -> Result<(), StepFault>
    requires on { MayGoOn (R.is_ready rel.old) (R.saved rel.old) base }
    ensures done { (st : State) → Stands (R.db rel.old) (R.saved rel.old) st → base ≡ st.base
        → Goes st.kept (rolls_back st) result (R.told rel.old) (R.told rel.new) (R.db rel.new)
        (R.saved rel.new) }
    ensures on { OnOk result (MayGoOn (R.is_ready rel.new) (R.saved rel.new) base) }
    ensures leaves { LeavesRest R.limit R.left R.fixed rel.old rel.new }
    ensures cause { IsCausedStep (R.limit rel.old) (R.db rel.old) result (R.faults rel.old)
        (R.faults rel.new) }
{
    if rel.depth() <= base {
        return Err(StepFault::Refused(Refusal::new(alloc, NO_TRANSACTION)));
    }
    rel.rollback();
    Ok(())
}

/// Whether a statement is carried out inside a level alone.
fn needs_level(statement: &Statement) -> bool
    ensures { result ≡ needs_level statement.now }
{
    match statement {
        Statement::Query(_) => false,
        Statement::Begin
        | Statement::Commit
        | Statement::Rollback
        | Statement::CreateTable { .. }
        | Statement::DropTable { .. }
        | Statement::AddColumn { .. }
        | Statement::DropColumn { .. }
        | Statement::CreateIndex { .. }
        | Statement::DropIndex { .. }
        | Statement::Insert { .. }
        | Statement::Update { .. }
        | Statement::Delete { .. }
        | Statement::Truncate { .. } => true,
    }
}

/// Whether a statement is carried out inside a level alone, and none is open.
fn lacks_level(statement: &Statement, depth: u32) -> bool
    ensures { result ≡ (needs_level statement.now && (depth == 0)) }
{
    needs_level(statement) && depth == 0
}

/// Adds the line of an outermost commit.
fn add_commit_line(number: u64, out: &mut Bytes) -> Result<(), NoMemory>
    ensures { OnOk result (out.new ≡ out.old ++ commit_line number) }
{
    out.extend(b"COMMIT ")?;
    print_value(&Value::Int(Kind::Uint64, number as i128), out)?;
    out.extend(b"\n")?;
    Ok(())
}

/// Shows the line of an outermost commit.
fn show_commit<R: Rel>(alloc: Global, rel: &mut R, number: u64) -> Result<(), StepFault>
    ensures shown { ShowsLine (commit_line number) result (R.told rel.old) (R.told rel.new) }
    ensures same { R.same rel.old rel.new }
    ensures frame { Keeps R.left R.fixed rel.old rel.new }
    ensures cause { IsCausedStep (R.limit rel.old) (R.db rel.old) result (R.faults rel.old)
        (R.faults rel.new) }
{
    let mut line = Bytes::new(alloc);
    add_commit_line(number, &mut line)?;
    show_all(rel, line.as_slice())?;
    Ok(())
}

/// Closes a level, and answers how many outermost commits there were. The end of the outermost level is a commit, whose line
/// is shown where that is asked for.
pub fn close<R: Rel>(alloc: Global, rel: &mut R, commits: u64, ack: bool) -> Result<u64, StepFault>
    requires ready { IsTrue (R.is_ready rel.old) }
    requires level { 0 < length (R.saved rel.old) }
    requires counted { commits + 1 < 2 ^ 64 }
    ensures done { (st : State) → Stands (R.db rel.old) (R.saved rel.old) st
        → commits ≡ st.commits → Closes (closed ack (drop 1 st.saved) st) result (R.told rel.old)
        (R.told rel.new) (R.db rel.new) (R.saved rel.new) }
    ensures counts { IfOk result (λ n. n ≤ commits + 1) }
    ensures ready { OnOk result (R.is_ready rel.new ≡ R.is_ready rel.old) }
    ensures ended { OnOk result (R.saved rel.new ≡ drop 1 (R.saved rel.old)) }
    ensures leaves { LeavesRest R.limit R.left R.fixed rel.old rel.new }
    ensures cause { IsCausedStep (R.limit rel.old) (R.db rel.old) result (R.faults rel.old)
        (R.faults rel.new) }
{
    let outermost = rel.depth() == 1;
    rel.commit()?;
    if !outermost {
        return Ok(commits);
    }
    let commits = commits + 1;
    if ack {
        show_commit(alloc, rel, commits)?;
    }
    Ok(commits)
}

/// Carries out a statement on tables, and shows its text.
pub fn carry_out<R: Rel>(
    alloc: Global,
    rel: &mut R,
    statement: &Statement,
    with_names: bool,
) -> Result<(), StepFault>
    requires ready { IsTrue (R.is_ready rel.old) }
    requires read { IsReadBack statement.now }
    ensures done { (st : State) → Stands (R.db rel.old) (R.saved rel.old) st
        → Goes st.kept (carries with_names statement.now st) result (R.told rel.old) (R.told rel.new)
        (R.db rel.new) (R.saved rel.new) }
    ensures ready { OnOk result (R.is_ready rel.new ≡ R.is_ready rel.old) }
    ensures saved { R.saved rel.new ≡ R.saved rel.old }
    ensures leaves { LeavesRest R.limit R.left R.fixed rel.old rel.new }
    ensures cause { IsCausedStep (R.limit rel.old) (R.db rel.old) result (R.faults rel.old)
        (R.faults rel.new) }
{
    if lacks_level(statement, rel.depth()) {
        return Err(StepFault::Refused(Refusal::new(alloc, NO_TRANSACTION)));
    }
    let mut text = Bytes::new(alloc);
    exec(alloc, rel, statement, with_names, &mut text)?;
    show_all(rel, text.as_slice())?;
    Ok(())
}

/// Closes all levels: the database is that of the last outermost commit. It takes no memory.
pub fn roll_back_all<R: Rel>(rel: &mut R)
    ensures db { (kept : Db) → KeepsBelow kept (R.db rel.old) (R.saved rel.old)
        → R.db rel.new ≡ Some kept }
    ensures saved { R.saved rel.new ≡ [] }
    ensures told { R.told rel.new ≡ R.told rel.old }
    ensures leaves { LeavesRest R.limit R.left R.fixed rel.old rel.new }
    ensures faults { R.faults rel.new ≡ R.faults rel.old }
{
    'levels: while rel.depth() > 0 {
        rel.rollback();
    }
}
