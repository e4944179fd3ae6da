//! A script, carried out statement by statement on any tables.
ghost use Rattle.std.specs.Prelude.{◌≡◌, [], ◌+◌, ◌^◌, ◌<◌, ◌≤◌, Bool, IsTrue, length, if◌then◌else◌, Some, IfErr, OnOk, OnErr};
ghost use Rattle.lldb_base.specs.declared.trouble.Trouble.TheVariants as trouble;
ghost use Rattle.ql_syntax.specs.ReadsBack.{IsReadBack};
ghost use Rattle.ql_rel.specs.declared.db.Db.{Db};
ghost use Rattle.ql_rel.specs.Sessions.{State, closes, finished, opened, stepped};
ghost use Rattle.ql_shell.specs.Goings.{IsAt, IsCausedStep, Ends, LeavesRest, MayGoOn, Moves};
ghost use Rattle.ql_shell.specs.declared.fault.StepFault.TheVariants as step;

use crate::fault::StepFault;
use crate::levels::{
    NO_TRANSACTION, UNBALANCED, begin, carry_out, close, roll_back, roll_back_all,
};
use ql_rel::Rel;
use ql_syntax::Statement;
use ql_value::Refusal;
use std::alloc::Global;

/// A script that is carried out on tables. It warns nothing.
///
/// `start` is called once, before any `step` and before `finish`. After a refusal, and after `finish`, only `into_rel` may be
/// called; no level is open then.
#[derive(Drop)]
pub struct Session<R: Rel> {
    alloc: Global,
    rel: R,
    /// How many levels opened by themselves.
    base: u32,
    /// How many outermost commits there were.
    commits: u64,
    /// Whether each outermost commit is shown.
    ack: bool,
    with_names: bool,
}

impl<R: Rel> Session<R> {
    /// A session that is not started. `bare` leaves out the level that opens by itself, `ack` shows each outermost commit,
    /// and `with_names` begins the text of a SELECT with the names of its fields.
    pub fn new(alloc: Global, rel: R, bare: bool, ack: bool, with_names: bool) -> Session<R>
        requires { R.saved rel ≡ [] }
        ensures rel { result.rel ≡ rel }
        ensures base { result.base ≡ (if bare then 0 else 1) }
        ensures commits { result.commits ≡ 0 }
        ensures ack { result.ack ≡ ack }
        ensures with_names { result.with_names ≡ with_names }
    {
        Session {
            alloc,
            rel,
            base: if bare { 0 } else { 1 },
            commits: 0,
            ack,
            with_names,
        }
    }

    /// Opens the level that opens by itself, unless the session is bare.
    pub fn start(&mut self) -> Result<(), StepFault>
        requires ready { IsTrue (R.is_ready self.old.rel) }
        requires closed { R.saved self.old.rel ≡ [] }
        requires first { self.old.commits ≡ 0 }
        requires base { self.old.base ≤ 1 }
        ensures begun { OnOk result ((bare : Bool) (d : Db)
            → self.old.base ≡ (if bare then 0 else 1) → R.db self.old.rel ≡ Some d
            → IsAt (R.db self.new.rel) (R.saved self.new.rel) self.new.commits self.new.base
            (opened bare d)) }
        ensures on { OnOk result (MayGoOn (R.is_ready self.new.rel) (R.saved self.new.rel)
            self.new.base) }
        ensures only { IfErr result (λ f. f ≡ step.Trouble trouble.NoMemory) }
        ensures kept { OnErr result (R.saved self.new.rel ≡ []) }
        ensures told { R.told self.new.rel ≡ R.told self.old.rel }
        ensures commits { self.new.commits ≡ self.old.commits }
        ensures base { self.new.base ≡ self.old.base }
        ensures ack { self.new.ack ≡ self.old.ack }
        ensures with_names { self.new.with_names ≡ self.old.with_names }
        ensures leaves { LeavesRest R.limit R.left R.fixed self.old.rel self.new.rel }
        ensures faults { R.faults self.new.rel ≡ R.faults self.old.rel }
    {
        if self.base > 0 {
            self.rel.begin()?;
        }
        Ok(())
    }

    /// COMMIT.
    fn commit(&mut self) -> Result<(), StepFault>
        requires on { MayGoOn (R.is_ready self.old.rel) (R.saved self.old.rel) self.old.base }
        requires counted { self.old.commits + 1 < 2 ^ 64 }
        ensures done { (st : State) → IsAt (R.db self.old.rel) (R.saved self.old.rel)
            self.old.commits self.old.base st → Moves (closes self.old.ack st) st result
            (R.told self.old.rel) (R.told self.new.rel) (R.db self.new.rel)
            (R.saved self.new.rel) self.new.commits self.new.base }
        ensures on { OnOk result (MayGoOn (R.is_ready self.new.rel) (R.saved self.new.rel)
            self.new.base) }
        ensures counts { self.new.commits ≤ self.old.commits + 1 }
        ensures base { self.new.base ≡ self.old.base }
        ensures ack { self.new.ack ≡ self.old.ack }
        ensures with_names { self.new.with_names ≡ self.old.with_names }
        ensures leaves { LeavesRest R.limit R.left R.fixed self.old.rel self.new.rel }
        ensures cause { IsCausedStep (R.limit self.old.rel) (R.db self.old.rel) result
            (R.faults self.old.rel) (R.faults self.new.rel) }
    {
        if self.rel.depth() <= self.base {
            return Err(StepFault::Refused(Refusal::new(self.alloc, NO_TRANSACTION)));
        }
        self.commits = close(self.alloc, &mut self.rel, self.commits, self.ack)?;
        Ok(())
    }

    /// Carries out a statement. After a refusal levels may be open.
    fn advance(&mut self, statement: &Statement) -> Result<(), StepFault>
        requires on { MayGoOn (R.is_ready self.old.rel) (R.saved self.old.rel) self.old.base }
        requires counted { self.old.commits + 1 < 2 ^ 64 }
        requires read { IsReadBack statement.now }
        ensures done { (st : State) → IsAt (R.db self.old.rel) (R.saved self.old.rel)
            self.old.commits self.old.base st → Moves (stepped self.old.with_names self.old.ack
            statement.now st) st result (R.told self.old.rel) (R.told self.new.rel)
            (R.db self.new.rel) (R.saved self.new.rel) self.new.commits self.new.base }
        ensures on { OnOk result (MayGoOn (R.is_ready self.new.rel) (R.saved self.new.rel)
            self.new.base) }
        ensures counts { self.new.commits ≤ self.old.commits + 1 }
        ensures base { self.new.base ≡ self.old.base }
        ensures ack { self.new.ack ≡ self.old.ack }
        ensures with_names { self.new.with_names ≡ self.old.with_names }
        ensures leaves { LeavesRest R.limit R.left R.fixed self.old.rel self.new.rel }
        ensures cause { IsCausedStep (R.limit self.old.rel) (R.db self.old.rel) result
            (R.faults self.old.rel) (R.faults self.new.rel) }
    {
        match statement {
            Statement::Begin => begin(self.alloc, &mut self.rel),
            Statement::Commit => self.commit(),
            Statement::Rollback => roll_back(self.alloc, &mut self.rel, self.base),
            _ => carry_out(self.alloc, &mut self.rel, statement, self.with_names),
        }
    }

    /// Carries out a statement, shows its text, and then the line of an outermost commit where that is asked for.
    pub fn step(&mut self, statement: &Statement) -> Result<(), StepFault>
        requires on { MayGoOn (R.is_ready self.old.rel) (R.saved self.old.rel) self.old.base }
        requires counted { self.old.commits + 1 < 2 ^ 64 }
        requires read { IsReadBack statement.now }

        // Where the session stands at a state, the statement does what its step does, or has its refusal.
        ensures done { (st : State) → IsAt (R.db self.old.rel) (R.saved self.old.rel)
            self.old.commits self.old.base st → Ends (stepped self.old.with_names self.old.ack
            statement.now st) st result (R.told self.old.rel) (R.told self.new.rel)
            (R.db self.new.rel) (R.saved self.new.rel) self.new.commits self.new.base }

        // After a refusal no level is open.
        ensures closed { OnErr result (R.saved self.new.rel ≡ []) }
        ensures on { OnOk result (MayGoOn (R.is_ready self.new.rel) (R.saved self.new.rel)
            self.new.base) }
        ensures counts { self.new.commits ≤ self.old.commits + 1 }
        ensures base { self.new.base ≡ self.old.base }
        ensures ack { self.new.ack ≡ self.old.ack }
        ensures with_names { self.new.with_names ≡ self.old.with_names }
        ensures leaves { LeavesRest R.limit R.left R.fixed self.old.rel self.new.rel }
        ensures cause { IsCausedStep (R.limit self.old.rel) (R.db self.old.rel) result
            (R.faults self.old.rel) (R.faults self.new.rel) }
    {
        match self.advance(statement) {
            Ok(()) => Ok(()),
            Err(fault) => {
                roll_back_all(&mut self.rel);
                Err(fault)
            }
        }
    }

    /// The end of the script: closes the level that opened by itself.
    pub fn finish(&mut self) -> Result<(), StepFault>
        requires on { MayGoOn (R.is_ready self.old.rel) (R.saved self.old.rel) self.old.base }
        requires counted { self.old.commits + 1 < 2 ^ 64 }
        ensures done { (st : State) → IsAt (R.db self.old.rel) (R.saved self.old.rel)
            self.old.commits self.old.base st → Ends (finished self.old.ack st) st result
            (R.told self.old.rel) (R.told self.new.rel) (R.db self.new.rel)
            (R.saved self.new.rel) self.new.commits self.new.base }
        ensures closed { R.saved self.new.rel ≡ [] }
        ensures leaves { LeavesRest R.limit R.left R.fixed self.old.rel self.new.rel }
        ensures cause { IsCausedStep (R.limit self.old.rel) (R.db self.old.rel) result
            (R.faults self.old.rel) (R.faults self.new.rel) }
    {
        match self.end() {
            Ok(()) => Ok(()),
            Err(fault) => {
                roll_back_all(&mut self.rel);
                Err(fault)
            }
        }
    }

    /// The tables, as the session left them.
    pub fn into_rel(self) -> R
        ensures { result ≡ self.rel }
    {
        self.rel
    }

    /// Closes the level that opened by itself. After a refusal levels may be open.
    fn end(&mut self) -> Result<(), StepFault>
        requires on { MayGoOn (R.is_ready self.old.rel) (R.saved self.old.rel) self.old.base }
        requires counted { self.old.commits + 1 < 2 ^ 64 }
        ensures done { (st : State) → IsAt (R.db self.old.rel) (R.saved self.old.rel)
            self.old.commits self.old.base st → Moves (finished self.old.ack st) st result
            (R.told self.old.rel) (R.told self.new.rel) (R.db self.new.rel)
            (R.saved self.new.rel) self.new.commits self.new.base }
        ensures closed { OnOk result (R.saved self.new.rel ≡ []) }
        ensures leaves { LeavesRest R.limit R.left R.fixed self.old.rel self.new.rel }
        ensures cause { IsCausedStep (R.limit self.old.rel) (R.db self.old.rel) result
            (R.faults self.old.rel) (R.faults self.new.rel) }
    {
        if self.rel.depth() > self.base {
            return Err(StepFault::Refused(Refusal::new(self.alloc, UNBALANCED)));
        }
        if self.base > 0 {
            self.commits = close(self.alloc, &mut self.rel, self.commits, self.ack)?;
        }
        Ok(())
    }
}
