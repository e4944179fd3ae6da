//! A statement, from its tree to what it does.

ghost use Rattle.std.specs.Prelude.{◌≡◌, IsTrue, length, IfSome, OnOk, OnErr};
ghost use Rattle.ql_syntax.specs.ReadsBack.{IsReadBack};
ghost use Rattle.ql_rel.specs.StatementEffects.{statement_effect};
ghost use Rattle.ql_exec.specs.Carries.{Does, IsCausedExec, Leaves, StaysLawful};
ghost use Rattle.ql_exec.specs.Depths.{IsDeepEnough, LeavesDb};

use crate::ExecFault;
use crate::fault::fault_of_check;
use crate::laws::effect_laws;
use crate::statement::carry;
use ql_check::check;
use ql_edge::Bytes;
use ql_rel::Rel;
use ql_syntax::Statement;
use std::alloc::Global;

/// Checks a statement and carries it out: its text is added behind what is there, where the truth says so with the names of
/// its fields. After a refusal the text is as before, and the database is open to anything until the level is rolled back.
pub fn exec<R: Rel>(
    alloc: Global,
    rel: &mut R,
    statement: &Statement,
    with_names: bool,
    out: &mut Bytes,
) -> Result<(), ExecFault>
    requires ready { IsTrue (R.is_ready rel.old) }
    requires level { IsDeepEnough statement.now (length (R.saved rel.old)) }
    requires read { IsReadBack statement.now }

    // Where the database is told, the statement does what its effect is, or has its refusal.
    ensures done { IfSome (R.db rel.old) (λ d. Does (statement_effect with_names statement.now d)
        result out.old out.new (R.db rel.new)) }
    ensures lawful { StaysLawful (R.db rel.old) result (R.db rel.new) }
    ensures alone { LeavesDb statement.now (R.db rel.old) (R.db rel.new) }
    ensures kept { OnErr result (out.new ≡ out.old) }
    ensures ready { OnOk result (R.is_ready rel.new ≡ R.is_ready rel.old) }
    ensures leaves { Leaves R.saved R.limit R.told R.left R.fixed rel.old rel.new }
    ensures cause { IsCausedExec (R.limit rel.old) (R.db rel.old) result (R.faults rel.old)
        (R.faults rel.new) }
{
    effect_laws();
    match check(alloc, statement, rel.schema()) {
        Ok(plan) => carry(alloc, rel, with_names, statement, &plan, out),
        Err(fault) => Err(fault_of_check(fault)),
    }
}
