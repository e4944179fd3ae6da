//! Calls whose contracts are laws.
ghost use Rattle.ql_exec.specs.EffectLaws.{EffectLaws};

use ql_print::made_laws;
use ql_rel::form_laws;

/// What the effect of a statement keeps. The call does nothing.
pub fn effect_laws()
    ensures { EffectLaws }
{
    form_laws();
    made_laws();
}
