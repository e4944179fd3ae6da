//! Calls whose contracts are laws.
ghost use Rattle.ql_rel.specs.ChangeLaws.{ChangeLaws};
ghost use Rattle.ql_rel.specs.FormLaws.{FormLaws};

/// What every change of rows keeps. The call does nothing.
pub fn change_laws()
    ensures { ChangeLaws }
{}

/// What keeps a database well formed. The call does nothing.
pub fn form_laws()
    ensures { FormLaws }
{}
