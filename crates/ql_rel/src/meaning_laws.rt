//! Laws of events, of plans and of sessions.
ghost use Rattle.ql_rel.specs.EventLaws.{EventLaws};
ghost use Rattle.ql_rel.specs.PlanLaws.{PlanLaws};
ghost use Rattle.ql_rel.specs.SessionLaws.{SessionLaws};

/// What holds of the text, the commits and their places in every list of events. The call does nothing.
pub fn event_laws()
    ensures { EventLaws }
{}

/// What the plan of CREATE TABLE promises. The call does nothing.
pub fn plan_laws()
    ensures { PlanLaws }
{}

/// What holds of levels in every script. The call does nothing.
pub fn session_laws()
    ensures { SessionLaws }
{}
