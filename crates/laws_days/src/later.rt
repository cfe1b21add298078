//! What was sent stays sent.
ghost use Rattle.std.specs.Prelude.{ℕ, List, ◌++◌};
ghost use Rattle.venue_rows.specs.Rows.{Configuration};
ghost use Rattle.step_replay.specs.AuditTrail as venue;
ghost use Rattle.step_replay.specs.declared.steps.Step.{Step};
ghost use Rattle.laws_days.specs.Later.{BeginsWith};

/// A longer log takes nothing back: if more steps follow, what a firm was sent before is the
/// beginning of what it is sent (`sent`), and so it is with the facts of the day (`facts`).
///
/// So a trade stands, whatever comes later (`specs/Later`).
pub fn a_longer_log_takes_nothing_back()
    ensures sent { (config : Configuration) (steps more : List Step) (firm : ℕ)
        → BeginsWith (venue.sent_to config firm (venue.audit_trail config (steps ++ more)))
        (venue.sent_to config firm (venue.audit_trail config steps)) }
    ensures facts { (config : Configuration) (steps more : List Step)
        → BeginsWith (venue.audit_trail config (steps ++ more)).facts
        (venue.audit_trail config steps).facts }
{}
