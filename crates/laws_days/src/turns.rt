//! Each message in its turn is answered.
ghost use Rattle.std.specs.Prelude.{◌≢◌, ◌⊎◌, ℕ, List, [], ◌∷◌, ◌++◌};
ghost use Rattle.venue_rows.specs.Rows.{Configuration};
ghost use Rattle.step_replay.specs.AuditTrail as venue;
ghost use Rattle.step_replay.specs.declared.steps.Step.{Step};
ghost use Rattle.step_replay.specs.declared.steps.Step.TheVariants as step;
ghost use Rattle.laws_days.specs.Answered.{Awaits, IsAnsweredOnce, numbers_used};

/// For a message that uses up a number of its firm, the firm is immediately sent exactly one
/// message, or work is left.
///
/// The work is one duty (a hit, a pass, or the drops of a cancel of all), and the firm is sent
/// nothing yet (`specs/Answered`).
///
/// It ends at: which messages use up a number ([each one that a session
/// takes](docs/PROOFS.md#between-the-wire-and-the-venue) does); what the one message says, which
/// is the desk's definition; what a hit, a pass and a drop lead to.
pub fn each_message_in_its_turn_is_answered()
    ensures { (config : Configuration) (steps : List Step) (firm moment : ℕ) (bytes : List ℕ)
        → numbers_used config firm
        (venue.audit_trail config (steps ++ step.In firm moment bytes ∷ []))
        ≢ numbers_used config firm (venue.audit_trail config steps)
        → IsAnsweredOnce config firm (venue.audit_trail config steps)
        (venue.audit_trail config (steps ++ step.In firm moment bytes ∷ []))
        ⊎ Awaits config firm (venue.audit_trail config steps)
        (venue.audit_trail config (steps ++ step.In firm moment bytes ∷ [])) }
{}
