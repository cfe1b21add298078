//! What the venue sends.
ghost use Rattle.std.specs.Prelude.{◌≡◌, ℕ, List, Option, Some, false};
ghost use Rattle.fix_fields.specs.Frame.{Field, frame_of, value_of};
ghost use Rattle.laws_wire.specs.VenueMessages.{IsWritten, venue_types};
ghost use Rattle.laws_sessions.specs.Kept.{is_answer_body};
ghost use Rattle.step_replay.specs.AuditTrail as venue;
ghost use Rattle.step_replay.specs.Lists.{In};
ghost use Rattle.step_replay.specs.declared.steps.Step.{Step};
ghost use Rattle.venue_rows.specs.Rows.{Configuration};
ghost use Rattle.laws_wire.specs.Carried.{IsMade};

/// Each message that a firm is sent is one that the venue writes (`written`), whoever reads it
/// reads one of its types (`typed`), and what the wire makes of it is no 35=0, so that no gap fill
/// may cover it (`kept`).
///
/// The types (35) are 3, R, S, AG, AI and AJ.
pub fn each_message_is_of_a_type_of_the_venue()
    ensures written { (config : Configuration) (steps : List Step) (firm : ℕ) (bytes : List ℕ)
        → In bytes (venue.sent_to config firm (venue.audit_trail config steps))
        → IsWritten bytes }
    ensures typed { (config : Configuration) (steps : List Step) (firm : ℕ) (bytes : List ℕ)
        (fields : List Field)
        → In bytes (venue.sent_to config firm (venue.audit_trail config steps))
        → frame_of bytes ≡ Some fields
        → (kind : List ℕ) × (value_of 35 fields ≡ Some kind) × In kind venue_types }
    ensures kept { (config : Configuration) (steps : List Step) (firm : ℕ) (bytes : List ℕ)
        (number : ℕ) (told : Option Field) (body : List Field)
        → In bytes (venue.sent_to config firm (venue.audit_trail config steps))
        → IsMade bytes number told body → is_answer_body body ≡ false }
{}
