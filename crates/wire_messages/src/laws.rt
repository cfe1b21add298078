//! Laws of the definitions: each function does nothing, and its clauses hold of every message.
ghost use Rattle.std.specs.Prelude.{◌≡◌, ℕ, List, ◌∷◌, Option, Some, false, decimal, map};
ghost use Rattle.std.specs.Option.{option_map};
ghost use Rattle.fix_fields.specs.Frame.{Field, value_of};
ghost use Rattle.wire_messages.specs.ToFirm.{IsTold, VenueMessage, has_added, referred, to_firm, without_added};
ghost use Rattle.wire_messages.specs.ToVenue.{cut_to_milliseconds, has_tag, to_venue, unnamed};

/// On the wire a message of the venue, without what was added, is the venue's again if it has none
/// of the added fields itself: in order, with every byte, except 45 of a Reject, which is the
/// session's (`message`, `unreferred`).
///
/// What stood in 34 stands in 1181 (`number`), and what stood in 52 in 60 (`moment`).
pub fn the_wire_reads_back()
    ensures message { (reference : ℕ) (told : Option Field) (m : VenueMessage) → IsTold told
        → has_added told m.behind ≡ false
        → without_added told (to_firm reference told m)
        ≡ (35, m.kind) ∷ map (referred m.kind reference) m.behind }
    ensures number { (reference : ℕ) (told : Option Field) (m : VenueMessage)
        → value_of 1181 (to_firm reference told m) ≡ Some m.number }
    ensures moment { (reference : ℕ) (told : Option Field) (m : VenueMessage)
        → has_added told m.behind ≡ false → value_of 60 (to_firm reference told m) ≡ Some m.moment }
    ensures unreferred { (kind : List ℕ) (fields : List Field)
        → map (referred kind 0) fields ≡ fields }
{}

/// Two messages of the venue that have none of the added fields, and are one on the wire, are one,
/// except for 45 of a Reject and the names in 49 and 56.
pub fn the_wire_tells_messages_apart()
    ensures { (reference : ℕ) (told : Option Field) (m other : VenueMessage) → IsTold told
        → has_added told m.behind ≡ false → has_added told other.behind ≡ false
        → to_firm reference told m ≡ to_firm reference told other
        → (m.kind ≡ other.kind) × (m.number ≡ other.number) × (m.moment ≡ other.moment)
        × (map (referred m.kind reference) m.behind
        ≡ map (referred other.kind reference) other.behind) }
{}

/// The venue is given the fields of a firm's message, byte for byte and in order (`rest`), except
/// 34, which is the venue's count (`number`), 52, which is cut to milliseconds (`moment`), and 43,
/// 97 and 122, which are left out (`left_out`).
pub fn the_rest_is_the_firms()
    ensures rest { (number : ℕ) (fields : List Field)
        → unnamed (to_venue number fields) ≡ unnamed fields }
    ensures number { (number : ℕ) (fields : List Field) → value_of 34 (to_venue number fields)
        ≡ option_map (λ _. decimal number) (value_of 34 fields) }
    ensures moment { (number : ℕ) (fields : List Field) → value_of 52 (to_venue number fields)
        ≡ option_map cut_to_milliseconds (value_of 52 fields) }
    ensures left_out { (number : ℕ) (fields : List Field)
        → (has_tag 43 (to_venue number fields) ≡ false)
        × (has_tag 97 (to_venue number fields) ≡ false)
        × (has_tag 122 (to_venue number fields) ≡ false) }
{}
