//! Laws of streams that are cut into messages: each function does nothing, and its clauses hold of
//! every list.
ghost use Rattle.std.specs.Prelude.{◌≡◌, ◌↔◌, ℕ, [], ◌++◌, List, Ok, Err};
ghost use Rattle.std.specs.List.{AllByRecursion, concat};
ghost use Rattle.fix_fields.specs.Frame.{Field, IsFrame};
ghost use Rattle.fix_fields.specs.Envelope.{IsEnvelope, BeginsWithEnvelope, IsStreamFault};
ghost use Rattle.fix_fields.specs.Envelope.{Cutting, IsCutting, cut_behind, uncut};
ghost use Rattle.fix_fields.specs.Envelope.{envelopes_of, envelopes_of_pieces};
ghost use Rattle.fix_fields.specs.declared.fault.StreamFault.{StreamFault};

/// `envelopes_of` is the one way of cutting a stream: whole messages, one behind the other, and a
/// rest that begins with no whole message, with the fault that it has.
pub fn envelopes_of_is_the_cutting()
    ensures { (stream : List ℕ) (cutting : Cutting) →
        (envelopes_of stream ≡ cutting) ↔ IsCutting stream cutting }
{}

/// However a stream is cut into pieces, the same messages come out of it, and the same rest.
pub fn pieces_make_no_difference()
    // One piece more adds to what the stream was cut into.
    ensures more { (stream piece : List ℕ) → let before = envelopes_of stream in
        let now = cut_behind before.rest piece in
        envelopes_of (stream ++ piece)
        ≡ record { messages = before.messages ++ now.messages; rest = now.rest } }

    // All pieces together are cut as the stream that they are.
    ensures whole { (pieces : List (List ℕ)) →
        envelopes_of_pieces uncut pieces ≡ envelopes_of (concat pieces) }
    ensures same { (pieces others : List (List ℕ)) → concat pieces ≡ concat others →
        envelopes_of_pieces uncut pieces ≡ envelopes_of_pieces uncut others }
{}

/// Bytes have one fault, and none that begin with a whole message; no further bytes turn bytes with
/// a fault into some that do, nor take the fault away, nor end a message behind it.
pub fn stream_faults_are_for_ever()
    ensures one { (fault other : StreamFault) (bytes : List ℕ) →
        IsStreamFault fault bytes → IsStreamFault other bytes → fault ≡ other }
    ensures never { (fault : StreamFault) (bytes more : List ℕ) →
        IsStreamFault fault bytes → ¬ BeginsWithEnvelope (bytes ++ more) }
    ensures for_ever { (fault : StreamFault) (bytes more : List ℕ) →
        IsStreamFault fault bytes → IsStreamFault fault (bytes ++ more) }
    ensures stands { (fault : StreamFault) (piece : List ℕ) →
        cut_behind (Err fault) piece ≡ record { messages = []; rest = Err fault } }
{}

/// A frame is cut whole: what a stream of frames is cut into are these frames.
pub fn frames_are_cut()
    ensures frame { (bytes : List ℕ) (fields : List Field) →
        IsFrame bytes fields → IsEnvelope bytes }
    ensures stream { (messages : List (List ℕ)) → AllByRecursion IsEnvelope messages →
        envelopes_of (concat messages) ≡ record { messages = messages; rest = Ok [] } }
{}
