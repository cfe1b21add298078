//! A message of the venue, read.
ghost use Rattle.std.specs.Prelude.{◌≡◌, ◌≢◌, ◌∷◌, ℕ, List, MatchOption};
ghost use Rattle.std.specs.List.{AllByRecursion};
ghost use Rattle.fix_fields.specs.Frame.{Field, IsField, IsValue};
ghost use Rattle.wire_messages.specs.ToFirm.{VenueMessage, venue_fields};

use fix_fields::{Fields, Frame};
use std::marker::Model;

/// A message of the venue. A clause sees its header and the fields behind it.
#[derive(Debug, Drop)]
pub(crate) struct OfVenue<'a> {
    kind: &'a [u8],
    sender: &'a [u8],
    target: &'a [u8],
    number: &'a [u8],
    moment: &'a [u8],
    behind: Fields<'a>,
}

impl<'a> Model for OfVenue<'a> {
    ghost use Rattle.std.specs.List.{AllByRecursion};
    ghost use Rattle.fix_fields.specs.Frame.{IsField, IsValue};
    ghost use Rattle.wire_messages.specs.ToFirm.{VenueMessage};

    ghost Value = { VenueMessage };

    ghost view = { λ m. record {
      kind = m.kind.now;
      sender = m.sender.now;
      target = m.target.now;
      number = m.number.now;
      moment = m.moment.now;
      behind = m.behind;
    } };

    ghost invariant = { λ m. IsValue m.kind.now × IsValue m.number.now × IsValue m.moment.now
        × AllByRecursion IsField m.behind };
}

impl<'a> OfVenue<'a> {
    /// The message of a frame, where it begins with the venue's header.
    pub(crate) fn new(frame: &Frame<'a>) -> Option<OfVenue<'a>>
        ensures { MatchOption result ((m : VenueMessage) → frame.now ≢ venue_fields m)
            (λ m. frame.now ≡ venue_fields m) }
    {
        let mut behind = frame.fields();
        let kind = next_value(&mut behind, 35)?;
        let sender = next_value(&mut behind, 49)?;
        let target = next_value(&mut behind, 56)?;
        let number = next_value(&mut behind, 34)?;
        let moment = next_value(&mut behind, 52)?;
        Some(OfVenue {
            kind,
            sender,
            target,
            number,
            moment,
            behind,
        })
    }

    /// MsgType (35).
    pub(crate) fn kind(&self) -> &'a [u8]
        ensures value { result.now ≡ self.now.kind }
        ensures lawful { IsValue result.now }
    {
        self.kind
    }

    /// MsgSeqNum (34).
    pub(crate) fn number(&self) -> &'a [u8]
        ensures value { result.now ≡ self.now.number }
        ensures lawful { IsValue result.now }
    {
        self.number
    }

    /// SendingTime (52).
    pub(crate) fn moment(&self) -> &'a [u8]
        ensures value { result.now ≡ self.now.moment }
        ensures lawful { IsValue result.now }
    {
        self.moment
    }

    /// The fields behind the header.
    pub(crate) fn behind(&self) -> Fields<'a>
        ensures fields { result ≡ self.now.behind }
        ensures lawful { AllByRecursion IsField result }
    {
        self.behind.again()
    }
}

/// The value of the next field, where it has this tag.
fn next_value<'a>(fields: &mut Fields<'a>, tag: u32) -> Option<&'a [u8]>
    requires { AllByRecursion IsField fields.old }
    ensures { MatchOption result
        ((value : List ℕ) (rest : List Field) → fields.old ≢ (tag, value) ∷ rest)
        (λ value. (fields.old ≡ (tag, value.now) ∷ fields.new)
        × IsValue value.now × AllByRecursion IsField fields.new) }
{
    let Some((found, value)) = fields.next() else {
        return None;
    };
    if found != tag {
        return None;
    }
    Some(value)
}
