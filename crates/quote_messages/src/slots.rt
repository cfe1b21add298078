//! The one walk over the fields of a message.
ghost use Rattle.std.specs.Prelude.{◌≡◌, ◌≤◌, ◌<◌, length, Some, None, true, false, IsTrue};
ghost use Rattle.quote_messages.specs.SessionLines.{occurrence_of};
ghost use Rattle.quote_messages.specs.Slots.{AreFilled, place_of, is_checked, said_by, joined};

use fix_fields::{Fields, Frame, MOST_BODY};
use std::marker::Model;

/// How many slots there are: one for each tag that the tables look at, and one for all other tags.
const SLOTS: usize = 26;

/// A tag in a message: its first value, where it stands, and whether it stands more than once.
#[derive(Clone, Copy)]
pub(crate) struct Slot<'a> {
    /// The first value.
    pub(crate) first: Option<&'a [u8]>,
    /// Whether the tag stands more than once.
    pub(crate) is_repeated: bool,
}

impl<'a> Slot<'a> {
    /// A tag that does not stand.
    pub(crate) fn empty() -> Self
        ensures { result ≡ record { first = None; is_repeated = false } }
    {
        Slot {
            first: None,
            is_repeated: false,
        }
    }

    /// Notes the tag once more, with this value.
    #[inline(always)]
    pub(crate) fn note(&mut self, value: &'a [u8])
        ensures { said_by self.new ≡ joined (said_by self.old) (record {
          first = Some value.now;
          is_repeated = false;
        }) }
    {
        if self.first.is_some() {
            self.is_repeated = true;
            return;
        }
        self.first = Some(value);
    }
}

/// The fields of a message, with each tag of the tables in a slot. A clause sees the list of the
/// fields.
#[derive(Drop)]
pub(crate) struct FieldSlots<'a> {
    fields: Fields<'a>,
    slots: [Slot<'a>; SLOTS],
}

impl<'a> Model for FieldSlots<'a> {
    ghost use Rattle.std.specs.Prelude.{List, length, ◌≤◌};
    ghost use Rattle.fix_fields.specs.Frame.{Field};
    ghost use Rattle.quote_messages.specs.Slots.{AreFilled};
    ghost use Rattle.fix_fields.specs.declared.limits.TheConstants.{MOST_BODY};

    ghost Value = { List Field };

    ghost view = { λ m. m.fields };

    ghost invariant = { λ m. AreFilled m.slots m.fields × (length m.fields ≤ MOST_BODY) };
}

impl<'a> FieldSlots<'a> {
    /// The fields of a frame, gone over once.
    // Inlined, as the next function is, so that the slots are filled where they stay.
    #[inline(always)]
    pub(crate) fn of(frame: &Frame<'a>) -> Self
        ensures { result ≡ frame.now }
    {
        let fields = frame.fields();
        let slots = filled(fields.again());
        FieldSlots { fields, slots }
    }

    /// How a tag of the tables stands.
    #[inline(always)]
    pub(crate) fn at(&self, tag: u32) -> Slot<'a>
        requires { IsTrue (is_checked tag) }
        ensures { said_by result ≡ occurrence_of tag self.now }
    {
        self.slots[place_of(tag)]
    }

    /// All fields, first to last.
    pub(crate) fn fields(&self) -> Fields<'a>
        ensures all { result ≡ self.now }
        ensures few { length result ≤ MOST_BODY }
    {
        self.fields.again()
    }
}

/// The slots of fields.
#[inline(always)]
fn filled(fields: Fields<'_>) -> [Slot<'_>; SLOTS]
    ensures { AreFilled result fields.entry }
{
    let mut slots = [Slot::empty(); SLOTS];
    for (tag, value) in fields {
        let place = place_of(tag);
        slots[place].note(value);
    }
    slots
}

/// The places of the tags below 150: 25 where no table looks at the tag.
static PLACES: [u8; 150] = [
    25, 25, 25, 25, 25, 25, 25, 25, 25, 25, // 0 to 9
    25, 25, 25, 25, 25, 25, 25, 25, 25, 25, // 10 to 19
    25, 25, 9, 25, 25, 25, 25, 25, 25, 25, // 20 to 29
    25, 25, 25, 25, 5, 4, 25, 25, 20, 25, // 30 to 39
    25, 25, 25, 25, 25, 25, 25, 25, 8, 0, // 40 to 49
    3, 25, 2, 25, 19, 25, 1, 25, 25, 25, // 50 to 59
    25, 25, 15, 25, 25, 25, 25, 25, 25, 25, // 60 to 69
    25, 25, 25, 25, 25, 25, 25, 25, 25, 25, // 70 to 79
    25, 25, 25, 25, 25, 25, 25, 25, 25, 25, // 80 to 89
    25, 25, 25, 25, 25, 25, 25, 25, 25, 25, // 90 to 99
    25, 25, 25, 25, 25, 25, 25, 25, 25, 25, // 100 to 109
    25, 25, 25, 25, 25, 25, 25, 6, 25, 25, // 110 to 119
    25, 25, 25, 25, 25, 25, 21, 25, 25, 25, // 120 to 129
    25, 7, 10, 11, 12, 13, 25, 25, 25, 25, // 130 to 139
    25, 25, 25, 25, 25, 25, 18, 25, 25, 25, // 140 to 149
];

/// The place of a tag among the slots; those that no table looks at have the last one in common.
#[inline(always)]
fn place_of(tag: u32) -> usize
    ensures place { result ≡ place_of tag }
    ensures within { result < SLOTS }
{
    if tag < 150 {
        return PLACES[tag as usize] as usize;
    }
    match tag {
        298 => 16,
        453 => 22,
        537 => 14,
        658 => 17,
        693 => 23,
        694 => 24,
        _ => 25,
    }
}
