//! What holds of a start after every list of events.
ghost use Rattle.std.specs.Prelude.{◌≡◌, ◌≢◌, ◌≤◌, ◌<◌, ◌+◌, ◌++◌, ◌∷◌, Bool, ℕ, true, false, List, Some};
ghost use Rattle.fix_fields.specs.Frame.{value_of};
ghost use Rattle.fix_fields.specs.UtcTimestamp.{timestamp_text};
ghost use Rattle.fix_sessions.specs.Steps.{given};
ghost use Rattle.fix_sessions.specs.Written.{said_fields};
ghost use Rattle.fix_sessions.specs.declared.texts.Names.{Names};
ghost use Rattle.fix_sessions.specs.declared.turns.Said.{Said};
ghost use Rattle.fix_sessions.specs.declared.turns.Stored.{Stored};
ghost use Rattle.session_recovery.specs.Recovered.{Kept, Message, Point, Sealed, gives_all, kept_reject, reads_all, start};
ghost use Rattle.session_recovery.specs.declared.notes.NoteKind.TheVariants as kind;
ghost use Rattle.laws_sessions.specs.Agrees.{Agrees, with_more};
ghost use Rattle.laws_sessions.specs.Counts.{AreFrom, AreRising, last_from};
ghost use Rattle.laws_sessions.specs.Handed.{AreBelow, Denies, IsDeniedBelow, IsHanded, MakesGap, is_heartbeat};
ghost use Rattle.laws_sessions.specs.Leaves.{AllKeepAnswers, AreUncommitted, AreWithoutResets, IsNth, MayAnswer, MayLeave};
ghost use Rattle.laws_sessions.specs.Left.{AreKeeping, AreLater, IsKept, is_reset, lost, lost_taken};
ghost use Rattle.laws_sessions.specs.Memory.{AreSound, Event, Handed, Memory, Step, Told, fresh, memory_after, memory_after_all, puts_all, tells_all, turn};
ghost use Rattle.laws_sessions.specs.Starts.{Act, AreSoundActs, IsReadable, IsRecovered, Stops, World, all_taken, first_world, found, world_after, world_after_all};
ghost use Rattle.laws_sessions.specs.Times.{HasTime, is_again, later_of};
ghost use Rattle.laws_sessions.specs.Used.{AreUsed, IsAbove};

/// With more notes, and more that the venue gave, a start goes on from where fewer end. So a
/// follower that reads the notes batch by batch has what a start has of them.
///
/// It ends at: the firm's entries, which a start counts last.
pub fn a_start_is_a_fold()
    ensures { (p q : Point) (notes later : List Sealed) (more : List Message)
        → reads_all (Some p) notes ≡ Some q
        → reads_all (Some (with_more p more)) (notes ++ later)
        ≡ reads_all (Some (with_more q more)) later }
{}

/// A start recovers the session: what the gateway has in memory follows from the notes that were
/// made and are not lost, and from what the session was told (`always`).
///
/// Of one gateway without a database, `in_one_life` says it. What is recovered is how often, behind
/// which place and by which act the session was reset, how many messages of the venue it was given,
/// with their hash, its day, and whatever is kept, by number, body and moment. A start refuses no
/// note of what it finds (`readable`).
///
/// It ends at: whether the venue is open, whether the firm is suspended, whether a message is
/// taken; a waiting answer to a TestRequest; `expected` and `had`, which may be lower than in
/// memory (but what is recovered has run out of numbers exactly if what is in memory has).
pub fn recovered_is_the_session()
    ensures in_one_life { (names : Names) (steps : List Step)
        → AreSound names fresh steps
        → (p : Point)
        × (reads_all (Some (start (tells_all steps))) (puts_all names fresh steps) ≡ Some p)
        × Agrees p (memory_after_all names fresh steps) }
    ensures always { (names : Names) (acts : List Act) (w : World)
        → AreSoundActs names (Some first_world) acts
        → world_after_all names (Some first_world) acts ≡ Some w
        → IsRecovered w }
    ensures readable { (names : Names) (acts : List Act) (w : World) (is_there : Bool)
        → AreSoundActs names (Some first_world) acts
        → world_after_all names (Some first_world) acts ≡ Some w
        → IsReadable (found w.disk w.flight is_there) }
{}

/// Under one number one message of the venue may leave, now and later, until a reset is carried out
/// (`one`).
///
/// Of any notes that a start does not refuse: a number that a note of this epoch names is not free
/// (`used`), these numbers rise, but for 1 (`rise`), and no message of the venue is kept under one
/// of them (`apart`).
pub fn numbers_leave_once()
    ensures used { (given : List Message) (notes : List Sealed) (p : Point)
        → reads_all (Some (start given)) notes ≡ Some p
        → AreUsed (gives_all p p.rest).session notes }
    ensures rise { (given : List Message) (before after : List Sealed) (s : Sealed) (p : Point)
        → reads_all (Some (start given)) (before ++ (s ∷ after)) ≡ Some p
        → IsAbove s.note before }
    ensures apart { (given : List Message) (before after : List Sealed) (s : Sealed) (p : Point) (x : Kept)
        → reads_all (Some (start given)) (before ++ (s ∷ after)) ≡ Some p
        → s.note.epoch ≡ (gives_all p p.rest).session.epoch
        → IsKept x (gives_all p p.rest).kept
        → 1 ≤ x.ordinal
        → x.number ≢ s.note.number }
    ensures one { (names : Names) (acts more : List Act) (w later : World) (x y : Kept)
        → AreSoundActs names (Some first_world) acts
        → world_after_all names (Some first_world) acts ≡ Some w
        → MayLeave w x
        → AreSoundActs names (Some w) more
        → AreWithoutResets more
        → world_after_all names (Some w) more ≡ Some later
        → MayLeave later y
        → x.number ≡ y.number
        → x ≡ y }
{}

/// Whenever the gateway ends, a start has each message of the venue under the number under which it
/// was kept, if the entries that are found give it, and each lost note uses no number or was put
/// behind it, and is no reset (`messages`).
///
/// Once its note is there, a Reject or a BusinessMessageReject is kept until a reset or a Logon
/// with 141=Y (`rejects`).
pub fn what_left_is_recovered()
    ensures messages { (names : Names) (acts : List Act) (w : World) (is_there : Bool) (x : Kept) (p : Point)
        → AreSoundActs names (Some first_world) acts
        → world_after_all names (Some first_world) acts ≡ Some w
        → IsKept x w.memory.kept
        → 1 ≤ x.ordinal
        → AreLater x.ordinal (lost w is_there)
        → reads_all (Some (start (found w.disk w.flight is_there).given)) (found w.disk w.flight is_there).notes ≡ Some p
        → x.ordinal ≤ (gives_all p p.rest).session.given
        → IsKept x (gives_all p p.rest).kept }
    ensures rejects { (given : List Message) (before after : List Sealed) (s : Sealed) (p : Point)
        → reads_all (Some (start given)) (before ++ (s ∷ after)) ≡ Some p
        → s.note.kind ≡ kind.Reject
        → AreKeeping after
        → IsKept (kept_reject s) (gives_all p p.rest).kept }
{}

/// Across kills, no message of a firm is taken twice, and one whose entry is lost is not counted.
///
/// A start refuses no entry of the firm, so it ends nowhere (`starts`). Behind the last reset, the
/// numbers of the entries that are not lost rise (`once`), and a higher one is expected (`below`).
/// A lost entry has a number that the next session expects, or one above it, so it is not counted
/// (the session's rules ask for it again), unless a reset or a Logon with 141=Y is lost with it
/// (`again`). What a note has counted is not asked for again, until a reset or a Logon with 141=Y
/// (`counted`).
///
/// It ends at: entries before the last reset; a reset, or a Logon with 141=Y, that is lost with an
/// entry.
pub fn nothing_is_lost_or_taken_twice()
    ensures starts { (names : Names) (acts : List Act)
        → AreSoundActs names (Some first_world) acts
        → (w : World) × (world_after_all names (Some first_world) acts ≡ Some w) }
    ensures once { (names : Names) (acts : List Act) (w : World)
        → AreSoundActs names (Some first_world) acts
        → world_after_all names (Some first_world) acts ≡ Some w
        → AreRising w.memory.since 0 (all_taken w) }
    ensures below { (names : Names) (acts : List Act) (w : World)
        → AreSoundActs names (Some first_world) acts
        → world_after_all names (Some first_world) acts ≡ Some w
        → last_from w.memory.since 0 (all_taken w) < w.memory.session.day.expected }
    ensures again { (names : Names) (acts : List Act) (w next : World) (is_there : Bool)
        → AreSoundActs names (Some first_world) acts
        → world_after_all names (Some first_world) acts ≡ Some w
        → world_after names w (Stops is_there) ≡ Some next
        → AreKeeping (lost w is_there)
        → AreFrom next.memory.session.day.expected (lost_taken w is_there) }
    ensures counted { (given : List Message) (before after : List Sealed) (s : Sealed) (p : Point)
        → reads_all (Some (start given)) (before ++ (s ∷ after)) ≡ Some p
        → is_reset s.note.kind ≡ false
        → AreKeeping after
        → s.note.expected ≤ (gives_all p p.rest).session.day.expected }
{}

/// A Reject or a BusinessMessageReject may leave once its note is committed. Whichever gateway is
/// there keeps it under its number, with body and moment, until a note behind it is a reset or a
/// Logon with 141=Y.
pub fn rejects_stand()
    ensures { (names : Names) (acts more : List Act) (w later : World) (s : Sealed)
        → AreSoundActs names (Some first_world) acts
        → world_after_all names (Some first_world) acts ≡ Some w
        → MayAnswer w s
        → AreSoundActs names (Some w) more
        → AllKeepAnswers names (Some w) more
        → world_after_all names (Some w) more ≡ Some later
        → IsKept (kept_reject s) later.memory.kept }
{}

/// What left stands: until a reset is carried out, a message of the venue that was once free to
/// leave stays so, unchanged and under its number, whichever gateway is running (`stays`).
///
/// It may leave once its entry is committed, and each note that is not is no reset, and uses no
/// number or was put behind it. The n-th that may leave is the n-th that the committed entries give
/// (`given`). A gateway that has lost its term says no other than the next one keeps (`next`).
///
/// It ends at: that a gateway holds a message back until it is free to leave, which is tested.
pub fn what_left_stands()
    ensures given { (names : Names) (acts : List Act) (w : World) (x : Kept)
        → AreSoundActs names (Some first_world) acts
        → world_after_all names (Some first_world) acts ≡ Some w
        → MayLeave w x
        → IsNth x.ordinal w.disk.given x.body x.moment }
    ensures stays { (names : Names) (acts more : List Act) (w later : World) (x : Kept)
        → AreSoundActs names (Some first_world) acts
        → world_after_all names (Some first_world) acts ≡ Some w
        → MayLeave w x
        → AreSoundActs names (Some w) more
        → AreWithoutResets more
        → world_after_all names (Some w) more ≡ Some later
        → MayLeave later x }
    ensures next { (names : Names) (acts more : List Act) (w old next : World) (is_there : Bool) (x : Kept)
        → AreSoundActs names (Some first_world) acts
        → world_after_all names (Some first_world) acts ≡ Some w
        → AreSoundActs names (Some w) more
        → AreUncommitted more
        → world_after_all names (Some w) more ≡ Some old
        → MayLeave old x
        → world_after names w (Stops is_there) ≡ Some next
        → IsKept x next.memory.kept }
{}

/// Nothing is denied: no message that left is a gap later, what was taken is not denied, and what
/// was denied is not taken.
///
/// So after every list of acts, with kills, commits that fail and failovers. No gap fill covers the
/// number of a message of the venue that may leave and is no Heartbeat (35=0), until a reset is
/// carried out (`messages`), nor that of a Reject or a BusinessMessageReject that may, until a reset
/// or a Logon with 141=Y (`rejects`). A BusinessMessageReject (35=j) names in 45 a number above those
/// of all entries behind the last reset (`taken`). Once it may leave, the venue is given a message of
/// the firm only under a number above that one, until a reset or a Logon with 141=Y (`denied`).
///
/// It ends at: that a gateway waits so before anything leaves (`MayLeave`, `MayAnswer`), and hands the
/// session what it keeps, as it keeps it (`IsHanded`), which is tested; a Reject (35=3), which may name
/// a message that was taken, where the firm sends that again, and wrongly.
pub fn nothing_is_denied()
    ensures messages { (names : Names) (acts more : List Act) (w later : World) (x : Kept) (midnight : ℕ) (e : Event)
        → AreSoundActs names (Some first_world) acts
        → world_after_all names (Some first_world) acts ≡ Some w
        → MayLeave w x
        → is_heartbeat x.body ≡ false
        → AreSoundActs names (Some w) more
        → AreWithoutResets more
        → world_after_all names (Some w) more ≡ Some later
        → IsHanded midnight later.memory.kept later.memory.session e
        → MakesGap x.number (turn names later.memory.session e)
        → ⊥ }
    ensures rejects { (names : Names) (acts more : List Act) (w later : World) (s : Sealed) (midnight : ℕ) (e : Event)
        → AreSoundActs names (Some first_world) acts
        → world_after_all names (Some first_world) acts ≡ Some w
        → MayAnswer w s
        → AreSoundActs names (Some w) more
        → AllKeepAnswers names (Some w) more
        → world_after_all names (Some w) more ≡ Some later
        → IsHanded midnight later.memory.kept later.memory.session e
        → MakesGap s.note.number (turn names later.memory.session e)
        → ⊥ }
    ensures taken { (names : Names) (acts : List Act) (w : World) (e : Event) (number : ℕ)
        → AreSoundActs names (Some first_world) acts
        → world_after_all names (Some first_world) acts ≡ Some w
        → Denies number (turn names w.memory.session e)
        → AreBelow w.memory.since number (all_taken w) }
    ensures denied { (names : Names) (acts more : List Act) (w later : World) (s : Sealed) (e : Event) (number : ℕ)
        → AreSoundActs names (Some first_world) acts
        → world_after_all names (Some first_world) acts ≡ Some w
        → MayAnswer w s
        → AreSoundActs names (Some w) more
        → AllKeepAnswers names (Some w) more
        → world_after_all names (Some w) more ≡ Some later
        → (turn names later.memory.session e).takes ≡ Some number
        → IsDeniedBelow number s }
{}

/// The times of a message stand: OrigSendingTime (122) of what is sent again does not change, at
/// whichever gateway; nor is it after the first SendingTime (52), if each turn is at the later of two
/// moments.
///
/// Each time that a message of the venue that may leave is sent again, it has in 122 the moment with
/// which it is kept, that of its entry, until a reset is carried out (`messages`). A Reject or a
/// BusinessMessageReject has that of its note, until a reset or a Logon with 141=Y (`rejects`). 52 is
/// the moment of the turn (`sent`). Whatever a gateway's clock says, a turn at the later of that and
/// of the moment with which a message is kept (`later_of`) is not before the latter: where the message
/// is handed back (`first`), and where the session is told of it (`told`).
///
/// It ends at: that a gateway waits before anything leaves, takes the later of the two moments, hands
/// the session what it keeps, as it keeps it (`IsHanded`), and writes the moment of its note into 52 of
/// a Reject that leaves at once. These are duties of the gateway in C++, and not proved.
pub fn times_stand()
    ensures messages { (names : Names) (acts more : List Act) (w later : World) (x : Kept) (midnight : ℕ) (e : Event)
        (date : List ℕ) (moment : ℕ) (said : Said)
        → AreSoundActs names (Some first_world) acts
        → world_after_all names (Some first_world) acts ≡ Some w
        → MayLeave w x
        → AreSoundActs names (Some w) more
        → AreWithoutResets more
        → world_after_all names (Some w) more ≡ Some later
        → IsHanded midnight later.memory.kept later.memory.session e
        → (turn names later.memory.session e).first ≡ Some said
        → is_again said.word ≡ true
        → said.number ≡ x.number
        → HasTime 122 midnight x.moment date (said_fields names date moment said) }
    ensures rejects { (names : Names) (acts more : List Act) (w later : World) (s : Sealed) (midnight : ℕ) (e : Event)
        (date : List ℕ) (moment : ℕ) (said : Said)
        → AreSoundActs names (Some first_world) acts
        → world_after_all names (Some first_world) acts ≡ Some w
        → MayAnswer w s
        → AreSoundActs names (Some w) more
        → AllKeepAnswers names (Some w) more
        → world_after_all names (Some w) more ≡ Some later
        → IsHanded midnight later.memory.kept later.memory.session e
        → (turn names later.memory.session e).first ≡ Some said
        → is_again said.word ≡ true
        → said.number ≡ s.note.number
        → HasTime 122 midnight s.note.moment date (said_fields names date moment said) }
    ensures sent { (names : Names) (date : List ℕ) (moment : ℕ) (said : Said)
        → value_of 52 (said_fields names date moment said) ≡ Some (timestamp_text date moment) }
    ensures first { (names : Names) (acts : List Act) (w : World) (x : Kept) (midnight clock next_kept : ℕ) (one : Stored) (said : Said)
        → AreSoundActs names (Some first_world) acts
        → world_after_all names (Some first_world) acts ≡ Some w
        → IsKept x w.memory.kept
        → IsHanded midnight w.memory.kept w.memory.session (Handed (later_of clock one.first) next_kept (Some one))
        → (turn names w.memory.session (Handed (later_of clock one.first) next_kept (Some one))).first ≡ Some said
        → said.number ≡ x.number
        → x.moment ≤ midnight + later_of clock one.first }
    ensures told { (names : Names) (m : Memory) (message : Message) (midnight clock time : ℕ) (said : Said)
        → midnight + time ≡ message.moment
        → (given m.session (later_of clock time) message.body).first ≡ Some said
        → (k : Kept)
        × IsKept k (memory_after names m (Told (later_of clock time) message)).kept
        × (k.number ≡ said.number)
        × (k.moment ≤ midnight + later_of clock time) }
{}
