//! The limits that the laws and contracts of a session name by a constant of the code.
ghost use Rattle.std.specs.Prelude.{◌≡◌};
ghost use Rattle.fix_sessions.specs.declared.bodies.TheConstants as bodies;
ghost use Rattle.fix_sessions.specs.declared.cuts.TheConstants as cuts;
ghost use Rattle.fix_sessions.specs.declared.state.TheConstants as state;
ghost use Rattle.fix_sessions.specs.declared.texts.TheConstants as texts;

/// The waits of a session, its last number, and the lengths of what it reads, keeps and says are
/// the numbers of the pages. (Definitions name them by constants of the code.)
pub fn session_limits_are_as_written()
    // The last number that is used up, the bytes of the longest message that is read, and those of
    // the longest body that is kept.
    ensures last_number { state.LAST_NUMBER ≡ 999999990 }
    ensures message { cuts.MOST_MESSAGE ≡ 65536 }
    ensures kept { bodies.MOST_KEPT ≡ 3800 }

    // The bytes of a name of a session (49, 56), and of any other text of one, such as TestReqID
    // (112).
    ensures name { texts.MOST_NAME ≡ 40 }
    ensures text { texts.MOST_TEXT ≡ 1024 }

    // In milliseconds: a day, and how far SendingTime (52) may be off.
    ensures day { state.DAY_LENGTH ≡ 86400000 }
    ensures clock { state.CLOCK_GAP ≡ 120000 }

    // In milliseconds: how long a gap, a TestRequest of settling, settling as a whole, a
    // connection's first message and a firm's Logout are waited for.
    ensures gap { state.GAP_WAIT ≡ 10000 }
    ensures test { state.TEST_WAIT ≡ 10000 }
    ensures settling { state.SETTLE_WAIT ≡ 60000 }
    ensures first_message { state.FIRST_WAIT ≡ 10000 }
    ensures logout { state.LOGOUT_WAIT ≡ 2000 }

    // The shortest silence that ends a connection, in milliseconds, and the longest HeartBtInt
    // (108), in seconds.
    ensures silence { state.LEAST_SILENCE ≡ 6000 }
    ensures heartbeat { state.LONGEST_HEARTBEAT ≡ 300 }
{}
