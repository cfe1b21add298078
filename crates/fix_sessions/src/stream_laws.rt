//! What holds of every stream that is cut into messages.
ghost use Rattle.std.specs.Prelude.{◌≡◌, ◌≤◌, ◌<◌, ◌+◌, ◌⊎◌, ℕ, List, ◌++◌, length, take, drop};
ghost use Rattle.fix_sessions.specs.Cuts.{behind, found_at, next_message};
ghost use Rattle.fix_sessions.specs.Streams.{BeginNothing, IsMessage, IsSpoilt, IsWithinSpoilt};
ghost use Rattle.fix_sessions.specs.declared.cuts.What.TheVariants as what;
ghost use Rattle.fix_sessions.specs.declared.cuts.TheConstants.{MOST_MESSAGE};

/// What is found in any stream of bytes is a whole message with the right length and the right sum
/// (`found`).
///
/// A message at the front is found (`first`), and one behind bytes that begin nothing (`again`). A
/// message with a wrong sum is passed over, and the search goes on behind it (`spoilt`). A message
/// is passed over only within one whose sum is wrong: otherwise what is found, or waited for,
/// begins no later than it (`none_passed`). What may begin a message waits for no more bytes than
/// the longest has (`waits`).
pub fn a_stream_is_cut_where_messages_stand()
    ensures found { (bytes : List ℕ) (skip len : ℕ)
        → next_message bytes ≡ found_at skip (what.Message len)
        → IsMessage (take len (drop skip bytes)) × (skip + len ≤ length bytes) }
    ensures first { (m after : List ℕ) → IsMessage m
        → next_message (m ++ after) ≡ found_at 0 (what.Message (length m)) }
    ensures again { (before m after : List ℕ) → IsMessage m
        → BeginNothing before (m ++ after)
        → next_message (before ++ (m ++ after)) ≡ found_at (length before) (what.Message (length m)) }
    ensures spoilt { (m after : List ℕ) → IsSpoilt m
        → next_message (m ++ after) ≡ behind (length m) (next_message after) }
    ensures none_passed { (before m after : List ℕ) → IsMessage m
        → ((next_message (before ++ (m ++ after))).skip ≤ length before)
        ⊎ IsWithinSpoilt (before ++ (m ++ after)) (length before) }
    ensures waits { (bytes : List ℕ) (skip : ℕ)
        → next_message bytes ≡ found_at skip what.Nothing
        → length bytes < skip + MOST_MESSAGE }
{}
