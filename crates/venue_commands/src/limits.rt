//! The limits of an input that contracts name by a constant of the code.
ghost use Rattle.std.specs.Prelude.{◌≡◌};
ghost use Rattle.input_lines.specs.declared.lines.TheConstants as input;
ghost use Rattle.input_lines.specs.declared.say_frames.TheConstants as said;
ghost use Rattle.input_lines.specs.declared.step_lines.TheConstants as stepped;
ghost use Rattle.live_runs.specs.declared.live.TheConstants as live;
ghost use Rattle.step_replay.specs.declared.steps.TheConstants as replay;

/// The limits of an input are the numbers of the pages. (Contracts name them by constants of the
/// code, and so would hold of others, too.)
pub fn inputs_have_these_limits()
    // The bytes of an input, and the lines of a day that is answered line by line.
    ensures bytes { input.MOST_INPUT ≡ 16777216 }
    ensures lines { live.MOST_LINES ≡ 1000000000000000 }

    // What a line may say: the turns of one, and the bytes of a body that is spelled field by field.
    ensures turns { stepped.MOST_TURNS ≡ 1000 }
    ensures body { said.LONGEST_BODY ≡ 4071 }

    // The turns that a step has behind it, where a day answers each line: more than duties wait.
    ensures turns_behind { replay.MOST_TURNS_BEHIND ≡ 18446744073709551615 }
{}
