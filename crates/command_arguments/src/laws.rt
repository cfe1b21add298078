//! Laws of arguments: each function does nothing, and its clauses hold of the arguments that they
//! name.
ghost use Rattle.std.specs.Prelude.{◌≡◌, ◌↔◌, ℕ, List, [], ◌∷◌, codes, is_some, true};
ghost use Rattle.command_arguments.specs.Arguments as spec;

use clap::error::ErrorKind;

/// The arguments with which clap finds nothing wrong are those of a command.
pub fn these_arguments_are_commands()
    ensures { (name : List ℕ) → (rest : List (List ℕ))
        → (spec.arguments_fault (name ∷ rest) ≡ [])
        ↔ (is_some (spec.command_of (name ∷ rest)) ≡ true) }
{}

/// What is wrong with some arguments that are no command: they ask for help or the version, or
/// there is a mistake in them. `run_program` of `venue_commands` says how a run with such arguments
/// ends.
pub fn arguments_have_these_faults()
    ensures help { spec.arguments_fault (codes "--help" ∷ []) ≡ ErrorKind.DisplayHelp ∷ [] }
    ensures short_help { spec.arguments_fault (codes "-h" ∷ []) ≡ ErrorKind.DisplayHelp ∷ [] }
    ensures version { spec.arguments_fault (codes "--version" ∷ [])
        ≡ ErrorKind.DisplayVersion ∷ [] }
    ensures short_version { spec.arguments_fault (codes "-V" ∷ [])
        ≡ ErrorKind.DisplayVersion ∷ [] }
    ensures help_as_a_command { spec.arguments_fault (codes "help" ∷ [])
        ≡ ErrorKind.DisplayHelp ∷ ErrorKind.InvalidSubcommand ∷ [] }
    ensures help_on_replay { spec.arguments_fault (codes "replay" ∷ codes "--help" ∷ [])
        ≡ ErrorKind.DisplayHelp ∷ [] }

    // Help wins at its first flag, whatever stands behind it.
    ensures help_first { (rest : List (List ℕ)) → spec.arguments_fault (codes "--help" ∷ rest)
        ≡ ErrorKind.DisplayHelp ∷ [] }
    ensures help_on_due_first { spec.arguments_fault
        (codes "due" ∷ codes "DLR1" ∷ codes "-h" ∷ codes "x" ∷ []) ≡ ErrorKind.DisplayHelp ∷ [] }

    ensures frames_of_nothing { spec.arguments_fault (codes "--frames" ∷ [])
        ≡ ErrorKind.UnknownArgument ∷ [] }
    ensures frames_twice { spec.arguments_fault
        (codes "replay" ∷ codes "--frames" ∷ codes "--frames" ∷ [])
        ≡ ErrorKind.ArgumentConflict ∷ [] }
    ensures both_flags { spec.arguments_fault
        (codes "day" ∷ codes "--woven" ∷ codes "--frames" ∷ []) ≡ [] }
    ensures woven_twice { spec.arguments_fault
        (codes "day" ∷ codes "--woven" ∷ codes "--woven" ∷ []) ≡ ErrorKind.ArgumentConflict ∷ [] }
    ensures woven_replay { spec.arguments_fault (codes "replay" ∷ codes "--woven" ∷ [])
        ≡ ErrorKind.UnknownArgument ∷ [] }
    ensures marks_and_frames { spec.arguments_fault
        (codes "live" ∷ codes "--marks" ∷ codes "--frames" ∷ []) ≡ [] }
    ensures marks_of_replay { spec.arguments_fault (codes "replay" ∷ codes "--marks" ∷ [])
        ≡ ErrorKind.UnknownArgument ∷ [] }
    ensures one_argument_more { spec.arguments_fault (codes "alone" ∷ codes "x" ∷ [])
        ≡ ErrorKind.UnknownArgument ∷ [] }
    ensures one_argument_less { spec.arguments_fault (codes "due" ∷ [])
        ≡ ErrorKind.MissingRequiredArgument ∷ [] }
    ensures investor_and_live { spec.arguments_fault
        (codes "due" ∷ codes "--investor" ∷ codes "INV1" ∷ codes "--live" ∷ []) ≡ [] }
    ensures investor_of_nothing { spec.arguments_fault
        (codes "due" ∷ codes "--investor" ∷ []) ≡ ErrorKind.MissingRequiredArgument ∷ [] }
    ensures investor_replay { spec.arguments_fault (codes "replay" ∷ codes "--investor" ∷ [])
        ≡ ErrorKind.UnknownArgument ∷ [] }
    ensures dues_of_one { spec.arguments_fault (codes "dues" ∷ codes "x" ∷ [])
        ≡ ErrorKind.UnknownArgument ∷ [] }
    ensures no_command { spec.arguments_fault (codes "days" ∷ [])
        ≡ ErrorKind.UnknownArgument ∷ ErrorKind.InvalidSubcommand ∷ [] }
{}
