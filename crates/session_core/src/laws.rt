//! What holds of the definitions that clauses cite. The function does nothing: its contract says
//! it.

ghost use Rattle.std.specs.Prelude.{◌≡◌, ◌↔◌, ℕ, List, Some, IsSome, IsTrue, slice_get};
ghost use Rattle.repl_commands.specs.declared.command.Command.{Command};
ghost use Rattle.script_text.specs.Commands.{command_words};
ghost use Rattle.session_core.specs.Commands.{talk_of, is_carried_out_verb};

/// A word is the first of a command that is carried out if and only if it is one of
/// `carried_out_verbs`.
pub fn first_words_of_commands()
    ensures { (word : List ℕ) → IsTrue (is_carried_out_verb word)
        ↔ ((command : Command) × IsSome (talk_of command)
        × (slice_get (command_words command) 0 ≡ Some word)) }
{}
