//! What holds of the definitions that clauses cite. The functions do nothing: their contracts say
//! it.

ghost use Rattle.std.specs.Prelude.{◌≡◌, ℕ, List, Some};
ghost use Rattle.repl_commands.specs.declared.command.Command.{Command};
ghost use Rattle.script_text.specs.Commands.{IsLineOf};
ghost use Rattle.script_text.specs.Asked.{command_of};

/// A line is of at most one command.
pub fn one_command_of_a_line()
    ensures { (line : List ℕ) (c d : Command) → IsLineOf line c → IsLineOf line d → c ≡ d }
{}

/// `command_of` finds the command that a line is of, and no other.
pub fn the_command_of_a_line()
    ensures found { (line : List ℕ) (c : Command) → command_of line ≡ Some c → IsLineOf line c }
    ensures all { (line : List ℕ) (c : Command) → IsLineOf line c → command_of line ≡ Some c }
{}
