//! The law of the grammar.

ghost use Rattle.std.specs.Prelude.{◌≡◌, ◌∷◌, [], List};
ghost use Rattle.clap.specs.Words.{Text};
ghost use Rattle.command_words.specs.declared.command.Command.{Command};
ghost use Rattle.command_words.specs.Grammar.{IsCommandLine, Says, check_row, default_effort};

/// The law of the grammar: words say one command at most, and those in the grammar say one. `check` alone says the
/// default effort.
pub fn is_said_once()
    ensures inside { (words : List Text) → IsCommandLine words → (command : Command) × Says words command }
    ensures once { (words : List Text) (first second : Command) → Says words first → Says words second → first ≡ second }
    ensures alone { Says (check_row.word ∷ []) (Command.Check default_effort) }
{}
