//! The laws of lines that are cut and of tests and their texts, as the contracts of functions that do nothing.
ghost use Rattle.std.specs.Prelude.{◌≡◌, ℕ, List};
ghost use Rattle.nc_command.specs.Command.{Asks, command_of, spaced, text_of};
ghost use Rattle.nc_command.specs.Cutting.{CutsLines};
ghost use Rattle.nc_command.specs.declared.command.Command.TheVariants.{Test};
ghost use Rattle.nc_lines.specs.Lines.{words_of};
ghost use Rattle.nc_types.specs.declared.command.TestCommand.{TestCommand};

/// The text of a test that a line asks is the line's words with single spaces between them.
pub fn text_is_the_words()
    ensures { (line : List ℕ) (test : TestCommand)
        → command_of line ≡ Asks (Test test) → text_of test ≡ spaced (words_of line) }
{}

/// Bytes that are pushed one after another are cut into the lines of the text that they make, each as it is: with
/// its bytes, or too long.
pub fn cutters_cut_lines()
    ensures { (bytes : List ℕ) → CutsLines bytes }
{}
