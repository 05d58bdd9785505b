//! What the command line takes, in a user's words.
ghost use Rattle.std.specs.Prelude.{◌≡◌, ◌↔◌, ◌<◌, ◌^◌, ℕ, true, List, [], ◌∷◌, None, Some};
ghost use Rattle.std.specs.Fmt.{decimal};
ghost use Rattle.command_line.specs.Command.{gosync_command, is_argument, matched, subcommand_named};
ghost use Rattle.clap.specs.Words.{fault_of};
ghost use Rattle.command_line.specs.Seed.{seed_of};
ghost use Rattle.command_line.specs.declared.definition.Subcommand.{Subcommand};

use workload::laws::numbers;

/// Taken is each list of three words, the program's name first, of which the second is `step`, `run`, `make`, `race`, `check` or
/// `trace`, and the third isn't empty and is `-` or doesn't begin with `-`: with that subcommand and that argument.
pub fn a_subcommand_with_its_argument_is_taken()
    ensures { (program name text : List ℕ) (subcommand : Subcommand) → subcommand_named name ≡ Some subcommand → is_argument text ≡ true
        → matched (program ∷ name ∷ text ∷ []) ≡ Some (subcommand, text) }
{}

/// A word is a seed exactly where it is the decimal text of a number below 2^64, and then it is this number.
pub fn a_seed_is_its_decimal_text()
    ensures { (word : List ℕ) (seed : ℕ) → seed_of word ≡ Some seed ↔ (seed < 2 ^ 64) × (decimal seed ≡ word) }
{
    numbers();
}

/// Words of which nothing is matched are those with which the command finds a fault: no other list is refused.
pub fn the_command_alone_refuses()
    ensures { (words : List (List ℕ)) → matched words ≡ None → fault_of gosync_command words ≡ [] → ⊥ }
{}
