//! What it means that the words of the command ask for something.
ghost use Rattle.std.specs.Prelude.{◌≡◌, ◌⊎◌, ◌<◌, ◌^◌, ℕ, true, List, [], ◌∷◌, codes};
ghost use Rattle.std.specs.Fmt.{decimal};
ghost use Rattle.command_line.specs.Command.{is_argument};
ghost use Rattle.gosync_call.specs.Command.{AreRefused, AskFor, AskToCheck, AskToMake};
ghost use Rattle.gosync_call.specs.declared.words.Mode.{Mode};
ghost use Rattle.gosync_call.specs.declared.words.Mode.TheVariants as modes;

use command_line::laws::{a_seed_is_its_decimal_text, a_subcommand_with_its_argument_is_taken};

/// `gosync run FILE` asks to run FILE with threads, `gosync step FILE` to run it by its schedule, `gosync race FILE` to run it so and tell
/// its races, `gosync check FILE` to judge the record of FILE, and `gosync make SEED` to make the workload of SEED, whatever the program is called. FILE is `-`, or isn't empty and doesn't begin with `-`.
pub fn three_words_ask_for_what_they_say()
    ensures run { (program file : List ℕ) → is_argument file ≡ true → AskFor (program ∷ codes "run" ∷ file ∷ []) modes.Run file }
    ensures step { (program file : List ℕ) → is_argument file ≡ true → AskFor (program ∷ codes "step" ∷ file ∷ []) modes.Step file }
    ensures race { (program file : List ℕ) → is_argument file ≡ true → AskFor (program ∷ codes "race" ∷ file ∷ []) modes.Race file }
    ensures check { (program file : List ℕ) → is_argument file ≡ true → AskToCheck (program ∷ codes "check" ∷ file ∷ []) file }
    ensures make { (program : List ℕ) (seed : ℕ) → seed < 2 ^ 64 → AskToMake (program ∷ codes "make" ∷ decimal seed ∷ []) seed }
{
    a_subcommand_with_its_argument_is_taken();
    a_seed_is_its_decimal_text();
}

/// Words ask to run one file in one way, to judge the record of one file, or to make the workload of one seed, or they are refused; and
/// never for two of these.
pub fn words_ask_for_one_thing()
    ensures some { (words : List (List ℕ)) → ((mode : Mode) × (file : List ℕ) × AskFor words mode file) ⊎ (((file : List ℕ) × AskToCheck words file) ⊎ (((seed : ℕ) × AskToMake words seed) ⊎ AreRefused words)) }
    ensures one_file { (words : List (List ℕ)) (mode other : Mode) (file name : List ℕ) → AskFor words mode file → AskFor words other name → (mode ≡ other) × (file ≡ name) }
    ensures one_record { (words : List (List ℕ)) (file name : List ℕ) → AskToCheck words file → AskToCheck words name → file ≡ name }
    ensures one_seed { (words : List (List ℕ)) (seed other : ℕ) → AskToMake words seed → AskToMake words other → seed ≡ other }
    ensures no_seed { (words : List (List ℕ)) (mode : Mode) (file : List ℕ) (seed : ℕ) → AskFor words mode file → ¬ AskToMake words seed }
    ensures no_record { (words : List (List ℕ)) (name : List ℕ) → AskToCheck words name → ((mode : Mode) (file : List ℕ) → ¬ AskFor words mode file) × ((seed : ℕ) → ¬ AskToMake words seed) }
    ensures nothing { (words : List (List ℕ)) → AreRefused words → ((mode : Mode) (file : List ℕ) → ¬ AskFor words mode file) × ((file : List ℕ) → ¬ AskToCheck words file) × ((seed : ℕ) → ¬ AskToMake words seed) }
{}
