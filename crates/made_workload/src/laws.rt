//! Laws of the workload of a seed, and of what its calls come to.
ghost use Rattle.std.specs.Prelude.{◌≡◌, ◌≢◌, ◌<◌, ◌≤◌, ◌+◌, ◌^◌, ◌%◌, ◌++◌, ◌∷◌, [], ℕ, List, Some, None, true, false, length, take, slice_get, sum_by, codes};
ghost use Rattle.std.specs.Fmt.{decimal};
ghost use Rattle.std.specs.List.{flat_map, list_any, range_with_len};
ghost use Rattle.std.specs.FinMap.{get};
ghost use Rattle.std.specs.Str.{bytes_eq};
ghost use Rattle.rand_pcg.specs.Lcg.{advance};
ghost use Rattle.rand_pcg.specs.Pcg.{multiplier_64, pcg32};
ghost use Rattle.script_calls.specs.Runs.{have_tests};
ghost use Rattle.workload.specs.Canonical.{canonical};
ghost use Rattle.workload.specs.Dialect.{has_variables, has_unrecorded};
ghost use Rattle.workload.specs.Draft.{keys_of, call_count};
ghost use Rattle.workload.specs.Plan.{has_dormant};
ghost use Rattle.workload.specs.Readable.{IsReadable};
ghost use Rattle.made_workload.specs.Generated.{generator_of, drawn, drawn_for, in_twos, script_by, generated_objects, generated_plan, generated_text};
ghost use Rattle.made_workload.specs.Written.{written_text};
ghost use Rattle.workload.specs.OwnMaps.{map_of, union_of};
ghost use Rattle.made_workload.specs.Summary.{Summary, summary, summary_of, summary_text};

pub mod runs;

/// The text of a seed is the canonical text of its workload, which is these lines.
pub fn text_is_canonical()
    ensures canonical { (seed : ℕ) → generated_text seed ≡ canonical (generated_plan seed) }
    ensures lines { (seed : ℕ) → generated_text seed ≡ written_text seed }
{}

/// The words of a seed are those of its generator, one step after the other. The workers' words, one worker after the
/// other, are all of them, and a worker's rounds take two each.
pub fn words_are_drawn_in_order()
    ensures steps { (seed i : ℕ) → i < 8000 → slice_get (drawn seed) i ≡ Some (pcg32 (advance 64 multiplier_64 i (generator_of seed))).0 }
    ensures shares { (seed : ℕ) → flat_map (drawn_for seed) (range_with_len 0 8) ≡ drawn seed }
    ensures twos { (seed worker : ℕ) → worker < 8 → flat_map (λ words. words.0 ∷ words.1 ∷ []) (in_twos (drawn_for seed worker)) ≡ drawn_for seed worker }
    ensures rounds { (seed worker : ℕ) → worker < 8 → length (in_twos (drawn_for seed worker)) ≡ 500 }
{}

/// The first words of two seeds, which differ in the high half alone.
pub fn first_words_of_seeds()
    ensures seven { take 2 (drawn 7) ≡ 4063834449 ∷ 2143014202 ∷ [] }
    ensures high_half { take 2 (drawn (2 ^ 32 + 7)) ≡ 4065474018 ∷ 4658041 ∷ [] }
{}

/// Eight workers have 2,000 calls each, by the words that they draw, on three objects. No call passes others over, no
/// worker waits to be started, and no object is a plain variable, a semaphore or a group of flights. The workload has a text.
pub fn workload_of_a_seed()
    ensures workers { (seed : ℕ) → (generated_plan seed).workers ≡ 8 }
    ensures objects { (seed : ℕ) → (generated_plan seed).objects ≡ generated_objects }
    ensures scripts { (seed worker : ℕ) → worker < 8 → slice_get (generated_plan seed).scripts worker ≡ Some (script_by worker (drawn_for seed worker)) }
    ensures script { (seed worker : ℕ) → worker < 8 → length (script_by worker (drawn_for seed worker)) ≡ 2000 }
    ensures calls { (seed : ℕ) → call_count (generated_plan seed).scripts ≡ 16000 }
    ensures no_tests { (seed : ℕ) → have_tests (generated_plan seed).scripts ≡ false }
    ensures no_dormant { (seed : ℕ) → has_dormant (generated_plan seed) ≡ false }
    ensures no_variables { (seed : ℕ) → has_variables (generated_plan seed) ≡ false }
    ensures no_unrecorded { (seed : ℕ) → has_unrecorded (generated_plan seed) ≡ false }
    ensures readable { (seed : ℕ) → IsReadable (generated_plan seed) }
{}

/// A key belongs to one worker, whose number stands in it.
pub fn keys_tell_their_workers()
    ensures begins { (seed worker : ℕ) (key : List ℕ) → worker < 8 → list_any (bytes_eq key) (flat_map keys_of (script_by worker (drawn_for seed worker))) ≡ true → take 3 key ≡ codes "k" ++ decimal worker ++ codes "_" }
    ensures apart { (seed worker other : ℕ) (key : List ℕ) → worker < 8 → other < 8 → list_any (bytes_eq key) (flat_map keys_of (script_by worker (drawn_for seed worker))) ≡ true → list_any (bytes_eq key) (flat_map keys_of (script_by other (drawn_for seed other))) ≡ true → worker ≡ other }
{}

/// What the calls come to: the sum of the rounds' amounts, and the union of the workers' maps, which has at each key what
/// the map of its worker has, and no other key.
pub fn summary_of_a_seed()
    ensures summary { (seed : ℕ) → summary seed ≡ summary_of (generated_plan seed).scripts }
    ensures total { (seed : ℕ) → (summary seed).total ≡ sum_by (λ words. words.0 % 1000) (in_twos (drawn seed)) }
    ensures total_small { (seed : ℕ) → (summary seed).total ≤ 3996000 }
    ensures own { (seed worker : ℕ) (key : List ℕ) → worker < 8 → take 3 key ≡ codes "k" ++ decimal worker ++ codes "_" → get (union_of 2 (generated_plan seed).scripts) key ≡ get (map_of 2 (script_by worker (drawn_for seed worker))) key }
    ensures others { (seed : ℕ) (key : List ℕ) → ((worker : ℕ) → worker < 8 → take 3 key ≢ codes "k" ++ decimal worker ++ codes "_") → get (union_of 2 (generated_plan seed).scripts) key ≡ None }
    ensures keys_few { (seed : ℕ) → (summary seed).keys ≤ 512 }
{}

/// The five lines say the three numbers in decimal.
pub fn five_lines()
    ensures { (s : Summary) → summary_text s ≡ codes "workers 8\ncalls 16000\ntotal " ++ decimal s.total ++ codes "\nkeys " ++ decimal s.keys ++ codes "\nsum " ++ decimal s.sum ++ codes "\n" }
{}
