//! Worked examples: what words ask for and what they do not, and which faults they do not have. Each
//! can be checked by hand, with the options that the help lists.

ghost use Rattle.std.specs.Prelude.{◌≡◌, ℕ, [], ◌∷◌, List, map, Some, None, Ok, Err, String, codes};
ghost use Rattle.std.specs.Global.{Global};
ghost use Rattle.std.specs.String.{string_bytes};
ghost use Rattle.std.specs.Vec.Iter.{into_iter_items};
ghost use Rattle.std.specs.declared.io.Error.{Error};
ghost use Rattle.std.specs.declared.vec.IntoIter.{IntoIter};
ghost use Rattle.clap.specs.Words.{Row, subcommand_of};
ghost use Rattle.gas_tool_cli.specs.Words.{program_app};
ghost use Rattle.gas_tool_cli.specs.Requests.{AskFor, HaveFault, IsAllowed, IsRequestOf};
ghost use Rattle.gas_tool_cli.specs.declared.words.Request.{Request};
ghost use Rattle.gas_tool_cli.specs.declared.words.Request.TheVariants.{Check, Run, Coarse, Replay};
ghost use Rattle.gas_tool_cli.specs.declared.words.UsageFault.TheVariants.{Help, Usage};

/// Words of a run that give each of its numbers. They ask neither for a default nor for the number of
/// another option, nor for a run without threads, nor for what another subcommand does.
pub fn words_of_a_run()
    ensures asked { IsRequestOf (subcommand_of program_app (codes "fhpgas" ∷ codes "run"
        ∷ codes "--generations" ∷ codes "3" ∷ codes "--stages" ∷ codes "5"
        ∷ codes "--capacity" ∷ codes "7" ∷ codes "--threads" ∷ codes "2" ∷ []))
        (Run 5 7 3 (Some 2)) }
    ensures not_asked { let asked = IsRequestOf (subcommand_of program_app (codes "fhpgas"
        ∷ codes "run" ∷ codes "--generations" ∷ codes "3" ∷ codes "--stages" ∷ codes "5"
        ∷ codes "--capacity" ∷ codes "7" ∷ codes "--threads" ∷ codes "2" ∷ [])) in
        (asked (Run 3 7 3 (Some 2)) → ⊥) × (asked (Run 5 128 3 (Some 2)) → ⊥)
        × (asked (Run 5 7 5 (Some 2)) → ⊥) × (asked (Run 5 7 3 (Some 5)) → ⊥)
        × (asked (Run 5 7 3 None) → ⊥) × (asked Check → ⊥) × (asked (Replay 5 7 3 []) → ⊥) }
{}

/// Words of a run that give its generations alone. They ask neither for threads, nor for another
/// number in place of a default, nor for the number that the digits are to base 16.
pub fn words_without_options()
    ensures asked { IsRequestOf (subcommand_of program_app
        (codes "fhpgas" ∷ codes "run" ∷ codes "--generations" ∷ codes "13" ∷ []))
        (Run 4 2 13 None) }
    ensures not_asked { let asked = IsRequestOf (subcommand_of program_app
        (codes "fhpgas" ∷ codes "run" ∷ codes "--generations" ∷ codes "13" ∷ [])) in
        (asked (Run 13 128 13 (Some 1)) → ⊥) × (asked (Run 5 2 13 None) → ⊥)
        × (asked (Run 4 3 13 None) → ⊥) × (asked (Run 4 2 19 None) → ⊥)
        × (asked (Replay 4 2 13 []) → ⊥) }
{}

/// Words of a table of blocks. They ask neither for threads, nor for the height as the width, nor for
/// the width as the height, nor for another plan, nor for a run.
pub fn words_of_a_table()
    ensures asked { IsRequestOf (subcommand_of program_app (codes "fhpgas" ∷ codes "coarse"
        ∷ codes "--generations" ∷ codes "3" ∷ codes "--block-width" ∷ codes "8"
        ∷ codes "--block-height" ∷ codes "9" ∷ []))
        (Coarse 4 2 3 None 8 9) }
    ensures not_asked { let asked = IsRequestOf (subcommand_of program_app (codes "fhpgas"
        ∷ codes "coarse" ∷ codes "--generations" ∷ codes "3" ∷ codes "--block-width" ∷ codes "8"
        ∷ codes "--block-height" ∷ codes "9" ∷ [])) in
        (asked (Coarse 3 128 3 (Some 1) 8 9) → ⊥) × (asked (Coarse 4 2 3 None 9 9) → ⊥)
        × (asked (Coarse 4 2 3 None 8 8) → ⊥) × (asked (Coarse 5 2 3 None 8 9) → ⊥)
        × (asked (Run 4 2 3 None) → ⊥) × (asked (Coarse 3 128 3 (Some 3) 8 9) → ⊥) }
{}

/// Words of a replay of two turns. They ask neither for other turns nor for another plan.
pub fn words_of_a_replay()
    ensures asked { IsRequestOf (subcommand_of program_app (codes "fhpgas" ∷ codes "replay"
        ∷ codes "--generations" ∷ codes "3" ∷ codes "--stages" ∷ codes "5"
        ∷ codes "--capacity" ∷ codes "7" ∷ codes "1" ∷ codes "0" ∷ []))
        (Replay 5 7 3 (1 ∷ 0 ∷ [])) }
    ensures not_asked { let asked = IsRequestOf (subcommand_of program_app (codes "fhpgas"
        ∷ codes "replay" ∷ codes "--generations" ∷ codes "3" ∷ codes "--stages" ∷ codes "5"
        ∷ codes "--capacity" ∷ codes "7" ∷ codes "1" ∷ codes "0" ∷ [])) in
        (asked (Replay 5 7 3 (0 ∷ 1 ∷ [])) → ⊥) × (asked (Replay 5 7 3 (1 ∷ [])) → ⊥)
        × (asked (Replay 5 7 3 (5 ∷ [])) → ⊥) × (asked (Replay 4 7 3 (1 ∷ 0 ∷ [])) → ⊥)
        × (asked (Replay 5 2 3 (1 ∷ 0 ∷ [])) → ⊥) × (asked (Replay 5 7 5 (1 ∷ 0 ∷ [])) → ⊥) }
{}

/// Words of a replay that give its generations alone. They ask neither for a turn nor for the plan of
/// a run of three threads.
pub fn words_of_a_replay_without_turns()
    ensures asked { IsRequestOf (subcommand_of program_app
        (codes "fhpgas" ∷ codes "replay" ∷ codes "--generations" ∷ codes "3" ∷ []))
        (Replay 4 2 3 []) }
    ensures not_asked { let asked = IsRequestOf (subcommand_of program_app
        (codes "fhpgas" ∷ codes "replay" ∷ codes "--generations" ∷ codes "3" ∷ [])) in
        (asked (Replay 4 2 3 (1 ∷ [])) → ⊥) × (asked (Replay 3 128 3 []) → ⊥) }
{}

/// Numbers out of range, and words without a subcommand, make no request. Nor do the options of one
/// subcommand make the request of another.
pub fn words_without_a_request()
    ensures no_subcommand { IsRequestOf (subcommand_of program_app (codes "fhpgas" ∷ [])) Check → ⊥ }
    ensures named_run { (rows : List Row) (stages capacity generations width height : ℕ) →
        IsRequestOf (Some (codes "run", rows))
        (Coarse stages capacity generations None width height) → ⊥ }
    ensures generations { IsRequestOf (subcommand_of program_app (codes "fhpgas" ∷ codes "run"
        ∷ codes "--generations" ∷ codes "18446744073709551616" ∷ []))
        (Run 4 2 18446744073709551616 None) → ⊥ }
    ensures stages { IsRequestOf (subcommand_of program_app (codes "fhpgas" ∷ codes "run"
        ∷ codes "--generations" ∷ codes "1" ∷ codes "--stages" ∷ codes "4294967296" ∷ []))
        (Run 4294967296 2 1 None) → ⊥ }
    ensures turn { IsRequestOf (subcommand_of program_app (codes "fhpgas" ∷ codes "replay"
        ∷ codes "--generations" ∷ codes "1" ∷ codes "4294967296" ∷ []))
        (Replay 4 2 1 (4294967296 ∷ [])) → ⊥ }
    ensures no_column { IsRequestOf (subcommand_of program_app (codes "fhpgas" ∷ codes "coarse"
        ∷ codes "--generations" ∷ codes "1" ∷ codes "--block-width" ∷ codes "0"
        ∷ codes "--block-height" ∷ codes "1" ∷ [])) (Coarse 4 2 1 None 0 1) → ⊥ }
    ensures too_high { IsRequestOf (subcommand_of program_app (codes "fhpgas" ∷ codes "coarse"
        ∷ codes "--generations" ∷ codes "1" ∷ codes "--block-width" ∷ codes "1"
        ∷ codes "--block-height" ∷ codes "4097" ∷ [])) (Coarse 4 2 1 None 1 4097) → ⊥ }
    ensures blocks_without_a_column { IsAllowed (Coarse 4 2 1 None 0 1) → ⊥ }
    ensures blocks_without_a_row { IsAllowed (Coarse 4 2 1 None 1 0) → ⊥ }
{}

/// Words that could not be had ask for nothing, and their fault is no help. A right word has neither
/// fault, a word left out is no help, and one that asks for help or the version is no usage.
pub fn faults_of_words()
    ensures not_had { (error : Error) (request : Request) → AskFor (Err error) request → ⊥ }
    ensures no_help_without_words { (error : Error) (text : String Global) →
        HaveFault (Err error) (Help text) → ⊥ }
    ensures check { (words : IntoIter (String Global) Global) (text : String Global) →
        map string_bytes (into_iter_items words) ≡ codes "fhpgas" ∷ codes "check" ∷ [] →
        AskFor (Ok words) Check × (HaveFault (Ok words) (Usage text) → ⊥)
        × (HaveFault (Ok words) (Help text) → ⊥)
        × (AskFor (Ok words) (Run 4 2 0 None) → ⊥) }
    ensures no_generations { (words : IntoIter (String Global) Global) (text : String Global) →
        map string_bytes (into_iter_items words) ≡ codes "fhpgas" ∷ codes "run" ∷ [] →
        HaveFault (Ok words) (Help text) → ⊥ }
    ensures help { (words : IntoIter (String Global) Global) (text : String Global) →
        map string_bytes (into_iter_items words) ≡ codes "fhpgas" ∷ codes "--help" ∷ [] →
        HaveFault (Ok words) (Usage text) → ⊥ }
    ensures version { (words : IntoIter (String Global) Global) (text : String Global) →
        map string_bytes (into_iter_items words) ≡ codes "fhpgas" ∷ codes "--version" ∷ [] →
        HaveFault (Ok words) (Usage text) → ⊥ }
{}
