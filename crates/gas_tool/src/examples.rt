//! Worked examples: ends that the program does not have, and the rows that README prints. Each can be
//! checked by hand.

ghost use Rattle.std.specs.Prelude.{◌≡◌, ◌<◌, ℕ, [], ◌∷◌, List, length, Option, Some, Ok, Err, String, ⊤};
ghost use Rattle.std.specs.Global.{Global};
ghost use Rattle.std.specs.declared.io.Error.{Error};
ghost use Rattle.gas_geom.specs.Channel.{free_channel};
ghost use Rattle.gas_geom.specs.Fhp1.{fhp1};
ghost use Rattle.gas_rows.specs.declared.chirality.Chirality.TheVariants.{Left};
ghost use Rattle.gas_stage.specs.Evolution.{lattice_after};
ghost use Rattle.gas_tool_cli.specs.Requests.{AskFor, Words};
ghost use Rattle.gas_tool_cli.specs.declared.words.Request.TheVariants.{Check};
ghost use Rattle.gas_tool_cli.specs.declared.words.UsageFault.{UsageFault};
ghost use Rattle.gas_tool_cli.specs.declared.words.UsageFault.TheVariants.{Help};
ghost use Rattle.gas_tool_io.specs.declared.input.InputFault.{InputFault};
ghost use Rattle.gas_tool_io.specs.declared.input.InputFault.TheVariants as input;
ghost use Rattle.gas_tool.specs.Program.{Ends};
ghost use Rattle.gas_tool.specs.declared.faults.ToolError.{ToolError};
ghost use Rattle.gas_tool.specs.declared.faults.ToolError.TheVariants as tool;
ghost use Rattle.gas_tool.specs.declared.program.Fault.TheVariants.{Usage, Input, Tool};

/// Ends with a fault of usage or of input: the input is read before a fault of usage, a text is
/// printed before either, an input of one byte is too long, and words that could not be had are
/// taken for a question for help.
pub fn no_ends_before_the_request()
    ensures read { (words : Words) (fault : UsageFault) (old new : Option (List ℕ)) →
        Ends words (Some (65 ∷ [])) (Some []) old new (Err (Usage fault)) → ⊥ }
    ensures printed { (words : Words) (fault : UsageFault) (bytes left : Option (List ℕ)) →
        Ends words bytes left (Some []) (Some (65 ∷ [])) (Err (Usage fault)) → ⊥ }
    ensures printed_before_input { (words : Words) (fault : InputFault)
        (bytes left : Option (List ℕ)) →
        Ends words bytes left (Some []) (Some (65 ∷ [])) (Err (Input fault)) → ⊥ }
    ensures too_long { (words : Words) (left old new : Option (List ℕ)) →
        Ends words (Some (65 ∷ [])) left old new (Err (Input input.TooLong)) → ⊥ }
    ensures help { (error : Error) (text : String Global) (bytes left old new : Option (List ℕ)) →
        Ends (Err error) bytes left old new (Err (Usage (Help text))) → ⊥ }
    ensures read_without_words { (error : Error) (fault : InputFault)
        (bytes left old new : Option (List ℕ)) →
        Ends (Err error) bytes left old new (Err (Input fault)) → ⊥ }
{}

/// Ends with an answer or a fault of a request: words that could not be had are answered, and so is
/// an input that is too long, as if another text had been read. A summary ends with a fault of
/// replays. A text is printed before a fault, or more or less of it than a writer is said to have
/// taken.
pub fn no_ends_of_a_request()
    ensures answered_without_words { (error : Error) (bytes left old new : Option (List ℕ))
        (done : ⊤) → Ends (Err error) bytes left old new (Ok done) → ⊥ }
    ensures another_text { (words : Words) (bytes : List ℕ) (left old new : Option (List ℕ))
        (done : ⊤) → 67108864 < length bytes →
        Ends words (Some bytes) left old new (Ok done) → ⊥ }
    ensures fault_of_another_text { (words : Words) (bytes : List ℕ) (fault : ToolError)
        (left old new : Option (List ℕ)) → 67108864 < length bytes →
        Ends words (Some bytes) left old new (Err (Tool fault)) → ⊥ }
    ensures another_fault { (words : Words) (bytes left old new : Option (List ℕ)) →
        AskFor words Check → Ends words bytes left old new (Err (Tool tool.MorePasses)) → ⊥ }
    ensures printed { (words : Words) (bytes left : Option (List ℕ)) →
        Ends words bytes left (Some []) (Some (65 ∷ [])) (Err (Tool tool.MorePasses)) → ⊥ }
    ensures printed_before_memory { (words : Words) (bytes left : Option (List ℕ)) →
        Ends words bytes left (Some []) (Some (65 ∷ [])) (Err (Tool tool.Memory)) → ⊥ }
    ensures more_than_taken { (words : Words) (bytes left : Option (List ℕ)) →
        Ends words bytes left (Some []) (Some (65 ∷ [])) (Err (Tool (tool.Write 0))) → ⊥ }
    ensures less_than_taken { (words : Words) (bytes left : Option (List ℕ)) →
        Ends words bytes left (Some []) (Some []) (Err (Tool (tool.Write 1))) → ⊥ }
    ensures text_lost { (words : Words) (bytes left : Option (List ℕ)) (done : ⊤) →
        Ends words bytes left (Some (65 ∷ [])) (Some []) (Ok done) → ⊥ }
{}

/// Two particles head on, as in `scenes/head_on.toml`: the rows after one generation are those that
/// README prints.
pub fn head_on()
    ensures rows { (lattice_after fhp1 Left 0 (record {
      channel = free_channel 4 3;
      rows = (0x00 ∷ 0x00 ∷ 0x00 ∷ 0x00 ∷ []) ∷ (0x00 ∷ 0x09 ∷ 0x00 ∷ 0x00 ∷ [])
          ∷ (0x00 ∷ 0x00 ∷ 0x00 ∷ 0x00 ∷ []) ∷ [];
    }) 1).rows
        ≡ (0x00 ∷ 0x00 ∷ 0x02 ∷ 0x00 ∷ []) ∷ (0x00 ∷ 0x00 ∷ 0x00 ∷ 0x00 ∷ [])
        ∷ (0x00 ∷ 0x10 ∷ 0x00 ∷ 0x00 ∷ []) ∷ [] }
{}
