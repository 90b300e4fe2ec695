//! What the definition of the program's ends says of two ends.

ghost use Rattle.std.specs.Prelude.{◌≡◌, ◌≢◌, ◌≤◌, ◌+◌, ◌⊎◌, ℕ, List, length, take, Option, Some, Result, Ok, Err, ⊤};
ghost use Rattle.gas_tool_cli.specs.Requests.{Words, AskFor};
ghost use Rattle.gas_tool_cli.specs.declared.words.Request.{Request};
ghost use Rattle.gas_tool_cli.specs.declared.words.UsageFault.{UsageFault};
ghost use Rattle.gas_tool_io.specs.declared.input.InputFault.{InputFault};
ghost use Rattle.gas_tool_io.specs.declared.input.InputFault.TheVariants as input;
ghost use Rattle.gas_tool.specs.Program.{Ends};
ghost use Rattle.gas_tool.specs.declared.faults.ToolError.{ToolError};
ghost use Rattle.gas_tool.specs.declared.faults.ToolError.TheVariants as tool;
ghost use Rattle.gas_tool.specs.declared.program.Fault.{Fault};
ghost use Rattle.gas_tool.specs.declared.program.Fault.TheVariants.{Usage, Input, Tool};

/// Words and bytes have one end and one text. Take two ends of the same words, of readers that name
/// the same bytes, and of writers that had the same text. Open are a fault of memory, a reader that
/// fails, how much a writer took that fails, the texts of help and usage, and whether words with a
/// request and a fault are answered. What is left of an input that was read is open too.
pub fn words_and_bytes_have_one_end()
    ensures one_text { (words : Words) (bytes old new new2 : List ℕ) (left left2 : Option (List ℕ))
        (done done2 : ⊤) → Ends words (Some bytes) left (Some old) (Some new) (Ok done) →
        Ends words (Some bytes) left2 (Some old) (Some new2) (Ok done2) → new2 ≡ new }
    ensures part_of_it { (words : Words) (bytes old new new2 : List ℕ)
        (left left2 : Option (List ℕ)) (done : ⊤) (n : ℕ) →
        Ends words (Some bytes) left (Some old) (Some new) (Ok done) →
        Ends words (Some bytes) left2 (Some old) (Some new2) (Err (Tool (tool.Write n))) →
        new2 ≡ take (length old + n) new }
    ensures parts { (words : Words) (bytes old new new2 : List ℕ) (left left2 : Option (List ℕ))
        (m n : ℕ) → m ≤ n →
        Ends words (Some bytes) left (Some old) (Some new) (Err (Tool (tool.Write n))) →
        Ends words (Some bytes) left2 (Some old) (Some new2) (Err (Tool (tool.Write m))) →
        new2 ≡ take (length old + m) new }
    ensures answered { (words : Words) (bytes : List ℕ) (left left2 old old2 new new2 : Option (List ℕ))
        (done : ⊤) (fault : ToolError) → Ends words (Some bytes) left old new (Ok done) →
        Ends words (Some bytes) left2 old2 new2 (Err (Tool fault)) →
        (fault ≡ tool.Memory) ⊎ ((n : ℕ) × (fault ≡ tool.Write n)) }
    ensures refused { (words : Words) (bytes : List ℕ) (left left2 old old2 new new2 : Option (List ℕ))
        (fault fault2 : ToolError) → fault ≢ tool.Memory → ((n : ℕ) → fault ≢ tool.Write n) →
        Ends words (Some bytes) left old new (Err (Tool fault)) →
        Ends words (Some bytes) left2 old2 new2 (Err (Tool fault2)) →
        (fault2 ≡ tool.Memory) ⊎ (fault2 ≡ fault) }
    ensures too_long { (words : Words) (bytes : List ℕ) (left left2 old old2 new new2 : Option (List ℕ))
        (done : ⊤) → Ends words (Some bytes) left old new (Err (Input input.TooLong)) →
        Ends words (Some bytes) left2 old2 new2 (Ok done) → ⊥ }
    ensures too_long_or_refused { (words : Words) (bytes : List ℕ)
        (left left2 old old2 new new2 : Option (List ℕ)) (fault : ToolError) →
        Ends words (Some bytes) left old new (Err (Input input.TooLong)) →
        Ends words (Some bytes) left2 old2 new2 (Err (Tool fault)) → ⊥ }
    ensures usage { (words : Words) (bytes left left2 old new new2 : Option (List ℕ))
        (fault fault2 : UsageFault) → Ends words bytes left old new (Err (Usage fault)) →
        Ends words bytes left2 old new2 (Err (Usage fault2)) → (left2 ≡ left) × (new2 ≡ new) }
    ensures input { (words : Words) (bytes left left2 old new new2 : Option (List ℕ))
        (fault fault2 : InputFault) → Ends words bytes left old new (Err (Input fault)) →
        Ends words bytes left2 old new2 (Err (Input fault2)) → new2 ≡ new }
    ensures no_request { (words : Words) (bytes left old new : Option (List ℕ))
        (result : Result ⊤ Fault) → ((request : Request) → AskFor words request → ⊥) →
        Ends words bytes left old new result → (fault : UsageFault) × (result ≡ Err (Usage fault)) }
{}
