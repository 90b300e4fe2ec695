//! What the definitions of a request say of all words.
ghost use Rattle.std.specs.Prelude.{◌≡◌};
ghost use Rattle.gas_tool_cli.specs.Requests.{AskFor, Words};
ghost use Rattle.gas_tool_cli.specs.declared.words.Request.{Request};

/// Words ask for at most one request.
pub fn words_ask_for_one_request()
    ensures one { (words : Words) (a b : Request) → AskFor words a → AskFor words b → a ≡ b }
{}
