ghost use Rattle.std.specs.Prelude.{◌≡◌, ◌≤◌, ◌⊎◌, List, ℕ, length};
ghost use Rattle.pig_syntax.specs.declared.tokens.Token.{Token};
ghost use Rattle.pig_syntax.specs.Tokens.{AreTokens, IsBadAt, Reads, Stops};

/// What a script's bytes decide: read as far as they go they have one list of tokens, whether that is the
/// whole script or ends where no token begins. There are at most as many tokens as bytes.
pub fn a_script_has_one_reading()
    ensures reading { (total : ℕ) (bytes : List ℕ) (ts us : List Token) (a b : List ℕ)
        → Reads total bytes ts a → Stops a → Reads total bytes us b → Stops b
        → (ts ≡ us) × (a ≡ b) }
    ensures tokens { (script : List ℕ) (ts us : List Token) → AreTokens script ts
        → AreTokens script us → ts ≡ us }
    ensures tokens_or_bad { (script : List ℕ) (ts : List Token) (offset : ℕ) → AreTokens script ts
        → IsBadAt script offset → ⊥ }
    ensures place { (script : List ℕ) (offset other : ℕ) → IsBadAt script offset
        → IsBadAt script other → offset ≡ other }
    ensures some { (script : List ℕ) → ((ts : List Token) × AreTokens script ts)
        ⊎ ((offset : ℕ) × IsBadAt script offset) }
    ensures few { (script : List ℕ) (ts : List Token) → AreTokens script ts
        → length ts ≤ length script }
{}
