ghost use Rattle.std.specs.Prelude.{◌≡◌, ◌<◌, ◌⊎◌, List, ℕ, Option, Ok, Err, length, IfOk, IfErr};
ghost use Rattle.pig_schema.specs.declared.naming.NameFault.TheVariants.{Unknown, Ambiguous};
ghost use Rattle.pig_schema.specs.Names.{AreTwo, HasName, FitsField, Nowhere, IsMeant, IsUnknown, IsAmbiguous, IsNameFault, meaning};

/// A name means one field of a schema and no other, or it is unknown, or it is ambiguous, and never two of
/// these: `meaning` tells which. An ambiguous name is that of two fields, or of none while it fits two.
pub fn a_name_means_one_field()
    ensures place { (fields : List (Option (List ℕ))) (name : List ℕ)
        → IfOk (meaning fields name) (IsMeant fields name) }
    ensures fault { (fields : List (Option (List ℕ))) (name : List ℕ)
        → IfErr (meaning fields name) (IsNameFault fields name) }
    ensures meant { (fields : List (Option (List ℕ))) (name : List ℕ) (place : ℕ)
        → IsMeant fields name place → meaning fields name ≡ Ok place }
    ensures unknown { (fields : List (Option (List ℕ))) (name : List ℕ) → IsUnknown fields name
        → meaning fields name ≡ Err Unknown }
    ensures ambiguous { (fields : List (Option (List ℕ))) (name : List ℕ) → IsAmbiguous fields name
        → meaning fields name ≡ Err Ambiguous }
    ensures within { (fields : List (Option (List ℕ))) (name : List ℕ) (place : ℕ)
        → IsMeant fields name place → place < length fields }
    ensures two { (fields : List (Option (List ℕ))) (name : List ℕ) → IsAmbiguous fields name
        → AreTwo (HasName name) fields ⊎ (Nowhere (HasName name) fields
        × AreTwo (FitsField name) fields) }
{}
