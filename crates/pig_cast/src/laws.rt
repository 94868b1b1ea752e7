ghost use Rattle.std.specs.Prelude.{◌≡◌, ◌↔◌, ℕ, List};
ghost use Rattle.pig_value.specs.Casts.{cast_of};
ghost use Rattle.pig_value.specs.Fields.{IsField};
ghost use Rattle.pig_value.specs.FieldReader.{field_value};
ghost use Rattle.pig_value.specs.Kinds.{IsOf};
ghost use Rattle.pig_value.specs.Leaves.{AreBytes};
ghost use Rattle.pig_value.specs.Texts.{HasNoLf, IsLineFree, text_of};
ghost use Rattle.pig_value.specs.Trees.{Tree, KindTree};
ghost use Rattle.pig_value.specs.Valid.{IsValue};
ghost use Rattle.pig_cast.specs.Plain.{IsPlainField};

/// Every field reads as exactly one value, that of the function which the contracts cite.
pub fn a_field_has_one_value()
    ensures { (k : KindTree) (bytes : List ℕ) (v : Tree)
        → (IsField k bytes v ↔ (v ≡ field_value k bytes)) }
{}

/// What is read is of the kind that it is read as, and from bytes it is a value: a bag is sorted, the keys of a
/// map ascend and differ, a number fits its width, and a chararray is UTF-8.
pub fn fields_are_of_their_kind()
    ensures kind { (k : KindTree) (bytes : List ℕ) → IsOf (field_value k bytes) k }
    ensures value { (k : KindTree) (bytes : List ℕ) → AreBytes bytes
        → IsValue (field_value k bytes) }
{}

/// A cast gives a value of the kind that it casts to, and of a value it gives a value.
pub fn casts_are_of_their_kind()
    ensures kind { (k : KindTree) (v : Tree) → IsOf (cast_of k v) k }
    ensures value { (k : KindTree) (v : Tree) → IsValue v → IsValue (cast_of k v) }
{}

/// What is read from bytes without an LF holds none, and neither does what a cast makes of a value without
/// one.
pub fn fields_are_line_free()
    ensures field { (k : KindTree) (bytes : List ℕ) → HasNoLf bytes
        → IsLineFree (field_value k bytes) }
    ensures cast { (k : KindTree) (v : Tree) → IsLineFree v → IsLineFree (cast_of k v) }
{}

/// A plain value is read again from its text: no text, bytearray or key within brackets holds a bracket or a
/// comma, no text and no bytearray is empty, no key holds a `#`, and no bag has an order of its own.
pub fn plain_fields_read_back()
    ensures { (k : KindTree) (v : Tree) → IsOf v k → IsValue v → IsPlainField v
        → field_value k (text_of v) ≡ v }
{}
