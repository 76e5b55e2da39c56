//! Laws of lists of fields.

ghost use Rattle.std.specs.Prelude.{◌≡◌, ℕ, [], ◌∷◌, ◌++◌, List};
ghost use Rattle.pb_fields.specs.Field.{BeginsWithField, WireField};
ghost use Rattle.pb_fields.specs.Faults.{BeginsNoField};
ghost use Rattle.pb_fields.specs.Message.{BeginsWithFields, Encodes};
ghost use Rattle.pb_fields.specs.Encoding.{Fits, encoding};

/// A law: bytes stand for one list of fields at most.
pub fn fields_are_one()
    ensures { (bs : List ℕ) (fields others : List WireField) → Encodes bs fields
        → Encodes bs others
        → fields ≡ others }
{}

/// A law: where bytes begin with some fields and the rest begins with one more, they begin with all of these.
pub fn fields_go_on()
    ensures { (bs rest behind : List ℕ) (fields : List WireField) (field : WireField)
        → BeginsWithFields bs fields rest → BeginsWithField rest field behind
        → BeginsWithFields bs (fields ++ field ∷ []) behind }
{}

/// A law: where bytes begin with some fields and the rest begins with none, they stand for no list of fields.
pub fn fields_stop()
    ensures { (bs rest : List ℕ) (fields others : List WireField)
        → BeginsWithFields bs fields rest → BeginsNoField rest → Encodes bs others → ⊥ }
{}

/// A law: what was written is read again, whatever follows.
pub fn written_is_read()
    ensures field { (field : WireField) (rest : List ℕ) → Fits field
        → BeginsWithField (encoding field ++ rest) field rest }
    ensures fields { (field : WireField) (fields : List WireField) (rest : List ℕ) → Fits field
        → Encodes rest fields
        → Encodes (encoding field ++ rest) (field ∷ fields) }
{}
