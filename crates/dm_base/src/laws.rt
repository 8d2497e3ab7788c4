// What the forms of fields and their values say together.
ghost use Rattle.dm_base.specs.Laws.{HexHasBytes, NonceHasBytes, NumHasNumber, HexIsReadAgain};

/// Law: a text is a `Hex`, a `Nonce` or a `Num` exactly where it has a value.
#[tactic(auto, using(crate::proofs::FieldValues::hex_has_bytes, crate::proofs::FieldValues::nonce_has_bytes, crate::proofs::FieldValues::num_has_number))]
pub fn forms_have_values()
    ensures hex { HexHasBytes }
    ensures nonce { NonceHasBytes }
    ensures num { NumHasNumber }
{}

/// Law: the `Hex` that is written of bytes stands for these bytes.
#[tactic(auto, using(crate::proofs::FieldValues::hex_is_read_again))]
pub fn hex_is_read_again()
    ensures { HexIsReadAgain }
{}
