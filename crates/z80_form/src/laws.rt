//! Laws about the rows, as functions that do nothing. A caller calls one to use its clauses.
ghost use Rattle.std.specs.Prelude.{◌≡◌, ◌≢◌, ◌⊎◌, ◌↔◌, ◌%◌, ℕ, List, [], ◌∷◌, ◌++◌, Some, None, All, true, length, slice_set};
ghost use Rattle.std.specs.List.{Contains};
ghost use Rattle.z80_instr.specs.Table.{canonical, word};
ghost use Rattle.z80_instr.specs.Codes.{in_range};
ghost use Rattle.z80_form.specs.Types.{Instr, Mnemonic, Form, Field};
ghost use Rattle.z80_form.specs.Rows.{row};
ghost use Rattle.z80_form.specs.Numbers.{allows, with_zeros, field_of, fields, fields_of, number_field, number_fields, displacement_fields, with_number, with_numbers, but_last, has_displacement, HasFields, HasNumbers};
ghost use Rattle.z80_form.specs.Spelling.{Spells, instruction_of};

mod words;

pub use words::named;

/// Every instruction whose numbers are within their types is that of its row with these numbers put in.
pub fn complete()
    ensures { (instr : Instr) → in_range instr ≡ true → (numbers : List (Field × ℕ)) × HasNumbers instr numbers }
{}

/// `instruction_of` finds the instruction with zeros for numbers that this mnemonic and these operands are a source form of.
pub fn spelled()
    ensures instr { (mnemonic : Mnemonic) (operands : List Form) (instr : Instr) →
        (instruction_of mnemonic operands ≡ Some instr) ↔ (Spells mnemonic operands instr × (with_zeros instr ≡ instr)) }
    ensures none { (mnemonic : Mnemonic) (operands : List Form) →
        (instruction_of mnemonic operands ≡ None) ↔ ((instr : Instr) → Spells mnemonic operands instr → ⊥) }
    // Each expression fills a field.
    ensures fields { (mnemonic : Mnemonic) (operands : List Form) (instr : Instr) →
        instruction_of mnemonic operands ≡ Some instr → HasFields instr operands }
    // No instruction has three operands.
    ensures few { (mnemonic : Mnemonic) (a b c : Form) (more : List Form) →
        instruction_of mnemonic (a ∷ b ∷ c ∷ more) ≡ None }
{}

/// A mnemonic and operands are the source form of one instruction, apart from its numbers, and so its count of bytes does not
/// depend on these.
pub fn one_instruction()
    ensures instr { (mnemonic : Mnemonic) (operands : List Form) (first second : Instr) →
        Spells mnemonic operands first → Spells mnemonic operands second → with_zeros first ≡ with_zeros second }
    ensures size { (mnemonic : Mnemonic) (operands : List Form) (first second : Instr) →
        Spells mnemonic operands first → Spells mnemonic operands second →
        length (canonical first) ≡ length (canonical second) }
{}

/// The expressions of an instruction fill a displacement and one other field, if it has them; only the other one if `(IX)` is
/// written for `(IX+0)`.
pub fn fields()
    ensures row { (instr : Instr) → (fields instr ≡ displacement_fields instr ++ number_fields instr)
        ⊎ (fields instr ≡ number_fields instr ++ displacement_fields instr) }
    ensures number { (instr : Instr) → number_field instr ≢ Some Field.Displacement }
    ensures spelled { (mnemonic : Mnemonic) (operands : List Form) (instr : Instr) → Spells mnemonic operands instr →
        (fields_of instr operands ≡ fields instr) ⊎ (fields_of instr operands ≡ number_fields instr) }
{}

/// Putting a number in changes neither the source form apart from that number, nor what each operand's expression fills, nor the
/// count of bytes. An allowed number is within its type.
pub fn kept()
    ensures row { (field : Field) (value : ℕ) (instr : Instr) → row (with_number field value instr) ≡ row instr }
    ensures field { (field : Field) (value : ℕ) (instr : Instr) (form : Form) →
        field_of (with_number field value instr) form ≡ field_of instr form }
    ensures size { (field : Field) (value : ℕ) (instr : Instr) →
        length (canonical (with_number field value instr)) ≡ length (canonical instr) }
    ensures range { (field : Field) (value : ℕ) (instr : Instr) → allows field value ≡ true →
        in_range instr ≡ true → in_range (with_number field value instr) ≡ true }
    ensures zeros { (instr : Instr) → (row (with_zeros instr) ≡ row instr) × (in_range (with_zeros instr) ≡ true) }
    // A source form of an instruction is also one of the instruction with other numbers in its operands' fields.
    ensures spells { (mnemonic : Mnemonic) (operands : List Form) (instr : Instr) (numbers : List (Field × ℕ)) →
        Spells mnemonic operands instr → All (λ n. Contains (fields_of instr operands) n.0) numbers →
        Spells mnemonic operands (with_numbers numbers instr) }
{}

/// Where a number is in the bytes: a byte, a word or a distance is last, and a displacement is the third byte.
pub fn places()
    ensures byte { (instr : Instr) (value : ℕ) → number_field instr ≡ Some Field.Byte →
        canonical (with_number Field.Byte value instr) ≡ but_last 1 (canonical instr) ++ value % 256 ∷ [] }
    ensures word { (instr : Instr) (value : ℕ) → number_field instr ≡ Some Field.Word →
        canonical (with_number Field.Word value instr) ≡ but_last 2 (canonical instr) ++ word value }
    ensures distance { (instr : Instr) (value : ℕ) → number_field instr ≡ Some Field.Distance →
        canonical (with_number Field.Distance value instr) ≡ but_last 1 (canonical instr) ++ value % 256 ∷ [] }
    ensures displacement { (instr : Instr) (value : ℕ) → has_displacement instr ≡ true →
        canonical (with_number Field.Displacement value instr) ≡ slice_set (canonical instr) 2 (value % 256) }
{}
