//! Laws about the text of instructions, as functions that do nothing. A caller calls one to use its clauses.
ghost use Rattle.std.specs.Prelude.{◌≡◌, ℕ, [], None, IfSome, true};
ghost use Rattle.z80_form.specs.Types.{Instr};
ghost use Rattle.z80_form.specs.declared.field.Field.TheVariants as fields;
ghost use Rattle.z80_form.specs.Numbers.{allows, has_displacement, number_field, with_number};
ghost use Rattle.state_text.specs.Printing.Instructions.{instr_displacement, instr_number, number_with_sign};
ghost use Rattle.state_text.specs.Printing.Fields.{field_text};

/// The numbers in an instruction's text are those that the assembler puts into its fields.
pub fn printed_numbers()
    ensures number { (instr : Instr) (value : ℕ) → IfSome (number_field instr) (λ field.
        allows field value ≡ true → instr_number (with_number field value instr) ≡ field_text field value) }
    ensures displacement { (instr : Instr) (value : ℕ) → has_displacement instr ≡ true →
        number_with_sign (instr_displacement (with_number fields.Displacement value instr)) ≡ field_text fields.Displacement value }
    // An instruction without such a field has no such number.
    ensures none { (instr : Instr) → number_field instr ≡ None → instr_number instr ≡ [] }
{}
