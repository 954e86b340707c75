//! Names that no program defines.

ghost use Rattle.std.specs.Prelude.{◌≡◌};
ghost use Rattle.common.specs.Words.{is_reserved};

/// Whether a name in upper case is a register, a condition or an operator, which no program defines.
pub fn is_reserved(name: &[u8]) -> bool
    ensures { result ≡ is_reserved name.now }
{
    match name {
        b"A" | b"B" | b"C" | b"D" | b"E" | b"H" => true,
        b"L" | b"I" | b"R" | b"Z" | b"P" | b"M" => true,
        b"AF" | b"BC" | b"DE" | b"HL" | b"IX" | b"IY" => true,
        b"SP" | b"NZ" | b"NC" | b"PO" | b"PE" => true,
        b"EQ" | b"NE" | b"LT" | b"LE" | b"GT" | b"GE" => true,
        b"OR" | b"LOW" | b"MOD" | b"SHL" | b"SHR" | b"NOT" => true,
        b"AND" | b"XOR" | b"HIGH" => true,
        _ => false,
    }
}
