//! Macros for rows of the opcode table whose opcodes differ only in a register or a register pair. They exist only for speed, as the
//! table does.

/// Matches the opcode against rows of eight, for B C D E H L (HL) A. A row names two functions: the first is called with the register as
/// its last argument, the second for (HL).
macro_rules! operand_rows {
    ($cpu:ident, $memory:ident, $opcode:ident;
     $($b:literal $c:literal $d:literal $e:literal $h:literal $l:literal $hl:literal $a:literal
       => $turn:ident ($($argument:expr)?) / $turn_at_hl:ident ($($other:expr)?);)*) => {
        match $opcode {
            $(
                $b => Some($turn($cpu, $memory, $($argument,)? Register::B)),
                $c => Some($turn($cpu, $memory, $($argument,)? Register::C)),
                $d => Some($turn($cpu, $memory, $($argument,)? Register::D)),
                $e => Some($turn($cpu, $memory, $($argument,)? Register::E)),
                $h => Some($turn($cpu, $memory, $($argument,)? Register::H)),
                $l => Some($turn($cpu, $memory, $($argument,)? Register::L)),
                $hl => Some($turn_at_hl($cpu, $memory $(, $other)?)),
                $a => Some($turn($cpu, $memory, $($argument,)? Register::A)),
            )*
            _ => None,
        }
    };
}

/// Matches the opcode against rows of four, for BC DE HL SP.
macro_rules! pair_rows {
    ($cpu:ident, $memory:ident, $opcode:ident;
     $($bc:literal $de:literal $hl:literal $sp:literal => $turn:ident;)*) => {
        match $opcode {
            $(
                $bc => Some($turn($cpu, $memory, RegisterPair::Bc)),
                $de => Some($turn($cpu, $memory, RegisterPair::De)),
                $hl => Some($turn($cpu, $memory, RegisterPair::Hl)),
                $sp => Some($turn($cpu, $memory, RegisterPair::Sp)),
            )*
            _ => None,
        }
    };
}

/// Matches the opcode against rows of eight as `operand_rows` does. But the first row is of a function that stores a register in (HL),
/// and of another one for the opcode of (HL), which is HALT.
macro_rules! stored_rows {
    ($cpu:ident, $memory:ident, $opcode:ident;
     $sb:literal $sc:literal $sd:literal $se:literal $sh:literal $sl:literal $between:literal $sa:literal
       => $store:ident / $other:ident;
     $($b:literal $c:literal $d:literal $e:literal $h:literal $l:literal $hl:literal $a:literal
       => $turn:ident ($argument:expr) / $turn_at_hl:ident ($same:expr);)*) => {
        match $opcode {
            $(
                $b => Some($turn($cpu, $memory, $argument, Register::B)),
                $c => Some($turn($cpu, $memory, $argument, Register::C)),
                $d => Some($turn($cpu, $memory, $argument, Register::D)),
                $e => Some($turn($cpu, $memory, $argument, Register::E)),
                $h => Some($turn($cpu, $memory, $argument, Register::H)),
                $l => Some($turn($cpu, $memory, $argument, Register::L)),
                $hl => Some($turn_at_hl($cpu, $memory, $same)),
                $a => Some($turn($cpu, $memory, $argument, Register::A)),
            )*
            $sb => Some($store($cpu, $memory, Register::B)),
            $sc => Some($store($cpu, $memory, Register::C)),
            $sd => Some($store($cpu, $memory, Register::D)),
            $se => Some($store($cpu, $memory, Register::E)),
            $sh => Some($store($cpu, $memory, Register::H)),
            $sl => Some($store($cpu, $memory, Register::L)),
            $sa => Some($store($cpu, $memory, Register::A)),
            $between => Some($other($cpu, $memory)),
            _ => None,
        }
    };
}

/// Matches the opcode against rows of one opcode.
macro_rules! single_rows {
    ($cpu:ident, $memory:ident, $opcode:ident; $($one:literal => $turn:ident ($($argument:expr),*);)*) => {
        match $opcode {
            $($one => Some($turn($cpu, $memory $(, $argument)*)),)*
            _ => None,
        }
    };
}

pub(crate) use operand_rows;
pub(crate) use pair_rows;
pub(crate) use single_rows;
pub(crate) use stored_rows;
