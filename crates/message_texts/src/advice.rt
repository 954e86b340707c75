//! Words of other assemblers that this one does not have, and what to write instead.

use crate::intel::row_of;

/// A word in upper case, and what to write instead.
type Row = (&'static str, &'static str);

const FILES: &str =
    "leave it out: give a file of EQU lines and macros by `--with FILE`, and other files as sources to `build`";

const INCLUDED_BYTES: &str = "write the bytes of the file as DB lines";

const CHANGING: &str =
    "a name keeps its value: use EQU, a macro with a parameter, or write the lines out";

pub(crate) const DEFINED: &str =
    "`IF DEBUG`, with `DEBUG EQU 1` before it or `build --define DEBUG=1`";

const UNDEFINED: &str = "`IF DEBUG EQ 0`, with `DEBUG EQU 0` before it or `build --define DEBUG=0`";

const PASSES: &str = "decide it yourself, and write one branch";

const LISTS: &str =
    "write the block once for each item, or make it a macro and call that with each item";

const SEGMENTS: &str =
    "leave it out: lines stay in their order, so code that follows data moves up";

const DATA_SEGMENT: &str =
    "leave it out: lines stay in their order; if values follow, write `DB` or `DW`";

const MOVED: &str =
    "write each address in the moved code as its distance from the beginning plus the new address";

const LISTING: &str = "leave it out: the listing has no controls";

const MODE: &str = "leave it out: there is one processor and one output";

const ALIGNED: &str =
    "write the number of bytes as `DS n`, or make the table when the program runs";

const STRUCTURES: &str = "write an EQU for each offset";

const NAMESPACES: &str =
    "leave it out: each source has names of its own, and PUBLIC and EXTRN share labels";

const WIDE: &str = "write a DW line for each half, the low one first";

const SOURCES: [Row; 12] = [
    ("INCLUDE", FILES),
    (".INCLUDE", FILES),
    ("MACLIB", FILES),
    (".INSERT", FILES),
    ("GET", FILES),
    ("INCBIN", INCLUDED_BYTES),
    (".INCBIN", INCLUDED_BYTES),
    ("BINARY", INCLUDED_BYTES),
    ("INSERT", INCLUDED_BYTES),
    ("LIB", FILES),
    ("XLIB", NAMESPACES),
    (".REQUEST", FILES),
];

const DEFINITIONS: [Row; 12] = [
    ("DEFL", CHANGING),
    ("ASET", CHANGING),
    ("SET", CHANGING),
    ("DEFC", "`NAME EQU 5`"),
    (".EQU", "`NAME EQU 5`"),
    (".SET", CHANGING),
    ("DEFINE", "`NAME EQU 5`, or a macro"),
    (".DEFINE", "`NAME EQU 5`, or a macro"),
    ("UNDEFINE", "leave it out: a name keeps its value"),
    ("STRUCT", STRUCTURES),
    ("ENDS", STRUCTURES),
    ("DEFVARS", STRUCTURES),
];

const CONDITIONS: [Row; 27] = [
    ("IFDEF", DEFINED),
    (".IFDEF", DEFINED),
    ("IFNDEF", UNDEFINED),
    (".IFNDEF", UNDEFINED),
    ("IF1", PASSES),
    ("IF2", PASSES),
    ("IFE", "`IF X EQ 0`"),
    ("IFT", "`IF X`"),
    ("IFF", "`IF X EQ 0`"),
    ("IFEQ", "`IF X EQ Y`"),
    ("IFNE", "`IF X NE Y`"),
    ("IFZ", "`IF X EQ 0`"),
    ("IFB", PASSES),
    ("IFNB", PASSES),
    ("IFIDN", PASSES),
    ("IFDIF", PASSES),
    ("COND", "`IF X`"),
    ("ENDC", "`ENDIF`"),
    (
        "ELSEIF",
        "`ELSE`, an IF on a line of its own, and an ENDIF more",
    ),
    (
        "ELIF",
        "`ELSE`, an IF on a line of its own, and an ENDIF more",
    ),
    (".IF", "`IF X`"),
    (".ELSE", "`ELSE`"),
    (".ENDIF", "`ENDIF`"),
    ("EXITM", "put the lines after it between IF and ENDIF"),
    (".SHIFT", LISTS),
    ("FI", "`ENDIF`"),
    ("IFUSED", PASSES),
];

const REPETITIONS: [Row; 18] = [
    ("IRP", LISTS),
    ("IRPC", LISTS),
    (".IRP", LISTS),
    ("DUP", "`REPT n` .. `ENDM`"),
    ("EDUP", "`ENDM`"),
    ("REPEAT", "`REPT n` .. `ENDM`"),
    (".REPT", "`REPT n` .. `ENDM`"),
    ("ENDR", "`ENDM`"),
    (".ENDR", "`ENDM`"),
    ("ENDMACRO", "`ENDM`"),
    (".ENDM", "`ENDM`"),
    ("MEND", "`ENDM`"),
    (".MACRO", "`NAME MACRO p,..`"),
    ("WHILE", "`REPT n` .. `ENDM`"),
    ("WEND", "`ENDM`"),
    ("PROC", NAMESPACES),
    ("ENDP", NAMESPACES),
    ("MODULE", NAMESPACES),
];

const PARTS: [Row; 25] = [
    ("ASEG", SEGMENTS),
    ("CSEG", SEGMENTS),
    ("DSEG", SEGMENTS),
    ("COMMON", SEGMENTS),
    ("SECTION", SEGMENTS),
    ("SEGMENT", SEGMENTS),
    (".AREA", SEGMENTS),
    ("AREA", SEGMENTS),
    (".CODE", SEGMENTS),
    (".DATA", SEGMENTS),
    ("DATA", DATA_SEGMENT),
    (".SECTION", SEGMENTS),
    (".PHASE", MOVED),
    (".DEPHASE", MOVED),
    ("PHASE", MOVED),
    ("DEPHASE", MOVED),
    ("UNPHASE", MOVED),
    ("DISP", MOVED),
    ("ENT", MOVED),
    ("RORG", MOVED),
    ("ALIGN", ALIGNED),
    (".ALIGN", ALIGNED),
    ("ENDMODULE", NAMESPACES),
    (".ORG", "`ORG 0100H`, or nothing: a program starts there"),
    ("LOC", "`ORG 0100H`, or nothing: a program starts there"),
];

const LISTINGS: [Row; 35] = [
    ("TITLE", LISTING),
    (".TITLE", LISTING),
    ("$TITLE", LISTING),
    ("SUBTTL", LISTING),
    ("SUBTITLE", LISTING),
    (".SUBTTL", LISTING),
    ("PAGE", LISTING),
    (".PAGE", LISTING),
    ("EJECT", LISTING),
    ("LIST", LISTING),
    ("NOLIST", LISTING),
    (".LIST", LISTING),
    (".XLIST", LISTING),
    (".NOLIST", LISTING),
    (".LALL", LISTING),
    (".SALL", LISTING),
    (".XALL", LISTING),
    (".LFCOND", LISTING),
    (".SFCOND", LISTING),
    (".TFCOND", LISTING),
    (".CREF", LISTING),
    (".XCREF", LISTING),
    (".PRINTX", LISTING),
    ("PRINT", LISTING),
    (".COMMENT", "write a `;` before each line of the comment"),
    ("NAME", MODE),
    (".RADIX", "write the base with each number: `0FFH`, `101B`"),
    ("RADIX", "write the base with each number: `0FFH`, `101B`"),
    (".8080", "the instructions are those of the Z80"),
    (".180", MODE),
    (".CPU", MODE),
    ("CPU", MODE),
    ("DEVICE", MODE),
    ("OUTPUT", MODE),
    ("SAVEBIN", MODE),
];

const DATA: [Row; 43] = [
    (".DB", "`DB`"),
    (".BYTE", "`DB`"),
    ("BYTE", "`DB`"),
    ("DM", "`DB`"),
    (".DEFB", "`DB`"),
    (".ASCII", "`DB`"),
    ("ASCII", "`DB`"),
    (".TEXT", "`DB`"),
    ("TEXT", "`DB`"),
    ("ASC", "`DB`"),
    (".ASCIZ", "`DB 'text',0`"),
    ("ASCIZ", "`DB 'text',0`"),
    ("DEFZ", "`DB 'text',0`"),
    ("STRINGZ", "`DB 'text',0`"),
    (".ASCIS", "`DB 'tex','t'+80H`"),
    ("DC", "`DB 'tex','t'+80H`"),
    ("DZ", "`DB 'text',0`"),
    (".DW", "`DW`"),
    (".WORD", "`DW`"),
    ("WORD", "`DW`"),
    ("DA", "`DW`"),
    (".DEFW", "`DW`"),
    ("ADDR", "`DW`"),
    ("DEFD", WIDE),
    ("DD", WIDE),
    (".DS", "`DS n`"),
    (".BLKB", "`DS n`"),
    (".BLKW", "`DS 2*n`"),
    ("RMB", "`DS n`"),
    ("RESB", "`DS n`"),
    ("BLOCK", "`DS n`"),
    (".BLOCK", "`DS n`"),
    ("SPACE", "`DS n`"),
    (".SPACE", "`DS n`"),
    (".GLOBL", "`PUBLIC`, and `EXTRN` where the label is used"),
    (".GLOBAL", "`PUBLIC`, and `EXTRN` where the label is used"),
    ("GLOBL", "`PUBLIC`, and `EXTRN` where the label is used"),
    ("XDEF", "`PUBLIC`"),
    ("ENTRY", "`PUBLIC`"),
    ("EXT", "`EXTRN`"),
    ("EXTERN", "`EXTRN`"),
    (".EXTERN", "`EXTRN`"),
    ("XREF", "`EXTRN`"),
];

/// What to write instead of a directive of another assembler, given in upper case; None if it is none that is known.
pub fn directive_instead(word: &str) -> Option<&'static str> {
    row_of(&SOURCES, word)
        .or(row_of(&DEFINITIONS, word))
        .or(row_of(&CONDITIONS, word))
        .or(row_of(&REPETITIONS, word))
        .or(row_of(&PARTS, word))
        .or(row_of(&LISTINGS, word))
        .or(row_of(&DATA, word))
}

/// Directives of other assemblers that are none without an operand, and that are names which a program may have.
const WITH_OPERANDS: [&str; 24] = [
    "PRINT", "NAME", "TITLE", "GET", "INSERT", "BINARY", "LIB", "DEFINE", "OUTPUT", "DEVICE",
    "CPU", "TEXT", "BYTE", "WORD", "ADDR", "BLOCK", "SPACE", "ENTRY", "DATA", "ALIGN", "DISP",
    "AREA", "SECTION", "SEGMENT",
];

/// Whether a word in upper case is a directive of another assembler only with an operand.
pub fn needs_operands(word: &str) -> bool {
    lists(&WITH_OPERANDS, word)
}

/// What a word of another assembler opens.
#[derive(Clone, Copy)]
pub enum Opening {
    Condition,
    Repetition,
}

/// The words of other assemblers that open a condition.
const OPEN_CONDITION: [&str; 19] = [
    "IFDEF", ".IFDEF", "IFNDEF", ".IFNDEF", "IF1", "IF2", "IFE", "IFT", "IFF", "IFEQ", "IFNE",
    "IFZ", "IFB", "IFNB", "IFIDN", "IFDIF", "COND", ".IF", "IFUSED",
];

/// The words of other assemblers that open a repetition or a macro.
const OPEN_REPETITION: [&str; 8] = [
    "IRP", "IRPC", ".IRP", "DUP", "REPEAT", ".REPT", ".MACRO", "WHILE",
];

/// The words of other assemblers that close a condition.
const CLOSE_CONDITION: [&str; 3] = ["ENDC", ".ENDIF", "FI"];

/// The words of other assemblers that close a repetition or a macro.
const CLOSE_REPETITION: [&str; 7] = ["EDUP", "ENDR", ".ENDR", "ENDMACRO", ".ENDM", "MEND", "WEND"];

/// Whether a list has a word.
fn lists(words: &[&str], word: &str) -> bool {
    for own in words {
        if *own == word {
            return true;
        }
    }
    false
}

/// Whether a word in upper case opens such a block in another assembler.
pub fn opens(opening: Opening, word: &str) -> bool {
    match opening {
        Opening::Condition => lists(&OPEN_CONDITION, word),
        Opening::Repetition => lists(&OPEN_REPETITION, word),
    }
}

/// Whether a word in upper case closes such a block in another assembler.
pub fn closes(opening: Opening, word: &str) -> bool {
    match opening {
        Opening::Condition => lists(&CLOSE_CONDITION, word),
        Opening::Repetition => lists(&CLOSE_REPETITION, word),
    }
}

const UNDOCUMENTED: [Row; 16] = [
    ("SLL", "`SCF` and `RL r`"),
    ("SL1", "`SCF` and `RL r`"),
    ("SLI", "`SCF` and `RL r`"),
    ("SLS", "`SCF` and `RL r`"),
    ("INF", "`IN A,(C)`"),
    ("MLT", "it is an instruction of the Z180"),
    ("TST", "it is an instruction of the Z180"),
    ("IN0", "it is an instruction of the Z180"),
    ("OUT0", "it is an instruction of the Z180"),
    ("SLP", "it is an instruction of the Z180"),
    ("TSTIO", "it is an instruction of the Z180"),
    ("OTIM", "it is an instruction of the Z180"),
    ("OTDM", "it is an instruction of the Z180"),
    ("OTIMR", "it is an instruction of the Z180"),
    ("OTDMR", "it is an instruction of the Z180"),
    ("SWAP", "in A: four times `RLCA`"),
];

/// What to write instead of an undocumented instruction, given in upper case; None if it is none.
pub fn undocumented(word: &str) -> Option<&'static str> {
    row_of(&UNDOCUMENTED, word)
}

/// The registers that only undocumented instructions have.
const REGISTERS: [&str; 14] = [
    "IXH", "IXL", "IYH", "IYL", "HX", "LX", "HY", "LY", "XH", "XL", "YH", "YL", "IXU", "IYU",
];

/// Whether a name in upper case is a register that only undocumented instructions have.
pub fn is_undocumented_register(name: &str) -> bool {
    lists(&REGISTERS, name)
}
