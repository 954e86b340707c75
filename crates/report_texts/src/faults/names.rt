//! The names of the errors of a source.

ghost use Rattle.std.specs.Prelude.{◌≡◌};
ghost use Rattle.report_texts.specs.Faults.Names.{expression_name, macro_name, scan_name, statement_name, why_name};

use asm_line::ScanFault;
use asm_macro::MacroFault;
use asm_parse::ExprFault;
use asm_spell::StmtFault;
use zlink::Why;

fn scan_name(fault: ScanFault) -> &'static str
    ensures { result.now ≡ scan_name fault }
{
    match fault {
        ScanFault::BadByte => "BadByte",
        ScanFault::OpenString => "OpenString",
        ScanFault::LineTooLong => "LineTooLong",
        ScanFault::BadNumber => "BadNumber",
        ScanFault::NoMemory => "NoMemory",
    }
}

fn expression_name(fault: ExprFault) -> &'static str
    ensures { result.now ≡ expression_name fault }
{
    match fault {
        ExprFault::Syntax => "Syntax",
        ExprFault::DivideByZero => "DivideByZero",
        ExprFault::LabelDivisor => "LabelDivisor",
        ExprFault::TooDeep => "TooDeep",
        ExprFault::TooLarge => "TooLarge",
        ExprFault::NoMemory => "NoMemory",
    }
}

fn macro_name(fault: MacroFault) -> &'static str
    ensures { result.now ≡ macro_name fault }
{
    match fault {
        MacroFault::Unclosed => "Unclosed",
        MacroFault::Stray => "Stray",
        MacroFault::TooDeep => "TooDeep",
        MacroFault::TooManyLines => "TooManyLines",
        MacroFault::Redefined => "Redefined",
        MacroFault::ConditionNamesLabel => "ConditionNamesLabel",
        MacroFault::LineTooLong => "LineTooLong",
        MacroFault::Scan(fault) => scan_name(fault),
        MacroFault::Expr(fault) => expression_name(fault),
        MacroFault::NoMemory => "NoMemory",
    }
}

fn statement_name(fault: StmtFault) -> &'static str
    ensures { result.now ≡ statement_name fault }
{
    match fault {
        StmtFault::UnknownWord => "UnknownWord",
        StmtFault::BadOperands => "BadOperands",
        StmtFault::ByteRange => "ByteRange",
        StmtFault::NeedsLowOrHigh => "NeedsLowOrHigh",
        StmtFault::ShortNeedsLabel => "ShortNeedsLabel",
        StmtFault::SizeNamesLabel => "SizeNamesLabel",
        StmtFault::BadOrg => "BadOrg",
        StmtFault::NeedsNumber => "NeedsNumber",
        StmtFault::ReservedName => "ReservedName",
        StmtFault::Expr(fault) => expression_name(fault),
        StmtFault::NoMemory => "NoMemory",
    }
}

/// Answers the name of the innermost variant.
pub fn why_name(why: Why) -> &'static str
    ensures { result.now ≡ why_name why }
{
    match why {
        Why::Macro(fault) => macro_name(fault),
        Why::Stmt(fault) => statement_name(fault),
        Why::Duplicate => "Duplicate",
        Why::Undefined => "Undefined",
        Why::PublicNotLabel => "PublicNotLabel",
        Why::EquCircle => "EquCircle",
        Why::TooManyStatements => "TooManyStatements",
        Why::TooManyNames => "TooManyNames",
        Why::NoMemory => "NoMemory",
    }
}
