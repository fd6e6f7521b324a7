//! What may be expected where a list of tokens stops being a file.

/// What is expected.
#[derive(Clone, Copy)]
pub enum Expected {
    Operand,
    Value,
    Type,
    DeclaredType,
    ParameterType,
    Length,
    Index,
    IndexEnd,
    SelectedName,
    ElementEnd,
    FieldEnd,
    ResultEnd,
    Statement,
    BehindName,
    BehindJump,
    FunctionName,
    FunctionOpening,
    Import,
    ImportPath,
    Another,
}
