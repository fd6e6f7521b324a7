//! The table of forms: which tokens stand around a place where a message is said of it.
ghost use Rattle.std.specs.Prelude.{◌≡◌};
ghost use Rattle.std.specs.List.{list_any};
ghost use Rattle.go_diagnostics.specs.Forms.{rows_of_fault, rows_of_edition, first_row_message};
ghost use Rattle.go_diagnostics.specs.Patterns.{conditions_hold};

use crate::message::Message;
use crate::pattern::{Condition, Conditions, Pattern, Position, holds};
use Message::*;
use Pattern::{Any, Integer, Mark, Name, Nothing, Rune, Word};
use Position::*;
use go_scan::keyword::Keyword;
use go_scan::keyword::Keyword::{
    Break, Case, Chan, Const, Continue, Else, For, Func, Go, If, Import, Interface, Map, Range,
    Struct, Type, Var,
};
use go_scan::punctuation::Punctuation::{
    Ampersand, Arrow, Assign, Caret, CloseBrace, CloseBracket, CloseParenthesis, Colon, Comma,
    Decrement, Define, Ellipsis, Increment, Minus, OpenBrace, OpenBracket, OpenParenthesis, Period,
    Plus, Semicolon, ShiftLeft, ShiftRight, Star, Tilde,
};
use go_scan::token::Token;
use go_text::edition::Edition;
use go_text::fault::FaultKind;

/// A message, and where it is said.
#[derive(Clone, Copy)]
pub struct Row(pub Message, pub Conditions);

/// Holds everywhere.
const FREE: Condition = (Here, Any);

/// The forms that both editions leave out.
pub const FORMS: &[Row] = &[
    Row(Channels, ((Here, Word(Chan)), FREE, FREE)),
    Row(Channels, ((Here, Mark(Arrow)), FREE, FREE)),
    Row(Goroutines, ((Here, Word(Go)), FREE, FREE)),
    Row(Select, ((Here, Word(Keyword::Select)), FREE, FREE)),
    Row(Defer, ((Here, Word(Keyword::Defer)), FREE, FREE)),
    Row(Goto, ((Here, Word(Keyword::Goto)), FREE, FREE)),
    Row(Maps, ((Here, Word(Map)), FREE, FREE)),
    Row(Interfaces, ((Here, Word(Interface)), FREE, FREE)),
    Row(
        CountedArrays,
        ((Here, Mark(Ellipsis)), (Before, Mark(OpenBracket)), FREE),
    ),
    Row(
        Spread,
        (
            (Here, Mark(Ellipsis)),
            (Behind, Mark(CloseParenthesis)),
            FREE,
        ),
    ),
    Row(Variadics, ((Here, Mark(Ellipsis)), FREE, FREE)),
    Row(Generics, ((Here, Mark(Tilde)), FREE, FREE)),
    Row(
        Generics,
        ((Here, Mark(OpenBracket)), (Before, Word(Func)), FREE),
    ),
    Row(
        Generics,
        ((Here, Mark(OpenBracket)), (SecondBefore, Word(Func)), FREE),
    ),
    Row(
        Methods,
        ((Here, Mark(OpenParenthesis)), (Before, Word(Func)), FREE),
    ),
    Row(
        TypeAssertions,
        ((Here, Mark(OpenParenthesis)), (Before, Mark(Period)), FREE),
    ),
    Row(
        ParenthesizedTypes,
        ((Here, Mark(OpenParenthesis)), FREE, FREE),
    ),
    Row(Closures, ((Here, Word(Func)), FREE, FREE)),
    Row(LocalTypes, ((Here, Word(Type)), FREE, FREE)),
    Row(Pointers, ((Here, Mark(Star)), FREE, FREE)),
    Row(Pointers, ((Here, Mark(Ampersand)), FREE, FREE)),
    Row(DotImports, ((Here, Mark(Period)), FREE, FREE)),
    Row(Aliases, ((Here, Mark(Assign)), FREE, FREE)),
    Row(
        RangeElements,
        (
            (Here, Word(Range)),
            (SecondBefore, Name),
            (ThirdBefore, Mark(Comma)),
        ),
    ),
    Row(RangeAssignments, ((Here, Word(Range)), FREE, FREE)),
    Row(Labels, ((Here, Name), (Before, Word(Break)), FREE)),
    Row(Labels, ((Here, Name), (Before, Word(Continue)), FREE)),
    Row(
        Labels,
        (
            (Here, Mark(Colon)),
            (Before, Name),
            (SecondBefore, Mark(Semicolon)),
        ),
    ),
    Row(
        Labels,
        (
            (Here, Mark(Colon)),
            (Before, Name),
            (SecondBefore, Mark(OpenBrace)),
        ),
    ),
    Row(
        LabelsOrKeys,
        (
            (Here, Mark(Colon)),
            (Before, Name),
            (SecondBefore, Mark(Colon)),
        ),
    ),
    Row(Keys, ((Here, Mark(Colon)), FREE, FREE)),
    Row(
        UnnamedParameters,
        (
            (Here, Mark(CloseParenthesis)),
            (Bracket, Mark(OpenParenthesis)),
            FREE,
        ),
    ),
    Row(Shifts, ((Behind, Mark(ShiftLeft)), FREE, FREE)),
    Row(Shifts, ((Behind, Mark(ShiftRight)), FREE, FREE)),
    Row(Shifts, ((Here, Integer), FREE, FREE)),
    Row(Shifts, ((Here, Rune), FREE, FREE)),
    Row(Shifts, ((Here, Mark(Minus)), FREE, FREE)),
    Row(Shifts, ((Here, Mark(Plus)), FREE, FREE)),
    Row(Shifts, ((Here, Mark(Caret)), FREE, FREE)),
    Row(C, ((Here, Pattern::String), (Before, Word(Import)), FREE)),
    Row(
        C,
        ((Here, Pattern::String), (BeforeBracket, Word(Import)), FREE),
    ),
    Row(
        Tags,
        ((Here, Pattern::String), (BeforeBracket, Word(Struct)), FREE),
    ),
    Row(
        NamedResults,
        (
            (Bracket, Mark(OpenParenthesis)),
            (BeforeBracket, Mark(CloseParenthesis)),
            FREE,
        ),
    ),
    Row(Keys, ((Here, Mark(OpenBracket)), FREE, FREE)),
    Row(Keys, ((Here, Name), (Behind, Mark(OpenBrace)), FREE)),
    Row(
        Keys,
        (
            (Here, Name),
            (Behind, Mark(Period)),
            (ThirdBehind, Mark(OpenBrace)),
        ),
    ),
];

/// Those that the first edition alone leaves out.
pub const FIRST_FORMS: &[Row] = &[
    Row(
        Slices,
        (
            (Here, Mark(CloseBracket)),
            (Before, Mark(OpenBracket)),
            FREE,
        ),
    ),
    Row(
        SliceExpressions,
        ((Here, Mark(Colon)), (Bracket, Mark(OpenBracket)), FREE),
    ),
];

/// What the second edition leaves out of slices.
pub const SECOND_FORMS: &[Row] = &[
    Row(
        MissingIndex,
        (
            (Here, Mark(CloseBracket)),
            (Before, Mark(OpenBracket)),
            FREE,
        ),
    ),
    Row(
        ThreeIndexSlices,
        ((Here, Mark(Colon)), (Bracket, Mark(OpenBracket)), FREE),
    ),
];

/// What is said of tokens with which a file can't go on.
pub const ORDERS: &[Row] = &[
    Row(
        RangeElements,
        ((Here, Word(Range)), (Before, Mark(Define)), FREE),
    ),
    Row(
        Generics,
        (
            (Here, Name),
            (Before, Name),
            (SecondBefore, Mark(OpenBracket)),
        ),
    ),
    Row(LateImports, ((Here, Word(Import)), FREE, FREE)),
    Row(
        NextLineElse,
        ((Here, Word(Else)), (Before, Mark(Semicolon)), FREE),
    ),
    Row(
        NextLineBody,
        (
            (Here, Mark(Semicolon)),
            (Before, Mark(CloseParenthesis)),
            (Bracket, Nothing),
        ),
    ),
    Row(
        LineEnds,
        (
            (Here, Mark(Semicolon)),
            (Bracket, Mark(OpenParenthesis)),
            FREE,
        ),
    ),
    Row(
        EmbeddedFields,
        ((Here, Mark(Semicolon)), (BeforeBracket, Word(Struct)), FREE),
    ),
    Row(
        EmbeddedFields,
        (
            (Here, Mark(CloseBrace)),
            (BeforeBracket, Word(Struct)),
            FREE,
        ),
    ),
    Row(
        NoCall,
        (
            (Here, Mark(Semicolon)),
            (Before, Name),
            (SecondBefore, Mark(Semicolon)),
        ),
    ),
    Row(
        NoCall,
        (
            (Here, Mark(Semicolon)),
            (Before, Name),
            (SecondBefore, Mark(OpenBrace)),
        ),
    ),
    Row(
        NoCall,
        (
            (Here, Mark(CloseBrace)),
            (Before, Name),
            (SecondBefore, Mark(Semicolon)),
        ),
    ),
    Row(
        NoCall,
        (
            (Here, Mark(CloseBrace)),
            (Before, Name),
            (SecondBefore, Mark(OpenBrace)),
        ),
    ),
    Row(StepValues, ((Here, Mark(Increment)), FREE, FREE)),
    Row(StepValues, ((Here, Mark(Decrement)), FREE, FREE)),
    Row(
        OutsideFunctions,
        ((Here, Name), (Before, Mark(Semicolon)), (Bracket, Nothing)),
    ),
];

/// What is said of statements whose types don't go together.
pub const OPERANDS: &[Row] = &[
    Row(
        RangeOperand,
        ((Here, Word(For)), (Behind, Word(Range)), FREE),
    ),
    Row(
        RangeOperand,
        (
            (Here, Word(For)),
            (SecondBehind, Mark(Define)),
            (ThirdBehind, Word(Range)),
        ),
    ),
    Row(ForCondition, ((Here, Word(For)), FREE, FREE)),
    Row(IfCondition, ((Here, Word(If)), FREE, FREE)),
    Row(CaseType, ((Here, Word(Case)), FREE, FREE)),
];

/// What stands around a name where it is declared, or assigned. Each form of Go's declarations is here,
/// but for lists of more than two names.
pub const DECLARATIONS: &[Conditions] = &[
    ((Before, Word(Func)), FREE, FREE),
    ((Before, Word(Type)), FREE, FREE),
    ((Before, Word(Var)), FREE, FREE),
    ((Before, Word(Const)), FREE, FREE),
    ((Behind, Name), FREE, FREE),
    (
        (Behind, Mark(Comma)),
        (SecondBehind, Name),
        (ThirdBehind, Name),
    ),
    (
        (Behind, Mark(OpenBracket)),
        (SecondBehind, Mark(CloseBracket)),
        FREE,
    ),
    (
        (Behind, Mark(OpenBracket)),
        (ThirdBehind, Mark(CloseBracket)),
        (FourthBehind, Name),
    ),
    ((Behind, Mark(Define)), FREE, FREE),
    (
        (Behind, Mark(Comma)),
        (SecondBehind, Name),
        (ThirdBehind, Mark(Define)),
    ),
    (
        (Before, Mark(OpenParenthesis)),
        (Behind, Mark(Assign)),
        FREE,
    ),
    ((Before, Mark(Semicolon)), (Behind, Mark(Assign)), FREE),
    ((Before, Mark(Semicolon)), (Behind, Mark(Semicolon)), FREE),
];

/// What stands around the path of an import.
pub const IMPORTS: &[Conditions] = &[
    ((Before, Word(Import)), FREE, FREE),
    (
        (Before, Mark(OpenParenthesis)),
        (Behind, Mark(Semicolon)),
        FREE,
    ),
    ((Before, Mark(Semicolon)), (Behind, Mark(Semicolon)), FREE),
];

/// The rows that say of which form a fault of a kind is, in both editions.
pub fn rows_of(kind: FaultKind) -> &'static [Row]
    ensures { result.now ≡ rows_of_fault kind }
{
    match kind {
        FaultKind::LeftOut => FORMS,
        FaultKind::Parse => ORDERS,
        FaultKind::Mismatch => OPERANDS,
        _ => &[],
    }
}

/// Those of an edition alone.
pub fn rows_of_edition(edition: Edition, kind: FaultKind) -> &'static [Row]
    ensures { result.now ≡ rows_of_edition edition kind }
{
    match kind {
        FaultKind::LeftOut => match edition {
            Edition::One => FIRST_FORMS,
            Edition::Two => SECOND_FORMS,
        },
        _ => &[],
    }
}

/// The message of the first row that holds around a place.
pub fn first_of(rows: &[Row], before: &[Token], from: &[Token]) -> Option<Message>
    ensures { result ≡ first_row_message rows.now before.now from.now }
{
    for row in rows {
        if holds(row.1, before, from) {
            return Some(row.0);
        }
    }
    None
}

/// Whether one of the conditions holds around a place.
pub fn is_any(rows: &[Conditions], before: &[Token], from: &[Token]) -> bool
    ensures { result ≡ list_any (λ r. conditions_hold r before.now from.now) rows.now }
{
    for row in rows {
        if holds(*row, before, from) {
            return true;
        }
    }
    false
}
