//! The table of sentences: one for each kind of fault, and one for each form of Go that is known by
//! the tokens at the fault's place.
ghost use Rattle.std.specs.Prelude.{◌≡◌};
ghost use Rattle.go_diagnostics.specs.Messages.{kind_text, message_text};

use go_text::fault::FaultKind;

/// What is said of a place beyond its fault's kind. The first ones are forms of Go that the subset
/// leaves out.
#[derive(Clone, Copy)]
pub enum Message {
    Aliases,
    BuildConstraints,
    C,
    Channels,
    Clear,
    Closures,
    Copy,
    CountedArrays,
    Defer,
    DotImports,
    Errors,
    Floats,
    Generics,
    Goroutines,
    Goto,
    Interfaces,
    Keys,
    Labels,
    LabelsOrKeys,
    LocalTypes,
    Maps,
    Methods,
    MinMax,
    NamedResults,
    Nil,
    ParenthesizedTypes,
    Pointers,
    Print,
    RangeAssignments,
    RangeElements,
    Recover,
    Select,
    Shifts,
    SliceExpressions,
    SliceFunctions,
    Slices,
    Spread,
    Tags,
    ThreeIndexSlices,
    TypeAssertions,
    Uintptr,
    UnnamedFields,
    UnnamedParameters,
    Variadics,
    /// Those from here on are said of other faults.
    EmbeddedFields,
    LateImports,
    LineEnds,
    MissingIndex,
    NextLineBody,
    NextLineElse,
    NoCall,
    OutsideFunctions,
    StepValues,
    CaseType,
    CapOperand,
    ForCondition,
    IfCondition,
    LenOperand,
    MakeOperand,
    AppendOperand,
    FmtNames,
    PrintlnOperand,
    RangeOperand,
    NumberValue,
    StringAndNumber,
    StringValue,
}

const SCAN_FAULT: &str =
    "no token begins here: a literal is malformed, a comment is open, or no token has this character";

const LEFT_OUT_FAULT: &str =
    "this form of Go is left out of this subset: docs/GRAMMAR.md and docs/CHECKING.md say what there is";

const PARSE_FAULT: &str = "the file can't go on with this token";

const DEEP_FAULT: &str =
    "this lies more than 250 levels deep: move a part into a variable or a function of its own";

const SIZE_FAULT: &str =
    "this type is too large: an array has at most 65,536 elements, and a type as many cells";

const PACKAGE_NAME_FAULT: &str =
    "this file's package has another name than that of the folder's first file";

const NO_IMPORT_FAULT: &str =
    "no file of a package is in the folder of this path; of Go's own library there is fmt alone";

const CYCLE_FAULT: &str =
    "the imported package imports this one in turn: move what both use into a third";

const PROGRAM_FAULT: &str = "a package named main is a program, which nothing can import";

const REDECLARED_FAULT: &str = "this name is declared already in the same block";

const UNDECLARED_FAULT: &str = "nothing declares this name here";

const UNUSED_IMPORT_FAULT: &str = "nothing in this file uses the import: leave it out";

const MISMATCH_FAULT: &str =
    "the types don't go together here, or a type, a function or a package stands where a value is due";

const RANGE_FAULT: &str = "the constant lies outside the type that it takes";

const CONSTANT_FAULT: &str =
    "this constant lies outside 128 bits, or is a text of more than 16,777,216 bytes";

const DIVIDE_BY_ZERO_FAULT: &str = "this divides by a constant that is zero";

const INDEX_FAULT: &str =
    "a constant index or bound lies outside, or there are more elements than the length says";

const NO_RETURN_FAULT: &str = "the function has results, and its body can end without a return";

const ASSIGN_FAULT: &str =
    "a value of this type can't be assigned there: convert it, or change the type that is declared";

const COUNT_FAULT: &str = "there are more or fewer values, arguments or results here than are due";

const RECURSIVE_FAULT: &str = "this declaration depends on itself";

const INIT_CYCLE_FAULT: &str = "the first value of this variable depends on the variable itself";

const MAIN_FAULT: &str =
    "a package main has one function main, and main and init have no parameters and no results";

const BRANCH_FAULT: &str =
    "no loop or switch is here that this could leave or go on with, or the switch has a default already";

const UNEXPORTED_FAULT: &str =
    "this name isn't exported by its package: only names that begin with a capital letter are";

const LARGE_FAULT: &str =
    "the file is longer than the edition allows: 1,048,576 bytes in edition 1, and 4,194,304 in edition 2";

const ALIASES: &str =
    "aliases of types are left out of this subset: write type A B, or the type's own name";

const BUILD_CONSTRAINTS: &str =
    "build constraints are left out of this subset: every file is part of every build";

const C: &str = "import \"C\" is left out of this subset: only Go files are built";

const CHANNELS: &str =
    "channels are left out of this subset: call functions in turn, and return what would be sent";

const CLEAR: &str =
    "clear and delete are left out of this subset: write the elements over by a loop";

const CLOSURES: &str =
    "functions as values are left out of this subset: declare a function with a name, and pass it what it needs";

const COPY: &str = "copy is left out of this subset: copy the elements by a loop";

const COUNTED_ARRAYS: &str =
    "arrays whose length is counted ([...]T) are left out of this subset: write the length";

const DEFER: &str = "deferred calls are left out of this subset: write the call before each return";

const DOT_IMPORTS: &str =
    "dot imports are left out of this subset: write the package's name before each name of it";

const ERRORS: &str =
    "the type error is left out of this subset: return a bool or a number that says what went wrong";

const FLOATS: &str =
    "floats and complex numbers are left out of this subset: count in integers, as cents in place of dollars";

const GENERICS: &str =
    "type parameters are left out of this subset: write the function or type once for each type";

const GOROUTINES: &str = "goroutines are left out of this subset: call the function without go";

const GOTO: &str = "goto is left out of this subset: write a loop, or a function that returns";

const INTERFACES: &str =
    "interfaces are left out of this subset: use a struct with a field that says which case it is";

const KEYS: &str =
    "keys of an array's or a slice's elements are left out of this subset: write all elements in order";

const LABELS: &str =
    "labels are left out of this subset: leave outer loops by a condition, or by a return from a function";

const LABELS_OR_KEYS: &str = "labels, and keys of an array's elements, are left out of this subset";

const LOCAL_TYPES: &str =
    "types declared in functions are left out of this subset: declare the type outside";

const MAPS: &str =
    "maps are left out of this subset: use a slice of structs, and look a key up by a loop";

const METHODS: &str =
    "methods are left out of this subset: write a function that takes the receiver as its first parameter";

const MIN_MAX: &str = "min and max are left out of this subset: compare by an if";

const NAMED_RESULTS: &str =
    "results with names are left out of this subset: declare variables in the body, and return them";

const NIL: &str =
    "nil is left out of this subset: there are no pointers, and a slice without elements is written []T{}";

const PARENTHESIZED_TYPES: &str =
    "types in parentheses are left out of this subset: write the type without them";

const POINTERS: &str = "pointers are left out of this subset: pass values, and return what changed";

const PRINT: &str = "print and println are left out of this subset: write fmt.Println";

const RANGE_ASSIGNMENTS: &str =
    "a range that assigns is left out of this subset: write for i := range n";

const RANGE_ELEMENTS: &str = "range over a slice is left out: write for i := range len(xs)";

const RECOVER: &str = "recover is left out of this subset: a panic ends the program";

const SELECT: &str = "select is left out of this subset, for there are no channels";

const SHIFTS: &str =
    "a shift of an untyped constant by a variable is left out of this subset: give it a type, as int(1) << n";

const SLICE_EXPRESSIONS: &str =
    "slice expressions (a[i:j]) are left out of edition 1: --edition 2 has them";

const SLICE_FUNCTIONS: &str =
    "append, cap and make are left out of edition 1: --edition 2 has them";

const SLICES: &str =
    "slices are left out of edition 1: write --edition 2, or an array with its length";

const SPREAD: &str =
    "a slice as the last arguments (xs...) is left out of this subset: append its elements one by one in a loop";

const TAGS: &str = "tags of fields are left out of this subset: leave the tag out";

const THREE_INDEX_SLICES: &str =
    "slice expressions with three bounds (a[i:j:k]) are left out of this subset: write a[i:j]";

const TYPE_ASSERTIONS: &str =
    "type assertions and type switches are left out of this subset: a value has one type";

const UINTPTR: &str = "uintptr is left out of this subset: use uint64";

const UNNAMED_FIELDS: &str = "fields named _ are left out of this subset: give the field a name";

const UNNAMED_PARAMETERS: &str =
    "parameters without names are left out of this subset: write _ for a name";

const VARIADICS: &str = "parameters of any count (...T) are left out of this subset: take a slice";

const EMBEDDED_FIELDS: &str =
    "embedded fields are left out of this subset: give the field a name before its type";

const LATE_IMPORTS: &str = "imports stand before all other declarations";

const LINE_ENDS: &str =
    "the line ends inside parentheses: write a comma at its end, or the closing parenthesis on it";

const MISSING_INDEX: &str = "an index is due between these brackets";

const NEXT_LINE_BODY: &str = "the { of a function's body stands on the line of its )";

const NEXT_LINE_ELSE: &str = "else stands on the line of the } before it";

const NO_CALL: &str =
    "an expression is a statement only where it is a call: assign its value, or leave it out";

const OUTSIDE_FUNCTIONS: &str = "outside functions a declaration is due: const, func, type or var";

const STEP_VALUES: &str = "++ and -- are statements, and give no value";

const CASE_TYPE: &str =
    "a case is compared with the switch's value by ==, and their types don't go together";

const CAP_OPERAND: &str = "cap takes an array or a slice";

const FOR_CONDITION: &str = "the condition of a for is a bool";

const IF_CONDITION: &str = "the condition of an if is a bool";

const LEN_OPERAND: &str = "len takes a string, an array or a slice";

const MAKE_OPERAND: &str =
    "make takes a slice type, a length and maybe a capacity, which are integers";

const APPEND_OPERAND: &str = "append takes a slice, and then elements of its type";

const FMT_NAMES: &str =
    "of package fmt this subset has Println alone, in files that import \"fmt\"";

const PRINTLN_OPERAND: &str = "fmt.Println prints integers, bools and strings, and gives no value";

const RANGE_OPERAND: &str =
    "range takes an integer in this subset: of a slice write for i := range len(xs)";

const NUMBER_VALUE: &str =
    "a number can't be assigned there: convert it, or change the type that is declared";

const STRING_AND_NUMBER: &str = "a string and a number don't go together";

const STRING_VALUE: &str =
    "a string can't be assigned there: convert it, or change the type that is declared";

/// What is said of a name that nothing declares: before it, between it and the nearest name, and
/// behind that.
pub const UNKNOWN: (&str, &str, &str) = ("nothing declares ", " here; did you mean ", "?");

/// What is said of a literal that a declaration doesn't take, before the type and behind it.
pub const UNFIT_NUMBER: (&str, &str) = (
    "a number is no value of type ",
    ": convert it, or change the type",
);

pub const UNFIT_STRING: (&str, &str) = (
    "a string is no value of type ",
    ": convert it, or change the type",
);

/// The sentence of a kind of fault.
pub fn kind_text(kind: FaultKind) -> &'static str
    ensures { result.now ≡ kind_text kind }
{
    match kind {
        FaultKind::Scan => SCAN_FAULT,
        FaultKind::LeftOut => LEFT_OUT_FAULT,
        FaultKind::Parse => PARSE_FAULT,
        FaultKind::Deep => DEEP_FAULT,
        FaultKind::Size => SIZE_FAULT,
        FaultKind::PackageName => PACKAGE_NAME_FAULT,
        FaultKind::NoImport => NO_IMPORT_FAULT,
        FaultKind::Cycle => CYCLE_FAULT,
        FaultKind::Program => PROGRAM_FAULT,
        FaultKind::Redeclared => REDECLARED_FAULT,
        FaultKind::Undeclared => UNDECLARED_FAULT,
        FaultKind::UnusedImport => UNUSED_IMPORT_FAULT,
        FaultKind::Mismatch => MISMATCH_FAULT,
        FaultKind::Range => RANGE_FAULT,
        FaultKind::Constant => CONSTANT_FAULT,
        FaultKind::DivideByZero => DIVIDE_BY_ZERO_FAULT,
        FaultKind::Index => INDEX_FAULT,
        FaultKind::NoReturn => NO_RETURN_FAULT,
        FaultKind::Assign => ASSIGN_FAULT,
        FaultKind::Count => COUNT_FAULT,
        FaultKind::Recursive => RECURSIVE_FAULT,
        FaultKind::InitCycle => INIT_CYCLE_FAULT,
        FaultKind::Main => MAIN_FAULT,
        FaultKind::Branch => BRANCH_FAULT,
        FaultKind::Unexported => UNEXPORTED_FAULT,
        FaultKind::Large => LARGE_FAULT,
    }
}

impl Message {
    /// Its sentence.
    pub fn text(self) -> &'static str
        ensures { result.now ≡ message_text self }
    {
        match self {
            Message::Aliases => ALIASES,
            Message::BuildConstraints => BUILD_CONSTRAINTS,
            Message::C => C,
            Message::Channels => CHANNELS,
            Message::Clear => CLEAR,
            Message::Closures => CLOSURES,
            Message::Copy => COPY,
            Message::CountedArrays => COUNTED_ARRAYS,
            Message::Defer => DEFER,
            Message::DotImports => DOT_IMPORTS,
            Message::Errors => ERRORS,
            Message::Floats => FLOATS,
            Message::Generics => GENERICS,
            Message::Goroutines => GOROUTINES,
            Message::Goto => GOTO,
            Message::Interfaces => INTERFACES,
            Message::Keys => KEYS,
            Message::Labels => LABELS,
            Message::LabelsOrKeys => LABELS_OR_KEYS,
            Message::LocalTypes => LOCAL_TYPES,
            Message::Maps => MAPS,
            Message::Methods => METHODS,
            Message::MinMax => MIN_MAX,
            Message::NamedResults => NAMED_RESULTS,
            Message::Nil => NIL,
            Message::ParenthesizedTypes => PARENTHESIZED_TYPES,
            Message::Pointers => POINTERS,
            Message::Print => PRINT,
            Message::RangeAssignments => RANGE_ASSIGNMENTS,
            Message::RangeElements => RANGE_ELEMENTS,
            Message::Recover => RECOVER,
            Message::Select => SELECT,
            Message::Shifts => SHIFTS,
            Message::SliceExpressions => SLICE_EXPRESSIONS,
            Message::SliceFunctions => SLICE_FUNCTIONS,
            Message::Slices => SLICES,
            Message::Spread => SPREAD,
            Message::Tags => TAGS,
            Message::ThreeIndexSlices => THREE_INDEX_SLICES,
            Message::TypeAssertions => TYPE_ASSERTIONS,
            Message::Uintptr => UINTPTR,
            Message::UnnamedFields => UNNAMED_FIELDS,
            Message::UnnamedParameters => UNNAMED_PARAMETERS,
            Message::Variadics => VARIADICS,
            Message::EmbeddedFields => EMBEDDED_FIELDS,
            Message::LateImports => LATE_IMPORTS,
            Message::LineEnds => LINE_ENDS,
            Message::MissingIndex => MISSING_INDEX,
            Message::NextLineBody => NEXT_LINE_BODY,
            Message::NextLineElse => NEXT_LINE_ELSE,
            Message::NoCall => NO_CALL,
            Message::OutsideFunctions => OUTSIDE_FUNCTIONS,
            Message::StepValues => STEP_VALUES,
            Message::CaseType => CASE_TYPE,
            Message::CapOperand => CAP_OPERAND,
            Message::ForCondition => FOR_CONDITION,
            Message::IfCondition => IF_CONDITION,
            Message::LenOperand => LEN_OPERAND,
            Message::MakeOperand => MAKE_OPERAND,
            Message::AppendOperand => APPEND_OPERAND,
            Message::FmtNames => FMT_NAMES,
            Message::PrintlnOperand => PRINTLN_OPERAND,
            Message::RangeOperand => RANGE_OPERAND,
            Message::NumberValue => NUMBER_VALUE,
            Message::StringAndNumber => STRING_AND_NUMBER,
            Message::StringValue => STRING_VALUE,
        }
    }
}
