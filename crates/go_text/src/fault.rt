//! Faults: what is reported of a package that can't be built.
ghost use Rattle.std.specs.Prelude.{◌≡◌, IfOk, string_bytes};
ghost use Rattle.go_text.specs.Faults.{fault_number, fault_word};

use crate::place::Place;
use std::alloc::AllocError;
use std::marker::Model;

/// The kinds of faults.
#[derive(Clone, Copy, PartialEq, Eq, Debug)]
pub enum FaultKind {
    /// A malformed literal or comment, or a character that begins no token.
    Scan,
    /// A form of Go that this edition leaves out.
    LeftOut,
    /// A token with which the tokens before it begin no file.
    Parse,
    /// A node that lies too deep.
    Deep,
    /// A type that is too large.
    Size,
    /// A package name that differs from that of the package's first file.
    PackageName,
    /// An import of a directory that has no files of a package.
    NoImport,
    /// An import whose package imports this one in turn.
    Cycle,
    /// An import of a program.
    Program,
    /// A name that its block declares already.
    Redeclared,
    /// A name that nothing declares where it is used.
    Undeclared,
    /// An import that its file doesn't use.
    UnusedImport,
    /// A name, an operand or a type of another kind than is due.
    Mismatch,
    /// A constant outside its type.
    Range,
    /// A constant of no type that lies outside 128 bits.
    Constant,
    /// A constant division by zero.
    DivideByZero,
    /// A constant index, or an element of an array literal, past the end.
    Index,
    /// A function with results whose body may run off its end.
    NoReturn,
    /// A value that isn't assignable to the type that is due.
    Assign,
    /// Another number of operands or values than is due.
    Count,
    /// A declaration that depends on itself.
    Recursive,
    /// A variable of a package whose first value depends on itself.
    InitCycle,
    /// A program with no function main.
    Main,
    /// A `break`, `continue`, `fallthrough` or default case where it can't stand.
    Branch,
    /// A name that its package doesn't export.
    Unexported,
    /// A file that is longer than its edition allows.
    Large,
}

impl FaultKind {
    /// The kind's number in reports.
    pub fn number(self) -> u32
        ensures { result ≡ fault_number self }
    {
        match self {
            FaultKind::Scan => 1,
            FaultKind::LeftOut => 2,
            FaultKind::Parse => 3,
            FaultKind::Deep => 4,
            FaultKind::Size => 5,
            FaultKind::PackageName => 6,
            FaultKind::NoImport => 7,
            FaultKind::Cycle => 8,
            FaultKind::Program => 9,
            FaultKind::Redeclared => 10,
            FaultKind::Undeclared => 11,
            FaultKind::UnusedImport => 12,
            FaultKind::Mismatch => 13,
            FaultKind::Range => 14,
            FaultKind::Constant => 15,
            FaultKind::DivideByZero => 16,
            FaultKind::Index => 17,
            FaultKind::NoReturn => 18,
            FaultKind::Assign => 19,
            FaultKind::Count => 20,
            FaultKind::Recursive => 21,
            FaultKind::InitCycle => 22,
            FaultKind::Main => 23,
            FaultKind::Branch => 24,
            FaultKind::Unexported => 25,
            FaultKind::Large => 26,
        }
    }

    /// The kind's word in reports.
    pub fn word(self) -> &'static str
        ensures { result.now ≡ fault_word self }
    {
        match self {
            FaultKind::Scan => "scan",
            FaultKind::LeftOut => "leftout",
            FaultKind::Parse => "parse",
            FaultKind::Deep => "deep",
            FaultKind::Size => "size",
            FaultKind::PackageName => "packagename",
            FaultKind::NoImport => "noimport",
            FaultKind::Cycle => "cycle",
            FaultKind::Program => "program",
            FaultKind::Redeclared => "redeclared",
            FaultKind::Undeclared => "undeclared",
            FaultKind::UnusedImport => "unusedimport",
            FaultKind::Mismatch => "mismatch",
            FaultKind::Range => "range",
            FaultKind::Constant => "constant",
            FaultKind::DivideByZero => "zero",
            FaultKind::Index => "index",
            FaultKind::NoReturn => "noreturn",
            FaultKind::Assign => "assign",
            FaultKind::Count => "count",
            FaultKind::Recursive => "recursive",
            FaultKind::InitCycle => "initcycle",
            FaultKind::Main => "main",
            FaultKind::Branch => "branch",
            FaultKind::Unexported => "unexported",
            FaultKind::Large => "large",
        }
    }
}

/// A fault: its kind and where it stands, by the file's name and the place in the file.
#[derive(Debug, Drop)]
pub struct Fault {
    file: String,
    place: Place,
    kind: FaultKind,
}

impl Model for Fault {
    ghost use Rattle.std.specs.Prelude.{string_bytes};
    ghost use Rattle.go_text.specs.Faults as faults;

    ghost Value = { faults.Fault };

    ghost view = { λ a. record { file = string_bytes a.file; place = a.place; kind = a.kind } };
}

impl Fault {
    /// A fault of a kind at a place of a file, which is given by its name.
    pub fn new(file: String, place: Place, kind: FaultKind) -> Fault
        ensures { result ≡ record { file = string_bytes file; place = place; kind = kind } }
    {
        Fault { file, place, kind }
    }

    /// The name of the file that the fault is in.
    pub fn file(&self) -> &str
        ensures { result.now ≡ self.now.file }
    {
        self.file.as_str()
    }

    /// Where in the file the fault is.
    pub fn place(&self) -> Place
        ensures { result ≡ self.now.place }
    {
        self.place
    }

    /// What kind of fault it is.
    pub fn kind(&self) -> FaultKind
        ensures { result ≡ self.now.kind }
    {
        self.kind
    }

    /// Another equal fault. An `Err` only where memory ran out.
    pub fn copy(&self) -> Result<Fault, AllocError>
        ensures { IfOk result (λ copy. copy ≡ self.now) }
    {
        let file = self.file.clone()?;
        Ok(Fault {
            file,
            place: self.place,
            kind: self.kind,
        })
    }
}
