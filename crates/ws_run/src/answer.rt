//! Reports of running files, and what is printed of them.
ghost use Rattle.std.specs.Prelude.{◌≡◌, ◌++◌, IfOk, OnOk};
ghost use Rattle.std.specs.Fmt.{decimal};
ghost use Rattle.std.specs.List.{flat_map};
ghost use Rattle.ws_report.specs.Reports.{row, verdict_rows};
ghost use Rattle.ws_run.specs.Printing.{output_of, panic_reason, ending_line, ending_status, folders_of, folder_of, in_folder};
ghost use Rattle.ws_run.specs.Printing.{fault_line, row_line, complaint_of, status_of};

use go_code::ending::{Ending, PanicKind};
use go_text::fault::Fault;
use go_vm::run::Outcome;
use std::alloc::{AllocError, Global};
use ws_report::{Report, Verdict};

/// The report of running files: how the program ended, or why there is none.
#[derive(Drop)]
pub enum RunReport {
    /// It ran: how it ended, and what it printed until then.
    Ran(Outcome),
    /// Directories that it reaches have faults; what a build says of all.
    Faulty(Report),
    /// No file of its directory belongs to a package.
    NoPackage,
    /// Its package isn't a program: it isn't named main.
    NoMain,
}

/// A directory, and its folder as reports name it, which is empty where its files are named alone.
pub type Folder = (String, String);

impl RunReport {
    /// What standard output gets: what the program printed.
    pub fn output(&self) -> &[u8]
        ensures { result.now ≡ output_of self.now }
    {
        match self {
            RunReport::Ran(outcome) => outcome.output(),
            RunReport::Faulty(_) | RunReport::NoPackage | RunReport::NoMain => &[],
        }
    }

    /// What standard error gets: how the program ended, unless it ended well, or why it didn't run,
    /// with a line for each directory that has a fault.
    pub fn error_output(&self, alloc: Global, folders: &[Folder]) -> Result<Vec<u8>, AllocError>
        ensures { IfOk result (λ told. told.items ≡ complaint_of (folders_of folders.now) self.now) }
    {
        let mut told = Vec::new(alloc);
        match self {
            RunReport::Ran(outcome) => push_ending(&mut told, outcome.ending())?,
            RunReport::Faulty(report) => {
                push_rows(alloc, &mut told, folders, &report.directories)?;
            }
            RunReport::NoPackage => push(&mut told, NO_PACKAGE)?,
            RunReport::NoMain => push(&mut told, NO_MAIN)?,
        }
        Ok(told)
    }

    /// The status that the process ends with: 0 where the program ended, 2 where it panicked, 3
    /// where it had no tick left, and 1 where it didn't run.
    pub fn status(&self) -> u8
        ensures { result ≡ status_of self.now }
    {
        match self {
            RunReport::Ran(outcome) => ending_status(outcome.ending()),
            RunReport::Faulty(_) | RunReport::NoPackage | RunReport::NoMain => 1,
        }
    }
}

fn ending_status(ending: &Ending) -> u8
    ensures { result ≡ ending_status ending.now }
{
    match ending {
        Ending::Ended => 0,
        Ending::Panicked(_) => 2,
        Ending::Cut => 3,
    }
}

const NO_PACKAGE: &[u8] = b"no program: no file of a package is in its folder\n";

const NO_MAIN: &[u8] = b"no program: the package isn't named main\n";

fn push(told: &mut Vec<u8>, text: &[u8]) -> Result<(), AllocError>
    ensures { OnOk result (told.new.items ≡ told.old.items ++ text.now) }
{
    told.extend_from_slice(text)
}

fn push_number(alloc: Global, told: &mut Vec<u8>, number: u32) -> Result<(), AllocError>
    ensures { OnOk result (told.new.items ≡ told.old.items ++ decimal number) }
{
    let digits = number.to_string(alloc)?;
    push(told, digits.as_bytes())
}

/// Why a program panicked.
fn panic_reason(kind: &PanicKind) -> &[u8]
    ensures { result.now ≡ panic_reason kind.now }
{
    match kind {
        PanicKind::Divide => b"integer divide by zero",
        PanicKind::Index => b"index out of range",
        PanicKind::Slice => b"slice bounds out of range",
        PanicKind::Make => b"length or capacity of make out of range",
        PanicKind::Shift => b"negative shift amount",
        PanicKind::Depth => b"too many open calls",
        PanicKind::Long => b"string or slice too long",
        PanicKind::User(text) => text.bytes(),
    }
}

/// The line of a program that didn't end well.
fn push_ending(told: &mut Vec<u8>, ending: &Ending) -> Result<(), AllocError>
    ensures { OnOk result (told.new.items ≡ told.old.items ++ ending_line ending.now) }
{
    match ending {
        Ending::Ended => Ok(()),
        Ending::Cut => push(told, b"cut: no ticks left\n"),
        Ending::Panicked(kind) => {
            push(told, b"panic: ")?;
            push(told, panic_reason(kind))?;
            push(told, b"\n")
        }
    }
}

/// The folder that a directory is reported as: the first that is given, else the directory.
fn folder_of<'a>(folders: &'a [Folder], directory: &'a str) -> &'a str
    ensures { result.now ≡ folder_of (folders_of folders.now) directory.now }
{
    for (its, folder) in folders {
        if its.as_str() == directory {
            return folder.as_str();
        }
    }
    directory
}

/// A folder with a slash behind it, and nothing where it is empty.
fn push_folder(told: &mut Vec<u8>, folder: &str) -> Result<(), AllocError>
    ensures { OnOk result (told.new.items ≡ told.old.items ++ in_folder folder.now) }
{
    if folder.is_empty() {
        return Ok(());
    }
    push(told, folder.as_bytes())?;
    push(told, b"/")
}

/// The line of a fault: where it stands, its number and its word.
fn push_fault(
    alloc: Global,
    told: &mut Vec<u8>,
    folder: &str,
    fault: &Fault,
) -> Result<(), AllocError>
    ensures { OnOk result (told.new.items ≡ told.old.items ++ fault_line folder.now fault.now) }
{
    push_folder(told, folder)?;
    push(told, fault.file().as_bytes())?;
    push(told, b":")?;
    push_number(alloc, told, fault.place().line)?;
    push(told, b":")?;
    push_number(alloc, told, fault.place().column)?;
    push(told, b": ")?;
    push_number(alloc, told, fault.kind().number())?;
    push(told, b" ")?;
    push(told, fault.kind().word().as_bytes())?;
    push(told, b"\n")
}

/// The line of a directory, if it has a fault.
fn push_row(
    alloc: Global,
    told: &mut Vec<u8>,
    folders: &[Folder],
    of: &(String, Verdict),
) -> Result<(), AllocError>
    ensures { OnOk result (told.new.items ≡ told.old.items ++ row_line (folders_of folders.now) (row of.now)) }
{
    match &of.1 {
        Verdict::Good | Verdict::Blocked => Ok(()),
        Verdict::Faulty(fault) => {
            push_fault(alloc, told, folder_of(folders, of.0.as_str()), fault)
        }
    }
}

/// The lines of a report: of each directory with a fault one, in the order of their paths.
fn push_rows(
    alloc: Global,
    told: &mut Vec<u8>,
    folders: &[Folder],
    all: &[(String, Verdict)],
) -> Result<(), AllocError>
    ensures { OnOk result (told.new.items ≡ told.old.items ++ flat_map (row_line (folders_of folders.now)) (verdict_rows all.now)) }
{
    for of in all {
        push_row(alloc, told, folders, of)?;
    }
    Ok(())
}
