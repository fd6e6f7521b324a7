//! What standard error gets of files that were run.
ghost use Rattle.std.specs.Prelude.{◌≡◌, ◌++◌, IfOk, false, string_bytes, true};
ghost use Rattle.go_diagnostics.specs.Diagnoses.{Diagnosed};
ghost use Rattle.goset_cli.specs.Diagnostics.{AreFiles, AreRowTexts, IsExplanation, path_of};
ghost use Rattle.ws_report.specs.Reports.{verdict_rows};
ghost use Rattle.ws_run.specs.Printing.{complaint_of, folder_of, folders_of, in_folder};

use go_diagnostics::diagnosis::diagnose;
use go_diagnostics::package::PackageFile;
use go_text::edition::Edition;
use go_text::fault::Fault;
use go_text::source::Source;
use go_text::text::Text;
use std::alloc::{AllocError, Global};
use ws_path::{FilePath, directory, file_name};
use ws_report::{Report, Verdict};
use ws_run::answer::{Folder, RunReport};

/// Each file by its directory and its name. They share the texts. An `Err` is want of memory.
pub fn package_files(
    alloc: Global,
    files: &[(FilePath, Text)],
) -> Result<Vec<PackageFile>, AllocError>
    ensures { IfOk result (λ sources. AreFiles files.now sources.items) }
{
    let mut found = Vec::new(alloc);
    for (path, text) in files {
        let name = String::from_str(alloc, file_name(path.as_str()))?;
        let directory = String::from_str(alloc, directory(path.as_str()))?;
        let source = Source::of(name, text.copy()?);
        found.push(PackageFile { directory, source })?;
    }
    Ok(found)
}

/// The folder that a directory is reported as: the first that is given, else the directory.
fn folder_of<'a>(folders: &'a [Folder], directory: &'a str) -> &'a str
    ensures { result.now ≡ folder_of (folders_of folders.now) directory.now }
{
    for (its, folder) in folders {
        if its.as_str() == directory {
            return folder.as_str();
        }
    }
    directory
}

/// How a file is called: its name behind its folder and a slash, or alone where the folder is empty.
fn path_in(alloc: Global, folder: &str, file: &str) -> Result<String, AllocError>
    ensures { IfOk result (λ path. string_bytes path ≡ in_folder folder.now ++ file.now) }
{
    let mut path = String::from_str(alloc, folder)?;
    if !folder.is_empty() {
        path.push_str("/")?;
    }
    path.push_str(file)?;
    Ok(path)
}

/// The diagnosis of a directory's fault.
fn diagnosis(
    alloc: Global,
    edition: Edition,
    folders: &[Folder],
    files: &[PackageFile],
    directory: &str,
    fault: &Fault,
) -> Result<Vec<u8>, AllocError>
    ensures { IfOk result (λ text. Diagnosed edition (path_of (folders_of folders.now) directory.now fault.now.file)
        directory.now fault.now files.now text.items) }
{
    let path = path_in(alloc, folder_of(folders, directory), fault.file())?;
    diagnose(alloc, edition, path.as_str(), directory, fault, files)
}

/// The diagnoses of a report: of each directory with a fault one, in the order of their paths.
fn diagnoses(
    alloc: Global,
    edition: Edition,
    folders: &[Folder],
    files: &[PackageFile],
    report: &Report,
) -> Result<Vec<u8>, AllocError>
    ensures { IfOk result (λ text.
        AreRowTexts edition (folders_of folders.now) files.now (verdict_rows report.now.directories.items) text.items) }
{
    let mut text = Vec::new(alloc);
    for (directory, verdict) in &report.directories {
        if let Verdict::Faulty(fault) = verdict {
            let more = diagnosis(alloc, edition, folders, files, directory.as_str(), fault)?;
            text.extend_from_slice(&more)?;
        }
    }
    Ok(text)
}

/// What standard error gets of a report, where directories are named by these folders: each fault
/// with a sentence, its line and a caret, or, if it is to be plain, with its number and word. An
/// `Err` is want of memory.
pub fn diagnostics(
    alloc: Global,
    edition: Edition,
    is_plain: bool,
    folders: &[Folder],
    files: &[PackageFile],
    answer: &RunReport,
) -> Result<Vec<u8>, AllocError>
    ensures plain { is_plain ≡ true → IfOk result (λ text.
        text.items ≡ complaint_of (folders_of folders.now) answer.now) }
    ensures full { is_plain ≡ false → IfOk result (λ text.
        IsExplanation edition (folders_of folders.now) files.now answer.now text.items) }
{
    if is_plain {
        return answer.error_output(alloc, folders);
    }
    match answer {
        RunReport::Faulty(report) => diagnoses(alloc, edition, folders, files, report),
        RunReport::Ran(_) | RunReport::NoPackage | RunReport::NoMain => answer.error_output(
            alloc, folders,
        ),
    }
}
