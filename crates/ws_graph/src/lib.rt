//! Plans: what becomes of the files of a directory before anything is compiled.
#![tactic(auto)]

ghost use Rattle.std.specs.Prelude.{◌≡◌, ◌≢◌, ℕ, true, List, [], IfOk, IfSome, IfNone, Err, map};
ghost use Rattle.std.specs.Bool.{OnTrue, OnFalse};
ghost use Rattle.std.specs.List.{AllZip, list_any};
ghost use Rattle.go_text.specs.declared.edition.Edition.{Edition as AnEdition};
ghost use Rattle.go_text.specs.Faults.{Fault as AFault};
ghost use Rattle.go_text.specs.Named.{Source as ASource};
ghost use Rattle.ws_version.specs.Writes.{Write};
ghost use Rattle.ws_map.specs.Kept.{SameMembers};
ghost use Rattle.ws_register.specs.Sources.{pair_of};
ghost use Rattle.go_ast.specs.Parse.{IsNamed, IsOther};
ghost use Rattle.ws_graph.specs.Plan.{Planned, NoFiles, AreParsed, AllNamed, HasOther, StopsIn, IsPlan, IsPlanOf};
ghost use Rattle.ws_graph.specs.Node.{planned_of};
ghost use Rattle.ws_graph.specs.Discovery.{ParsesTo, is_refused};
ghost use Rattle.ws_graph.specs.declared.FileError.TheVariants.{Memory};

use crate::previous::known_file;
use go_ast::parsed::Parsed;
use go_parse::{ParseError, parse_in};
use go_text::edition::Edition;
use go_text::fault::{Fault, FaultKind};
use go_text::place::Place;
use go_text::source::Source;
pub use law::{law_build_plan_is_ranked, law_one_build_plan, law_some_build_plan};
pub use packages::package_files;
pub use planned::{Node, PlanError};
pub use previous::PreviousFiles;
use rayon::prelude::*;
use std::alloc::{AllocError, AllocFailed, Global};
use std::thread::Threads;

mod discovery;
pub mod law;
mod link;
mod packages;
mod planned;
pub mod planning;
mod previous;
mod target;
mod waiting;
mod wave;

// How many files are worth a thread.
const FILES_A_THREAD: usize = 16;

// Why a file wasn't parsed.
#[derive(Drop)]
enum FileError {
    Stopped(Fault),
    Memory,
}

impl From<AllocError> for FileError {
    ghost from_gives = { λ _ e. e ≡ Memory };

    fn from(_e: AllocError) -> FileError {
        FileError::Memory
    }
}

impl<T: Drop> From<AllocFailed<T>> for FileError {
    ghost from_gives = { λ _ e. e ≡ Memory };

    fn from(_e: AllocFailed<T>) -> FileError {
        FileError::Memory
    }
}

fn parsed_file(
    alloc: Global,
    edition: Edition,
    source: Source,
    known: Option<&[Parsed]>,
) -> Result<Parsed, FileError>
    ensures { ParsesTo edition source result }
{
    let name = String::from_str(alloc, source.name())?;
    if source.text().as_str().len() > edition.text_limit() {
        let fault = Fault::new(name, Place::first(), FaultKind::Large);
        return Err(FileError::Stopped(fault));
    }
    if let Some(parsed) = known_file(edition, &source, known)? {
        return Ok(parsed);
    }
    match parse_in(alloc, edition, source) {
        Ok(parsed) => {
            // The accessor is what says that the text is a file.
            let _file = parsed.file();
            Ok(parsed)
        }
        Err(ParseError::Fault(kind, place)) => {
            Err(FileError::Stopped(Fault::new(name, place, kind)))
        }
        Err(ParseError::Memory) => Err(FileError::Memory),
    }
}

fn parsed_files(
    rt: &(impl Threads + Sync),
    alloc: Global,
    edition: Edition,
    files: Vec<Source>,
    known: Option<&[Parsed]>,
) -> Result<Vec<Parsed>, FileError>
    ensures ok { IfOk result (λ parsed. AreParsed edition (map pair_of files.items) parsed.items) }
    ensures stopped { (fault : AFault) → result ≡ Err (FileError.Stopped fault) → StopsIn edition (map pair_of files.items) fault }
{
    if let Some(known) = known {
        let each = each_known(alloc, edition, files, known)?;
        return gathered(alloc, each);
    }
    let each = each_parsed(rt, alloc, edition, files)?;
    gathered(alloc, each)
}

// What files come to, in their order. Where memory ran out at any of them it did at all, whichever
// stops first.
fn gathered(alloc: Global, each: Vec<Result<Parsed, FileError>>) -> Result<Vec<Parsed>, FileError>
    ensures ok { (edition : AnEdition) (files : List ASource) → AllZip (ParsesTo edition) files each.items → IfOk result (λ parsed. AreParsed edition (map pair_of files) parsed.items) }
    ensures stopped { (edition : AnEdition) (files : List ASource) (fault : AFault) → AllZip (ParsesTo edition) files each.items → result ≡ Err (FileError.Stopped fault) → StopsIn edition (map pair_of files) fault }
    ensures refused { list_any is_refused each.items ≡ true → result ≡ Err FileError.Memory }
{
    if any_refused(each.as_slice()) {
        return Err(FileError::Memory);
    }
    let mut all = Vec::new(alloc);
    for parsed in each {
        all.push(parsed?)?;
    }
    Ok(all)
}

// Whether memory ran out at one of them.
fn any_refused(each: &[Result<Parsed, FileError>]) -> bool
    ensures { result ≡ list_any is_refused each.now }
{
    for parsed in each {
        if let Err(FileError::Memory) = parsed {
            return true;
        }
    }
    false
}

// The files, each parsed by itself, in their order. They are parsed by as many threads as there are
// processors, where they are many.
fn each_parsed(
    rt: &(impl Threads + Sync),
    alloc: Global,
    edition: Edition,
    files: Vec<Source>,
) -> Result<Vec<Result<Parsed, FileError>>, AllocError>
    ensures { IfOk result (λ each. AllZip (ParsesTo edition) files.items each.items) }
{
    files
        .into_par_iter()
        .with_min_len(FILES_A_THREAD)
        .map(
            |source: Source| -> Result<Parsed, FileError>
                ensures { ParsesTo edition source result }
            { parsed_file(alloc, edition, source, None) },
        )
        .collect(rt, alloc)
}

// The same, where an earlier plan has some of them: those are taken from it. They are told apart
// one after another, which costs less than a thread.
fn each_known(
    alloc: Global,
    edition: Edition,
    files: Vec<Source>,
    known: &[Parsed],
) -> Result<Vec<Result<Parsed, FileError>>, AllocError>
    ensures { IfOk result (λ each. AllZip (ParsesTo edition) files.items each.items) }
{
    let mut each = Vec::new(alloc);
    for source in files {
        let parsed = parsed_file(alloc, edition, source, Some(known));
        each.push(parsed)?;
    }
    Ok(each)
}

fn is_named(name: &str, parsed: &Parsed) -> bool
    ensures named { OnTrue result (IsNamed parsed.now.edition name.now parsed.now.text) }
    ensures other { OnFalse result (IsOther parsed.now.edition name.now parsed.now.text) }
{
    parsed.package().text() == name
}

// The first whose package has another name.
fn first_other<'a>(name: &str, parsed: &'a [Parsed]) -> Option<&'a Parsed>
    ensures other { IfSome result (λ other. HasOther name.now parsed.now other.now) }
    ensures none { IfNone result (AllNamed name.now parsed.now) }
{
    for other in parsed {
        if !is_named(name, other) {
            return Some(other);
        }
    }
    None
}

fn judged(alloc: Global, parsed: Vec<Parsed>) -> Result<Node, PlanError>
    ensures ok { (edition : AnEdition) (files : List (List ℕ × List ℕ)) → AreParsed edition files parsed.items → IfOk result (λ node. IsPlan edition files (planned_of node) × (planned_of node ≢ NoFiles)) }
    ensures none { result ≡ Err PlanError.NoPackage → parsed.items ≡ [] }
{
    let Some((first, rest)) = parsed.split_first() else {
        return Err(PlanError::NoPackage);
    };
    let Some(other) = first_other(first.package().text(), rest) else {
        return Ok(Node::Sound(parsed));
    };
    let file = String::from_str(alloc, other.name())?;
    let place = other.package().place();
    Ok(Node::Faulty(Fault::new(file, place, FaultKind::PackageName)))
}

/// In an edition the plan of a directory depends on the members of the set of writes alone.
pub fn law_one_plan()
    ensures { (edition : AnEdition) (V W : List Write) (directory : List ℕ) (p q : Planned) → SameMembers V W → IsPlanOf edition V directory p → IsPlanOf edition W directory q → p ≡ q }
{}
