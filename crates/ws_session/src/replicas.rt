//! The replicas of a session: what each command does to them.
ghost use Rattle.std.specs.Prelude.{◌≡◌, ◌<◌, ℕ, List, length, vec_len, map, zip, true, false, IfOk, OnOk, IfSome, MatchOption, Option, Some, None, Err};
ghost use Rattle.std.specs.List.{All, flat_map};
ghost use Rattle.std.specs.Option.{option_map};
ghost use Rattle.ws_path.specs.Paths.{file_name};
ghost use Rattle.ws_replica.specs.Builds.{target_of};
ghost use Rattle.ws_report.specs.Reports.{id_row};
ghost use Rattle.ws_path.specs.Paths.{is_path};
ghost use Rattle.ws_session.specs.Representation.{Represents, replica_index, refusal_text_of, ChangedAt, Edited, Removal, Applied, asked_of, AreTargets, AreBuiltBy, target_words, report_line, HasNoFilesAt, RanAt, AreIdsAt, IsContent, BuildResult, command_text, applied_by, SettlesFrom, SettlesIn, ResultUnchanged, ResultIn, IsSourceIn, IsTopAt};
ghost use Rattle.ws_session.specs.World.{World, empty_world, is_path_word, hashed_texts, After, Prints};
ghost use Rattle.ws_action.specs.Clash.{NoClash};
ghost use Rattle.ws_command.specs.Views.{command_view};
ghost use Rattle.ws_command.specs.Commands.{Create, Write, Remove, Apply, Build, Run, Ids, Show};

use crate::clock::WriteClock;
use crate::counting::{
    apply_counted, count_build, holders_of, merge_counted, remove_counted, settle_counted,
    write_counted,
};
use crate::taking::{parted, rejoined};
use go_text::edition::Edition;
use go_text::source::Source;
use go_text::text::{Text, TextError};
use go_vm::run::{Outcome, RunError, run};
use std::alloc::{AllocError, Global};
use std::sync::Wait;
use std::thread::Threads;
use std::{mem, str};
use ws_command::commands::Asked;
use ws_command::printing::{ids_lines, report_lines, run_lines, show_lines};
use ws_command::refusal::{Refusal, refused};
use ws_path::{FilePath, file_name, is_path};
use ws_register::EditError;
use ws_replica::law::law_held_program_means_its_sources;
use ws_replica::{BuildError, Gate, Replica, Target, build_over, ids, image};
use ws_report::{IdLine, Report};
use ws_version::{Held, Version};
use ws_version_vector::Vectors;

/// How many replicas a session may have.
const MOST_REPLICAS: usize = 64;

/// A replica of a session, with its name and the number of its edits.
#[derive(Drop)]
pub struct SessionReplica {
    pub(crate) name: Vec<u8>,
    pub(crate) number: u32,
    pub(crate) replica: Replica,
}

/// The replicas of a session in order of creation, the edition that commands go by, and how much
/// each took of what was first written, and of what was first compiled, at each.
#[derive(Drop)]
pub struct Replicas {
    alloc: Global,
    edition: Edition,
    named: Vec<SessionReplica>,
    wrote: WriteClock,
    compiled: Vectors,
}

/// Where the replica of that name stands.
pub(crate) fn index_of(named: &[SessionReplica], name: &[u8]) -> Option<usize>
    ensures value { result ≡ replica_index name.now named.now }
    ensures within { IfSome result (λ index. index < length named.now) }
{
    for (i, one) in named.iter().enumerate() {
        if one.name.as_slice() == name {
            return Some(i);
        }
    }
    None
}

/// A word as a path, if it is one.
fn path_of(word: &[u8]) -> Option<&str>
    ensures { MatchOption result (is_path_word word.now ≡ false) (λ path. (is_path_word word.now ≡ true) × (path.now ≡ word.now)) }
{
    match str::from_utf8(word) {
        Err(_) => None,
        Ok(path) => { if is_path(path) { Some(path) } else { None } }
    }
}

/// A word as the path of a file, if it is one.
pub(crate) fn file_path_of(alloc: Global, word: &[u8]) -> Result<Option<FilePath>, AllocError>
    ensures { IfOk result (λ path. MatchOption path (is_path_word word.now ≡ false) (λ p. (is_path_word word.now ≡ true) × (p ≡ word.now))) }
{
    match str::from_utf8(word) {
        Err(_) => Ok(None),
        Ok(text) => {
            let text = String::from_str(alloc, text)?;
            Ok(FilePath::new(text))
        }
    }
}

/// A text as the source of a path's file, if a source of the edition may hold it.
fn source_of(
    alloc: Global,
    edition: Edition,
    path: &str,
    text: Option<Vec<u8>>,
) -> Result<Option<Source>, AllocError>
    ensures { IfOk result (λ source. IsSourceIn edition path.now (command_text text) source) }
{
    let Some(bytes) = text else {
        return Ok(None);
    };
    let Ok(text) = String::from_utf8(bytes) else {
        return Ok(None);
    };
    let name = String::from_str(alloc, file_name(path))?;
    match Source::new_in(alloc, edition, name, text) {
        Ok(source) => Ok(Some(source)),
        Err(TextError::Memory) => Err(AllocError),
        Err(_) => Ok(None),
    }
}

/// A new replica, whose number is one more than the number of those before it.
fn create(
    alloc: Global,
    named: &mut Vec<SessionReplica>,
    name: &[u8],
) -> Result<Option<Refusal>, AllocError>
    ensures { IfOk result (λ refusal. (text : Option (List ℕ)) → SettlesFrom (Create name.now) text named.old refusal named.new) }
{
    if named.len() >= MOST_REPLICAS {
        return Ok(Some(Refusal::BadCommand));
    }
    if index_of(named.as_slice(), name).is_some() {
        return Ok(Some(Refusal::Exists));
    }
    let number = named.len() as u32 + 1;
    let name = Vec::from_slice(alloc, name)?;
    let replica = Replica::new(alloc);
    named.push(SessionReplica {
        name,
        number,
        replica,
    })?;
    Ok(None)
}

/// The greatest counter that the replica at an index holds.
fn greatest_at(named: &Vec<SessionReplica>, index: usize) -> u64
    requires { index < vec_len named.now }
    ensures { IsTopAt named.now index result }
{
    named[index].replica.greatest_counter()
}

/// The replica at an index edits a path.
fn edit_at(
    alloc: Global,
    named: &mut Vec<SessionReplica>,
    index: usize,
    path: &str,
    source: Source,
) -> Result<(), AllocError>
    requires { index < vec_len named.old }
    ensures { OnOk result (ChangedAt (Edited path.now source.text) named.old.items index named.new.items) }
{
    let path = String::from_str(alloc, path)?;
    let one = &mut named[index];
    let number = one.number;
    match one.replica.edit(path, source, number) {
        Ok(()) => Ok(()),
        Err(_) => Err(AllocError),
    }
}

/// A write of a text to a path by the replica of that name.
pub(crate) fn write(
    alloc: Global,
    edition: Edition,
    named: &mut Vec<SessionReplica>,
    name: &[u8],
    word: &[u8],
    text: Option<Vec<u8>>,
) -> Result<Option<Refusal>, AllocError>
    ensures { IfOk result (λ refusal. (lines : ℕ) → SettlesIn edition (Write name.now word.now lines) (command_text text) named.old refusal named.new) }
{
    let Some(index) = index_of(named.as_slice(), name) else {
        return Ok(Some(Refusal::Unknown));
    };
    let Some(path) = path_of(word) else {
        return Ok(Some(Refusal::BadPath));
    };
    if greatest_at(named, index) == u64::MAX {
        return Ok(Some(Refusal::CounterFull));
    }
    let Some(source) = source_of(alloc, edition, path, text)? else {
        return Ok(Some(Refusal::BadText));
    };
    edit_at(alloc, named, index, path, source)?;
    Ok(None)
}

/// The replica at an index removes the file at a path; or why it doesn't.
fn remove_at(
    alloc: Global,
    named: &mut Vec<SessionReplica>,
    index: usize,
    path: &str,
) -> Result<Option<Refusal>, AllocError>
    requires index { index < vec_len named.old }
    requires path { is_path path.now ≡ true }
    ensures { IfOk result (λ refusal. Removal path.now named.old.items index refusal named.new.items) }
{
    let path = String::from_str(alloc, path)?;
    let one = &mut named[index];
    let number = one.number;
    match one.replica.remove(path, number) {
        Ok(()) => Ok(None),
        Err(EditError::BadPath) => Ok(Some(Refusal::BadPath)),
        Err(EditError::NoFile) => Ok(Some(Refusal::NoFile)),
        Err(EditError::CounterFull) => Ok(Some(Refusal::CounterFull)),
        Err(EditError::Memory) => Err(AllocError),
    }
}

/// A removal of the file at a path by the replica of that name.
pub(crate) fn remove(
    alloc: Global,
    named: &mut Vec<SessionReplica>,
    name: &[u8],
    word: &[u8],
) -> Result<Option<Refusal>, AllocError>
    ensures { IfOk result (λ refusal. (text : Option (List ℕ)) → SettlesFrom (Remove name.now word.now) text named.old refusal named.new) }
{
    let Some(index) = index_of(named.as_slice(), name) else {
        return Ok(Some(Refusal::Unknown));
    };
    let Some(path) = path_of(word) else {
        return Ok(Some(Refusal::BadPath));
    };
    remove_at(alloc, named, index, path)
}

/// The replica at an index takes a write to a path.
fn apply_at(
    named: &mut Vec<SessionReplica>,
    index: usize,
    path: FilePath,
    held: Held,
) -> Result<(), AllocError>
    requires { index < vec_len named.old }
    ensures { OnOk result (ChangedAt (Applied (path, held)) named.old.items index named.new.items) }
{
    let one = &mut named[index];
    one.replica.apply(ws_version::Write::new(path, held))
}

/// What is applied to a path: a text, or none for a removal; or why it isn't.
fn content_of(
    alloc: Global,
    edition: Edition,
    path: &str,
    lines: Option<u64>,
    text: Option<Vec<u8>>,
) -> Result<Result<Option<Text>, Refusal>, AllocError>
    ensures { IfOk result (λ content. IsContent edition lines (option_map (λ v. v.items) text) content) }
{
    if lines.is_none() {
        return Ok(Ok(None));
    }
    let Some(source) = source_of(alloc, edition, path, text)? else {
        return Ok(Err(Refusal::BadText));
    };
    let (_, text) = source.into_parts();
    Ok(Ok(Some(text)))
}

/// The replica of that name takes a write that another may have made.
pub(crate) fn apply(
    alloc: Global,
    edition: Edition,
    named: &mut Vec<SessionReplica>,
    name: &[u8],
    word: &[u8],
    version: Version,
    lines: Option<u64>,
    text: Option<Vec<u8>>,
) -> Result<Option<Refusal>, AllocError>
    ensures { IfOk result (λ refusal. SettlesIn edition (applied_by name.now word.now version lines) (command_text text) named.old refusal named.new) }
{
    let Some(index) = index_of(named.as_slice(), name) else {
        return Ok(Some(Refusal::Unknown));
    };
    let Some(path) = file_path_of(alloc, word)? else {
        return Ok(Some(Refusal::BadPath));
    };
    match content_of(alloc, edition, path.as_str(), lines, text)? {
        Err(refusal) => Ok(Some(refusal)),
        Ok(content) => {
            apply_at(named, index, path, Held::new(version, content))?;
            Ok(None)
        }
    }
}

/// What the replica of that name holds, and what is printed of it.
fn show(alloc: Global, named: &Vec<SessionReplica>, name: &[u8]) -> Result<Vec<u8>, AllocError>
    ensures { IfOk result (λ told. ResultUnchanged (Show name.now) named.now told.items) }
{
    let Some(index) = index_of(named.as_slice(), name) else {
        return refused(alloc, Refusal::Unknown);
    };
    let writes = named[index].replica.writes()?;
    show_lines(alloc, name, writes.as_slice())
}

/// What is asked to be built, by the numbers of the replicas; or why it isn't.
fn targets_of<'a>(
    alloc: Global,
    named: &[SessionReplica],
    asked: &[(&'a [u8], &'a [u8])],
) -> Result<Result<Vec<Target<'a>>, Refusal>, AllocError>
    ensures { IfOk result (λ targets. AreTargets named.now (map asked_of asked.now) targets) }
{
    let mut targets = Vec::new(alloc);
    let mut is_text = true;
    for (name, word) in asked {
        let Some(replica) = index_of(named, name) else {
            return Ok(Err(Refusal::Unknown));
        };
        match str::from_utf8(word) {
            Ok(directory) => targets.push(Target { replica, directory })?,
            Err(_) => is_text = false,
        }
    }
    if !is_text {
        return Ok(Err(Refusal::NoPackage));
    }
    Ok(Ok(targets))
}

/// The replicas build targets, where some, by their numbers, hold together what those of the
/// targets hold: the reports, or nothing, and no change, where a target has no package files.
fn build_all<R: Threads + Wait + Sync, G: Gate>(
    rt: &R,
    alloc: Global,
    edition: Edition,
    workers: u64,
    gate: &G,
    named: &mut Vec<SessionReplica>,
    targets: &[Target<'_>],
    holders: &[usize],
) -> Result<Option<Vec<Report>>, AllocError>
    requires some { 0 < workers }
    requires within { All (λ t. t.replica < vec_len named.old) targets.now }
    requires holding { All (λ k. k < vec_len named.old) holders.now }
    ensures { IfOk result (λ reports. AreBuiltBy edition holders.now (map target_of targets.now) named.old.items reports named.new.items) }
{
    let (labels, mut replicas) = parted(alloc, mem::replace(named, Vec::new(alloc)))?;
    let built = build_over(
        rt,
        alloc,
        replicas.as_mut_slice(),
        targets,
        holders,
        edition,
        workers,
        gate,
    );
    *named = rejoined(alloc, labels, replicas)?;
    match built {
        Ok(reports) => Ok(Some(reports)),
        Err(BuildError::NoPackage) => Ok(None),
        Err(BuildError::Memory) => Err(AllocError),
    }
}

/// What the reports of a build's targets print, one behind the other.
fn all_lines(
    alloc: Global,
    named: &[SessionReplica],
    targets: &[Target<'_>],
    reports: &[Report],
) -> Result<Vec<u8>, AllocError>
    requires { All (λ t. t.replica < length named.now) targets.now }
    ensures { IfOk result (λ told. told.items ≡ flat_map report_line (zip (map (target_words named.now) (map target_of targets.now)) reports.now)) }
{
    let mut told = Vec::new(alloc);
    for (target, report) in targets.iter().zip(reports) {
        let name = named[target.replica].name.as_slice();
        let lines = report_lines(alloc, name, target.directory, report)?;
        told.extend_from_slice(lines.as_slice())?;
    }
    Ok(told)
}

/// A build of directories by the replicas of those names, and what it prints.
fn build_targets<R: Threads + Wait + Sync, G: Gate>(
    rt: &R,
    alloc: Global,
    edition: Edition,
    workers: u64,
    gate: &G,
    named: &mut Vec<SessionReplica>,
    compiled: &mut Vectors,
    asked: &[(&[u8], &[u8])],
) -> Result<Vec<u8>, AllocError>
    requires { 0 < workers }
    ensures { IfOk result (λ told. BuildResult edition (map asked_of asked.now) named.old compiled.old told.items named.new compiled.new) }
{
    let targets = match targets_of(alloc, named.as_slice(), asked)? {
        Ok(targets) => targets,
        Err(refusal) => return refused(alloc, refusal),
    };
    let holders = holders_of(alloc, compiled, targets.as_slice())?;
    let reports = build_all(
        rt,
        alloc,
        edition,
        workers,
        gate,
        named,
        targets.as_slice(),
        holders.as_slice(),
    )?;
    match reports {
        None => refused(alloc, Refusal::NoPackage),
        Some(reports) => {
            count_build(alloc, compiled, targets.as_slice())?;
            all_lines(
                alloc,
                named.as_slice(),
                targets.as_slice(),
                reports.as_slice(),
            )
        }
    }
}

/// What a run of a directory by the replica at an index comes to; none where no program is built.
fn run_at<R: Threads + Sync>(
    rt: &R,
    alloc: Global,
    edition: Edition,
    named: &Vec<SessionReplica>,
    index: usize,
    directory: &str,
    ticks: u64,
) -> Result<Option<Outcome>, BuildError>
    requires { index < vec_len named.now }
    ensures ok { IfOk result (λ outcome. RanAt edition directory.now ticks named.now.items index outcome) }
    ensures none { result ≡ Err BuildError.NoPackage → HasNoFilesAt edition directory.now named.now.items index }
{
    let replica = &named[index].replica;
    replica.see_files();
    law_held_program_means_its_sources();
    let Some(image) = image(rt, alloc, replica, directory, edition)? else {
        return Ok(None);
    };
    match run(alloc, &image, ticks) {
        Ok(outcome) => Ok(Some(outcome)),
        Err(RunError::Memory) => Err(BuildError::Memory),
        // Only where hashed texts clash: what is linked was compiled against other summaries.
        Err(RunError::BadCode) => Ok(None),
    }
}

/// A run of a directory by the replica of that name, and what it prints.
fn run_target<R: Threads + Sync>(
    rt: &R,
    alloc: Global,
    edition: Edition,
    named: &Vec<SessionReplica>,
    name: &[u8],
    word: &[u8],
    ticks: u64,
) -> Result<Vec<u8>, AllocError>
    ensures { IfOk result (λ told. ResultIn edition (Run name.now word.now ticks) named.now told.items) }
{
    let Some(index) = index_of(named.as_slice(), name) else {
        return refused(alloc, Refusal::Unknown);
    };
    let Ok(directory) = str::from_utf8(word) else {
        return refused(alloc, Refusal::NoPackage);
    };
    match run_at(rt, alloc, edition, named, index, directory, ticks) {
        Ok(Some(outcome)) => run_lines(alloc, name, directory, outcome.ending(), outcome.output()),
        Ok(None) => refused(alloc, Refusal::NotBuilt),
        Err(BuildError::NoPackage) => refused(alloc, Refusal::NoPackage),
        Err(BuildError::Memory) => Err(AllocError),
    }
}

/// The ids of what a directory reaches, by the replica at an index.
fn ids_at<R: Threads + Sync>(
    rt: &R,
    alloc: Global,
    edition: Edition,
    named: &Vec<SessionReplica>,
    index: usize,
    directory: &str,
) -> Result<Vec<IdLine>, BuildError>
    requires { index < vec_len named.now }
    ensures ok { IfOk result (λ lines. AreIdsAt edition directory.now named.now.items index (map id_row lines.items)) }
    ensures none { result ≡ Err BuildError.NoPackage → HasNoFilesAt edition directory.now named.now.items index }
{
    ids(rt, alloc, &named[index].replica, directory, edition)
}

/// The ids of what a directory reaches, by the replica of that name, and what is printed of them.
fn ids_target<R: Threads + Sync>(
    rt: &R,
    alloc: Global,
    edition: Edition,
    named: &Vec<SessionReplica>,
    name: &[u8],
    word: &[u8],
) -> Result<Vec<u8>, AllocError>
    ensures { IfOk result (λ told. ResultIn edition (Ids name.now word.now) named.now told.items) }
{
    let Some(index) = index_of(named.as_slice(), name) else {
        return refused(alloc, Refusal::Unknown);
    };
    let Ok(directory) = str::from_utf8(word) else {
        return refused(alloc, Refusal::NoPackage);
    };
    match ids_at(rt, alloc, edition, named, index, directory) {
        Ok(lines) => ids_lines(alloc, name, directory, &lines),
        Err(BuildError::NoPackage) => refused(alloc, Refusal::NoPackage),
        Err(BuildError::Memory) => Err(AllocError),
    }
}

/// What is printed for a command that prints no more than its refusal.
fn told(alloc: Global, refusal: Option<Refusal>) -> Result<Vec<u8>, AllocError>
    ensures { IfOk result (λ line. line.items ≡ refusal_text_of refusal) }
{
    match refusal {
        None => Ok(Vec::new(alloc)),
        Some(refusal) => refused(alloc, refusal),
    }
}

impl Replicas {
    /// No replica yet.
    pub fn new(alloc: Global, edition: Edition) -> Replicas
        ensures stands { Represents result (empty_world edition) }
    {
        Replicas {
            alloc,
            edition,
            named: Vec::new(alloc),
            wrote: WriteClock::new(alloc),
            compiled: Vectors::new(alloc),
        }
    }

    /// Runs one command on its text, where the script had all of it, and answers what it prints:
    /// whatever the number of workers that build, and the gate that they pass. It may start
    /// threads, and joins them. After an `Err`, want of memory, it may stand for no world.
    pub fn step<R: Threads + Wait + Sync, G: Gate>(
        &mut self,
        rt: &R,
        workers: u64,
        gate: &G,
        asked: &Asked<'_>,
        text: Option<Vec<u8>>,
    ) -> Result<Vec<u8>, AllocError>
        requires { 0 < workers }
        ensures { let command = command_view asked.now in
            let given = option_map (λ v. v.items) text in
            (world : World) → Represents self.old world → IfOk result (λ told.
            (next : World) × After command given world next
            × (NoClash (hashed_texts next) →
            Prints command given world told.items × Represents self.new next)) }
    {
        let alloc = self.alloc;
        match asked {
            Asked::Nothing => told(alloc, None),
            Asked::Bad => told(alloc, Some(Refusal::BadCommand)),
            Asked::Create(name) => {
                let refusal = create(alloc, &mut self.named, name)?;
                told(alloc, refusal)
            }
            Asked::Write(name, path, _) => {
                let refusal = write_counted(
                    alloc,
                    self.edition,
                    &mut self.named,
                    &mut self.wrote,
                    name,
                    path,
                    text,
                )?;
                told(alloc, refusal)
            }
            Asked::Remove(name, path) => {
                let refusal = remove_counted(alloc, &mut self.named, &mut self.wrote, name, path)?;
                told(alloc, refusal)
            }
            Asked::Apply {
                name,
                path,
                counter,
                number,
                lines,
            } => {
                let version = Version {
                    counter: *counter,
                    number: *number,
                };
                let refusal = apply_counted(
                    alloc,
                    self.edition,
                    &mut self.named,
                    &mut self.wrote,
                    name,
                    path,
                    version,
                    *lines,
                    text,
                )?;
                told(alloc, refusal)
            }
            Asked::Settle => {
                settle_counted(
                    rt,
                    alloc,
                    &mut self.named,
                    &mut self.wrote,
                    &mut self.compiled,
                )?;
                told(alloc, None)
            }
            Asked::Show(name) => show(alloc, &self.named, name),
            Asked::Use(edition) => {
                self.edition = *edition;
                told(alloc, None)
            }
            Asked::Merge(name, other) => {
                let refusal = merge_counted(
                    alloc,
                    &mut self.named,
                    &mut self.wrote,
                    &mut self.compiled,
                    name,
                    other,
                )?;
                told(alloc, refusal)
            }
            Asked::Build(targets) => {
                build_targets(
                    rt,
                    alloc,
                    self.edition,
                    workers,
                    gate,
                    &mut self.named,
                    &mut self.compiled,
                    targets.as_slice(),
                )
            }
            Asked::Ids(name, directory) => {
                ids_target(rt, alloc, self.edition, &self.named, name, directory)
            }
            Asked::Run(name, directory, ticks) => {
                run_target(
                    rt,
                    alloc,
                    self.edition,
                    &self.named,
                    name,
                    directory,
                    *ticks,
                )
            }
        }
    }
}
