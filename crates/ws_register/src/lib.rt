//! The greatest write for each path, on pages that copies share.
#![tactic(auto)]

mod draft;
mod edit;
mod grow;
mod leaves;
mod merge;
mod news;
mod node;
mod page;
mod pages;
mod rest;
mod search;

ghost use Rattle.std.specs.Prelude.{◌≡◌, ℕ, ◌+◌, ◌++◌, ◌∷◌, [], List, OnOk, OnErr, IfOk, IfErr, IfSome, IfNone, true, false, Some, None, string_bytes, option_copied, option_map, map as map_list};
ghost use Rattle.std.specs.FinMap as map;
ghost use Rattle.std.specs.List.{AllByRecursion, Contains};
ghost use Rattle.std.specs.Ordering.{is_gt, is_lt};
ghost use Rattle.ws_map.specs.Kept.{StandsFor, StandsAt, SameMembers, taken, joined as joined_by};
ghost use Rattle.ws_version.specs.Writes.{Write as AWrite, Held as AHeld, held_cmp, path_cmp, greater_held};
ghost use Rattle.ws_register.specs.Texted.{texted};
ghost use Rattle.ws_register.specs.Pages.{Ascends};
ghost use Rattle.ws_register.specs.Between.{is_from, is_past, is_between};
ghost use Rattle.ws_register.specs.Sources.{texts_of, is_in, file_in, files_in, pair_of, AreGreatestWrites, IsSources, HasFiles};
ghost use Rattle.ws_register.specs.declared.EditError.TheVariants.{Memory};
ghost use Rattle.ws_register.specs.News.{TakesAt, HoldBothAt};
ghost use Rattle.ws_register.specs.Edits.{top, greatest_at, greatest_counter, is_fitting, is_missing, edit_refusal, removal_refusal, IsRefusal, edited, removed};

use crate::pages::Pages;
use crate::rest::Rest;
use go_text::source::Source;
use go_text::text::Text;
use std::alloc::{AllocError, Global};
use std::marker::Model;
use std::ops::Bound;
use thiserror::Error;
use ws_path::{FilePath, directory as directory_of, file_name};
use ws_version::{Held, Join, Version, Write};

/// Why an edit or a removal is refused.
#[derive(Debug, Drop, Error)]
pub enum EditError {
    /// The path isn't one, or the source's name isn't the name of the file there.
    #[error("no path of a file")]
    BadPath,
    /// Nothing is held at the path, or a removal.
    #[error("no such file")]
    NoFile,
    /// No counter is left above the greatest that is held.
    #[error("the counter is full")]
    CounterFull,
    /// Memory ran out.
    #[error("out of memory")]
    Memory,
}

impl From<AllocError> for EditError {
    ghost from_gives = { λ _ e. e ≡ Memory };

    fn from(_e: AllocError) -> EditError {
        EditError::Memory
    }
}

/// The greatest write for each path, in the order of paths, and the greatest counter of all.
#[derive(Drop)]
pub struct Registers {
    alloc: Global,
    held: Pages,
    greatest: u64,
}

impl Model for Registers {
    ghost use Rattle.std.specs.FinMap as finite;
    ghost use Rattle.std.specs.Coded.{coded_ℕ, coded_list};
    ghost use Rattle.ws_version.specs.Writes.{Held as AHeld, held_code, path_cmp};

    ghost Value = { finite.FinMap path_cmp AHeld };

    ghost coded = { finite.code (coded_list coded_ℕ) held_code };

    ghost use Rattle.ws_register.specs.Sources.{RegistersInvariant};

    ghost view = { λ a. a.held };

    ghost invariant = { λ a. RegistersInvariant a.held a.greatest };
}

impl Registers {
    /// Registers that hold nothing.
    pub fn new(alloc: Global) -> Registers
        ensures { result ≡ map.empty }
    {
        Registers {
            alloc,
            held: Pages::new(alloc),
            greatest: 0,
        }
    }

    /// What is held at a path, a removal too.
    pub fn get(&self, path: &str) -> Option<&Held>
        ensures value { option_copied result ≡ map.get self.now path.now }
        ensures stands { (W : List AWrite) → StandsFor held_cmp self.now W → StandsAt held_cmp W path.now (option_copied result) }
    {
        self.held.get(path)
    }

    /// Takes one write: it is kept if it is above what is held at its path. An `Err`, for want of
    /// memory, changes nothing.
    pub fn apply(&mut self, write: Write) -> Result<(), AllocError>
        ensures ok { OnOk result (self.new ≡ taken greater_held self.old write.0 write.1) }
        ensures err { OnErr result (self.new ≡ self.old) }
        ensures stands { OnOk result ((W : List AWrite) → StandsFor held_cmp self.old W → StandsFor held_cmp self.new (W ++ write ∷ [])) }
    {
        write.see_file();
        let counter = write.held().counter();
        self.held.take(write)?;
        self.greatest = self.greatest.max(counter);
        Ok(())
    }

    /// The greatest counter that is held on any path, and 0 if nothing is held.
    pub fn greatest_counter(&self) -> u64
        ensures value { result ≡ greatest_counter self.now }
        ensures stands { (W : List AWrite) → StandsFor held_cmp self.now W → result ≡ top W }
    {
        self.greatest
    }

    /// Sees that the sources are source texts at paths of files.
    pub fn see_files(&self)
        ensures { (W : List AWrite) → StandsFor held_cmp self.now W → HasFiles W }
    {
        // So that what registers keep is known.
        let _held = &self.held;
    }

    /// Copies of the held writes, removals too, in path order. An `Err` is for want of memory.
    pub fn writes(&self) -> Result<Vec<Write>, AllocError>
        ensures ok { IfOk result (λ writes. writes.items ≡ map.entries self.now) }
        ensures stands { IfOk result (λ writes. (W : List AWrite) → StandsFor held_cmp self.now W → AreGreatestWrites W writes.items) }
    {
        let writes = list_of(self.alloc, self.held.iter())?;
        Ok(writes)
    }

    /// Copies of the sources: path and text of each held write that is no removal, in path order.
    /// An `Err` is for want of memory.
    pub fn sources(&self) -> Result<Vec<(String, Text)>, AllocError>
        ensures ok { IfOk result (λ sources. texted sources.items ≡ texts_of (map.entries self.now)) }
        ensures stands { IfOk result (λ sources. (W : List AWrite) → StandsFor held_cmp self.now W → IsSources W (texted sources.items)) }
    {
        let sources = sources_of(self.alloc, self.held.iter())?;
        Ok(sources)
    }

    /// Copies of the sources of a directory, in the order of their names: no removals. An `Err` is
    /// for want of memory.
    pub fn files(&self, directory: &str) -> Result<Vec<Source>, AllocError>
        ensures ok { IfOk result (λ files. map_list pair_of files.items ≡ files_in directory.now (texts_of (map.entries self.now))) }
        ensures stands { IfOk result (λ files. (W : List AWrite) → StandsFor held_cmp self.now W → (S : List (List ℕ × List ℕ)) × IsSources W S × (map_list pair_of files.items ≡ files_in directory.now S)) }
    {
        let files = files_of(self.alloc, &self.held, directory)?;
        Ok(files)
    }

    /// Registers of equal contents, which later edits of either don't change: both share their
    /// pages until then. An `Err` is for want of memory.
    pub fn snapshot(&self) -> Result<Registers, AllocError>
        ensures { IfOk result (λ snapshot. snapshot ≡ self.now) }
    {
        let held = self.held.copy()?;
        Ok(Registers {
            alloc: self.alloc,
            held,
            greatest: self.greatest,
        })
    }

    // Takes what another holds at a path.
    fn take_at(&mut self, other: &Registers, path: &FilePath) -> Result<(), AllocError>
        ensures { OnOk result (TakesAt path.now other.now self.old self.new) }
    {
        let Some(held) = other.get(path.as_str()) else {
            return Ok(());
        };
        let held = held.copy()?;
        let path = path.copy()?;
        self.apply(Write::new(path, held))
    }

    /// What it and another hold together, where the other has no news but at some paths: these
    /// alone are looked up. An `Err` is for want of memory.
    pub fn merged_at(&self, other: &Registers, paths: &[FilePath]) -> Result<Registers, AllocError>
        ensures { IfOk result (λ both. HoldBothAt paths.now self.now other.now both) }
    {
        let mut both = self.snapshot()?;
        for path in paths {
            both.take_at(other, path)?;
        }
        Ok(both)
    }

    /// The replica with that number writes a text, with one more than the greatest counter.
    ///
    /// It is `BadPath` if the path isn't one or the source isn't named as the file there, else
    /// `CounterFull` if the greatest counter is the last, and `Memory` may come in the place of
    /// any answer. An `Err` changes nothing.
    pub fn edit(&mut self, path: String, source: Source, number: u32) -> Result<(), EditError>
        ensures refused { IfErr result (λ error. IsRefusal error (edit_refusal (greatest_counter self.old) (string_bytes path) source.name)) }
        ensures allowed { OnOk result (edit_refusal (greatest_counter self.old) (string_bytes path) source.name ≡ None) }
        ensures ok { OnOk result (self.new ≡ taken greater_held self.old (string_bytes path) (edited (greatest_counter self.old) number source.text)) }
        ensures err { OnErr result (self.new ≡ self.old) }
        ensures stands { OnOk result ((W : List AWrite) → StandsFor held_cmp self.old W → StandsFor held_cmp self.new (W ++ (string_bytes path, edited (top W) number source.text) ∷ [])) }
    {
        let Some(path) = fitting(path, source.name()) else {
            return Err(EditError::BadPath);
        };
        let greatest = self.greatest_counter();
        if greatest == u64::MAX {
            return Err(EditError::CounterFull);
        }
        let version = Version {
            counter: greatest + 1,
            number,
        };
        let (_, text) = source.into_parts();
        self.apply(Write::new(path, Held::new(version, Some(text))))?;
        Ok(())
    }

    /// Whether nothing is held at a path, or a removal.
    fn is_missing(&self, path: &str) -> bool
        ensures { result ≡ is_missing (map.get self.now path.now) }
    {
        match self.get(path) {
            None => true,
            Some(held) => held.is_removed(),
        }
    }

    /// The replica with that number removes the file at a path, with one more than the greatest
    /// counter.
    ///
    /// It is `BadPath` if the path isn't one, else `NoFile` if nothing is held there or a
    /// removal, else `CounterFull` if the greatest counter is the last, and `Memory` may come in
    /// the place of any answer. An `Err` changes nothing.
    pub fn remove(&mut self, path: String, number: u32) -> Result<(), EditError>
        ensures refused { IfErr result (λ error. IsRefusal error (removal_refusal (greatest_counter self.old) (string_bytes path) (map.get self.old (string_bytes path)))) }
        ensures allowed { OnOk result (removal_refusal (greatest_counter self.old) (string_bytes path) (map.get self.old (string_bytes path)) ≡ None) }
        ensures ok { OnOk result (self.new ≡ taken greater_held self.old (string_bytes path) (removed (greatest_counter self.old) number)) }
        ensures err { OnErr result (self.new ≡ self.old) }
        ensures stands { OnOk result ((W : List AWrite) → StandsFor held_cmp self.old W → StandsFor held_cmp self.new (W ++ (string_bytes path, removed (top W) number) ∷ [])) }
    {
        let Some(path) = FilePath::new(path) else {
            return Err(EditError::BadPath);
        };
        if self.is_missing(path.as_str()) {
            return Err(EditError::NoFile);
        }
        let last = self.greatest_counter();
        if last == u64::MAX {
            return Err(EditError::CounterFull);
        }
        let version = Version {
            counter: last + 1,
            number,
        };
        self.apply(Write::new(path, Held::new(version, None)))?;
        Ok(())
    }
}

// The path, if it is one, and this the name of the file there.
fn fitting(text: String, name: &str) -> Option<FilePath>
    ensures path { IfSome result (λ path. path ≡ string_bytes text) }
    ensures allowed { IfSome result (λ _. is_fitting (string_bytes text) name.now ≡ true) }
    ensures refused { IfNone result (is_fitting (string_bytes text) name.now ≡ false) }
{
    let path = FilePath::new(text)?;
    if name != file_name(path.as_str()) {
        return None;
    }
    Some(path)
}

/// Replicas that took the same writes hold the same, however each came to them.
pub fn law_same_writes()
    ensures { (m n : map.FinMap path_cmp AHeld) → (V W : List AWrite) → SameMembers V W → StandsFor held_cmp m V → StandsFor held_cmp n W → m ≡ n }
{}

/// A write that is taken twice changes nothing.
pub fn law_taken_twice()
    ensures { (m n : map.FinMap path_cmp AHeld) → (W : List AWrite) → (w : AWrite) → StandsFor held_cmp m (W ++ w ∷ []) → StandsFor held_cmp n (W ++ w ∷ w ∷ []) → m ≡ n }
{}

/// A write that was taken is held, or is below the one that is held at its path.
pub fn law_taken_write()
    ensures { (m : map.FinMap path_cmp AHeld) → (W : List AWrite) → (w : AWrite) → StandsFor held_cmp m W → Contains W w → (h : AHeld) × (map.get m w.0 ≡ Some h) × Contains W (w.0, h) × (is_gt (held_cmp w.1 h) ≡ false) }
{}

/// The greatest counter is that of the writes that were taken, and a matter of membership alone.
pub fn law_greatest_counter()
    ensures taken { (m : map.FinMap path_cmp AHeld) → (W : List AWrite) → StandsFor held_cmp m W → greatest_counter m ≡ top W }
    ensures members { (V W : List AWrite) → SameMembers V W → top V ≡ top W }
{}

/// A set of writes has one list of sources, and sets with the same members have the same.
pub fn law_same_sources()
    ensures one { (W : List AWrite) → (S T : List (List ℕ × List ℕ)) → IsSources W S → IsSources W T → S ≡ T }
    ensures members { (V W : List AWrite) → (S T : List (List ℕ × List ℕ)) → SameMembers V W → IsSources V S → IsSources W T → S ≡ T }
{}

/// What a set of writes has at a path is what replicas that took it hold there, and a matter of
/// membership alone.
pub fn law_greatest_at()
    ensures held { (m : map.FinMap path_cmp AHeld) → (W : List AWrite) → (path : List ℕ) → StandsFor held_cmp m W → map.get m path ≡ greatest_at path W }
    ensures members { (V W : List AWrite) → (path : List ℕ) → SameMembers V W → greatest_at path V ≡ greatest_at path W }
{}

/// Where a removal was taken, a text that is held there is of a write above it: a removal never
/// brings an older text back.
pub fn law_removal_stays()
    ensures { (m : map.FinMap path_cmp AHeld) → (W : List AWrite) → (w : AWrite) → (h : AHeld) → StandsFor held_cmp m W → Contains W w → w.1.text ≡ None → map.get m w.0 ≡ Some h → is_missing (Some h) ≡ false → is_lt (held_cmp w.1 h) ≡ true }
{}

fn list_of(alloc: Global, rest: Rest<'_>) -> Result<Vec<Write>, AllocError>
    ensures { IfOk result (λ writes. writes.items ≡ rest.entry) }
{
    let mut writes = Vec::new(alloc);
    let mut left = rest;
    'writes: while let Some(write) = left.next() {
        writes.push(write.copy()?)?;
    }
    Ok(writes)
}

fn sources_of(alloc: Global, rest: Rest<'_>) -> Result<Vec<(String, Text)>, AllocError>
    ensures { IfOk result (λ sources. texted sources.items ≡ texts_of rest.entry) }
{
    let mut sources = Vec::new(alloc);
    let mut left = rest;
    'writes: while let Some(write) = left.next() {
        if let Some(text) = write.held().text() {
            let path = String::from_str(alloc, write.path())?;
            sources.push((path, text.copy()?))?;
        }
    }
    Ok(sources)
}

fn files_of(alloc: Global, held: &Pages, directory: &str) -> Result<Vec<Source>, AllocError>
    ensures { IfOk result (λ files. map_list pair_of files.items ≡ files_in directory.now (texts_of (map.entries held.now))) }
{
    let (start, end) = ends_of(alloc, directory)?;
    let files = files_before(alloc, walk_from(held, &start), &end, directory)?;
    Ok(files)
}

// Two ends that the paths of a directory's files lie between. Only the files in no directory don't
// stand together.
fn ends_of(alloc: Global, directory: &str) -> Result<(Bound<String>, Bound<String>), AllocError>
    ensures { IfOk result (λ ends. (path : List ℕ) → is_in directory.now path ≡ true → is_between ends.0 ends.1 path ≡ true) }
{
    if directory.is_empty() {
        return Ok((Bound::Unbounded, Bound::Unbounded));
    }
    // The byte behind the slash is `0`.
    let start = followed_by(alloc, directory, "/")?;
    let end = followed_by(alloc, directory, "0")?;
    Ok((Bound::Included(start), Bound::Excluded(end)))
}

fn followed_by(alloc: Global, directory: &str, end: &str) -> Result<String, AllocError>
    ensures { IfOk result (λ text. string_bytes text ≡ directory.now ++ end.now) }
{
    let mut text = String::from_str(alloc, directory)?;
    text.push_str(end)?;
    Ok(text)
}

// The writes from a start on, and maybe some before it.
fn walk_from<'a>(held: &'a Pages, start: &Bound<String>) -> Rest<'a>
    ensures { (front : List AWrite) × (map.entries held.now ≡ front ++ result) × AllByRecursion (λ w. is_from start.now w.0 ≡ false) front }
{
    match start {
        Bound::Included(path) => held.iter_from(path),
        _ => held.iter(),
    }
}

fn is_past(end: &Bound<String>, path: &str) -> bool
    ensures { result ≡ is_past end.now path.now }
{
    match end {
        Bound::Included(last) => last.as_str() < path,
        Bound::Excluded(first) => first.as_str() <= path,
        Bound::Unbounded => false,
    }
}

// The files of a directory, all of which stand before an end.
fn files_before(
    alloc: Global,
    rest: Rest<'_>,
    end: &Bound<String>,
    directory: &str,
) -> Result<Vec<Source>, AllocError>
    requires ascends { Ascends rest }
    requires before { (path : List ℕ) → is_in directory.now path ≡ true → is_past end.now path ≡ false }
    ensures { IfOk result (λ files. map_list pair_of files.items ≡ files_in directory.now (texts_of rest.entry)) }
{
    let mut files = Vec::new(alloc);
    let mut left = rest;
    'writes: while let Some(write) = left.next() {
        if is_past(end, write.path()) {
            return Ok(files);
        }
        if let Some(file) = file_of(alloc, write.path(), write.held(), directory)? {
            files.push(file)?;
        }
    }
    Ok(files)
}

// The file of a directory that is held at a path, if it is one.
fn file_of(
    alloc: Global,
    path: &str,
    held: &Held,
    directory: &str,
) -> Result<Option<Source>, AllocError>
    ensures { IfOk result (λ file. option_map pair_of file ≡ file_in directory.now (path.now, held.now)) }
{
    let Some(text) = held.text() else {
        return Ok(None);
    };
    if directory_of(path) != directory {
        return Ok(None);
    }
    let name = String::from_str(alloc, file_name(path))?;
    Ok(Some(Source::of(name, text.copy()?)))
}

impl Join for Registers {
    ghost use Rattle.ws_map.specs.Kept.{joined as joined_by};
    ghost use Rattle.ws_map.proofs.Kept.{joined-commutative, joined-associative, joined-idempotent};
    ghost use Rattle.ws_version.specs.Writes.{greater_held};
    ghost use Rattle.ws_version.proofs.Writes.{path_cmp_total, path_cmp-IsAntisymmetric, held-semilattice};

    ghost joined = { joined_by greater_held };

    ghost commutative = { joined-commutative path_cmp_total path_cmp-IsAntisymmetric held-semilattice };

    ghost associative = { joined-associative path_cmp_total path_cmp-IsAntisymmetric held-semilattice };

    ghost idempotent = { joined-idempotent path_cmp_total path_cmp-IsAntisymmetric held-semilattice };

    fn copy(&self) -> Result<Registers, AllocError> {
        self.snapshot()
    }

    fn merge(&mut self, other: &Registers) -> Result<(), AllocError>
        ensures ok { OnOk result (self.new ≡ joined_by greater_held self.old other.now) }
        ensures err { OnErr result (self.new ≡ self.old) }
        ensures stands { OnOk result ((V W : List AWrite) → StandsFor held_cmp self.old V → StandsFor held_cmp other.now W → StandsFor held_cmp self.new (V ++ W)) }
    {
        self.held.merge(&other.held)?;
        self.greatest = self.greatest.max(other.greatest);
        Ok(())
    }
}
