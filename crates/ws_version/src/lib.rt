//! What replicas join: the trait, versions, and what is held at a path.
#![tactic(auto)]

ghost use Rattle.std.specs.Prelude.{◌≡◌, true, OnOk, OnErr, IfOk, is_none, option_copied};
ghost use Rattle.std.specs.List.{list_all};
ghost use Rattle.std.specs.Ordering.{nat_cmp};
ghost use Rattle.std.specs.Option.{option_cmp};
ghost use Rattle.std.specs.Cmp.Lexicographic.{slice_cmp};
ghost use Rattle.ws_path.specs.Paths.{is_path};
ghost use Rattle.ws_version.specs.Writes.{held_cmp, is_byte, IsOfFile};

use go_text::text::Text;
use std::alloc::AllocError;
use std::cmp::Ordering;
use std::marker::Model;
use ws_map::Ranked;
use ws_path::FilePath;

/// A replica's contents, which any other's may be joined to.
pub trait Join: Send + Sync + Sized {
    /// What two hold together.
    ghost joined: { Self → Self → Self };

    /// Another of equal contents, or an `Err` for want of memory.
    fn copy(&self) -> Result<Self, AllocError>
        ensures { IfOk result (λ copy. copy ≡ self.now) };

    /// Takes all that the other holds. An `Err`, for want of memory, changes nothing.
    fn merge(&mut self, other: &Self) -> Result<(), AllocError>
        ensures ok { OnOk result (self.new ≡ joined self.old other.now) }
        ensures err { OnErr result (self.new ≡ self.old) };

    ghost commutative: { (a b : Self) → joined a b ≡ joined b a };

    ghost associative: { (a b c : Self) → joined (joined a b) c ≡ joined a (joined b c) };

    ghost idempotent: { (a : Self) → joined a a ≡ a };
}

/// When a write was made: a counter that each edit of a replica raises, and the number of the
/// replica that made it.
#[derive(Clone, Copy, PartialEq, Eq, PartialOrd, Ord)]
pub struct Version {
    pub counter: u64,
    pub number: u32,
}

/// What a replica holds at a path: a text, or that the file is removed, as of a version.
#[derive(Drop)]
pub struct Held {
    version: Version,
    text: Option<Text>,
}

impl Model for Held {
    ghost use Rattle.ws_version.specs.Writes as writes;

    ghost Value = { writes.Held };

    ghost view = { λ a. record { counter = a.version.counter; number = a.version.number; text = a.text } };
}

impl Held {
    /// A text as of a version, or with no text that the file is removed.
    pub fn new(version: Version, text: Option<Text>) -> Held
        ensures { result ≡ record { counter = version.counter; number = version.number; text = text } }
    {
        Held { version, text }
    }

    /// Another of equal contents, which shares the text, or an `Err` for want of memory.
    pub fn copy(&self) -> Result<Held, AllocError>
        ensures { IfOk result (λ copy. copy ≡ self.now) }
    {
        let text = match &self.text {
            None => None,
            Some(text) => Some(text.copy()?),
        };
        Ok(Held {
            version: self.version,
            text,
        })
    }

    pub fn counter(&self) -> u64
        ensures { result ≡ self.now.counter }
    {
        self.version.counter
    }

    /// The number of the replica that wrote it.
    pub fn number(&self) -> u32
        ensures { result ≡ self.now.number }
    {
        self.version.number
    }

    /// The text, or none where the file is removed.
    pub fn text(&self) -> Option<&Text>
        ensures { option_copied result ≡ self.now.text }
    {
        self.text.as_ref()
    }

    pub fn is_removed(&self) -> bool
        ensures { result ≡ is_none self.now.text }
    {
        self.text.is_none()
    }

    /// By counter, then number, then removed before text, then the bytes of the text.
    pub fn cmp_held(&self, other: &Held) -> Ordering
        ensures { result ≡ held_cmp self.now other.now }
    {
        match self.version.cmp(&other.version) {
            Ordering::Equal => self.cmp_text(other),
            unequal => unequal,
        }
    }

    fn cmp_text(&self, other: &Held) -> Ordering
        ensures { result ≡ option_cmp (slice_cmp nat_cmp) self.now.text other.now.text }
    {
        match (&self.text, &other.text) {
            (None, None) => Ordering::Equal,
            (None, Some(_)) => Ordering::Less,
            (Some(_), None) => Ordering::Greater,
            (Some(text), Some(others)) => text.as_str().cmp(others.as_str()),
        }
    }
}

impl Clone for Held {
    ghost is_clone = { λ held clone. clone ≡ held };

    fn clone(&self) -> Result<Held, AllocError> {
        self.copy()
    }
}

impl Ranked for Held {
    ghost use Rattle.ws_version.specs.Writes.{held_cmp};
    ghost use Rattle.ws_version.specs.Laws.{held_cmp_total, held_cmp-IsAntisymmetric};

    ghost rank = { held_cmp };

    ghost total = { held_cmp_total };

    ghost one = { held_cmp-IsAntisymmetric };

    ghost cloned = { λ a b e. e };

    fn is_below(&self, other: &Held) -> bool {
        match self.cmp_held(other) {
            Ordering::Less => true,
            _ => false,
        }
    }
}

/// A write: what is held, at the path of a file.
#[derive(Drop)]
pub struct Write {
    path: FilePath,
    held: Held,
}

impl Model for Write {
    ghost use Rattle.ws_version.specs.Writes as writes;

    ghost Value = { writes.Write };

    ghost view = { λ a. (a.path, a.held) };
}

impl Write {
    pub fn new(path: FilePath, held: Held) -> Write
        ensures { result ≡ (path, held) }
    {
        Write { path, held }
    }

    /// Another of equal contents, or an `Err` for want of memory.
    pub fn copy(&self) -> Result<Write, AllocError>
        ensures { IfOk result (λ copy. copy ≡ self.now) }
    {
        let path = self.path.copy()?;
        let held = self.held.copy()?;
        Ok(Write { path, held })
    }

    pub fn path(&self) -> &str
        ensures { result.now ≡ self.now.0 }
    {
        self.path.as_str()
    }

    pub fn held(&self) -> &Held
        ensures { result.now ≡ self.now.1 }
    {
        &self.held
    }

    pub fn into_parts(self) -> (FilePath, Held)
        ensures path { result.0 ≡ self.0 }
        ensures held { result.1 ≡ self.1 }
    {
        (self.path, self.held)
    }

    /// Sees that the path is one, and the text a source text.
    pub fn see_file(&self)
        ensures { IsOfFile self.now }
    {
        let _path = self.path.as_str();
        if let Some(text) = self.held.text() {
            see_bytes(text.as_str().as_bytes());
        }
    }
}

/// Sees that bytes are such.
fn see_bytes(bytes: &[u8])
    ensures { list_all is_byte bytes.now ≡ true }
{}
