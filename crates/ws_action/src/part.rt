//! What actions are made of besides the edition and the directory: files and imports, each a text with a name.
ghost use Rattle.std.specs.Prelude.{◌≡◌, ◌++◌, ◌<◌, map, OnOk};
ghost use Rattle.std.specs.Arc.{arc_value};
ghost use Rattle.std.specs.Ordering.{ordering_then};
ghost use Rattle.std.specs.Cmp.Lexicographic.{slice_cmp};
ghost use Rattle.sha2.specs.Sha256.{sha256};
ghost use Rattle.std.specs.declared.cmp.Ordering.{Ordering as AnOrdering};
ghost use Rattle.ws_action.specs.Actions.{Named, named_summary, ascends, list_text, AreSized, named_cmp, import_cmp};

use go_ast::parsed::Parsed;
use go_export::field::{digest, push_field, push_number};
use go_export::summary::Summary;
use go_text::source::Source;
use std::alloc::AllocError;
use std::cmp::Ordering;
use std::sync::Arc;

/// A text with a name.
pub(crate) trait Part {
    ghost named: { Self → Named };

    /// How parts are ordered.
    ghost order: { Named → Named → AnOrdering };

    /// Its name, or its path.
    fn part_name(&self) -> &str
        ensures { result.now ≡ (named self.now).0 };

    /// The bytes of its text.
    fn part_text(&self) -> &[u8]
        ensures { result.now ≡ (named self.now).1 };

    /// The digest of its text.
    fn part_digest(&self) -> [u8; 32]
        ensures { result ≡ sha256 (named self.now).1 };

    /// How it compares with another one: a source by name, then text; a summary by text, then path.
    fn part_cmp(&self, other: &Self) -> Ordering
        ensures { result ≡ order (named self.now) (named other.now) };
}

impl Part for Parsed {
    ghost use Rattle.ws_action.specs.Actions.{source_with_name, named_cmp};

    ghost named = { source_with_name };

    ghost order = { named_cmp };

    fn part_name(&self) -> &str {
        self.name()
    }

    fn part_text(&self) -> &[u8] {
        self.text().as_str().as_bytes()
    }

    fn part_digest(&self) -> [u8; 32] {
        digest(self.text().as_str().as_bytes())
    }

    fn part_cmp(&self, other: &Self) -> Ordering {
        match self.part_name().cmp(other.part_name()) {
            Ordering::Equal => self.part_text().cmp(other.part_text()),
            unequal => unequal,
        }
    }
}

impl Part for Arc<Source> {
    ghost use Rattle.std.specs.Arc.{arc_value};
    ghost use Rattle.ws_action.specs.Actions.{named_source, named_cmp};

    ghost named = { λ s. named_source (arc_value s) };

    ghost order = { named_cmp };

    fn part_name(&self) -> &str {
        self.name()
    }

    fn part_text(&self) -> &[u8] {
        self.text().as_str().as_bytes()
    }

    fn part_digest(&self) -> [u8; 32] {
        digest(self.text().as_str().as_bytes())
    }

    fn part_cmp(&self, other: &Self) -> Ordering {
        match self.part_name().cmp(other.part_name()) {
            Ordering::Equal => self.part_text().cmp(other.part_text()),
            unequal => unequal,
        }
    }
}

impl Part for Arc<Summary> {
    ghost use Rattle.std.specs.Arc.{arc_value};
    ghost use Rattle.ws_action.specs.Actions.{named_summary, import_cmp};

    ghost named = { λ s. named_summary (arc_value s) };

    ghost order = { import_cmp };

    fn part_name(&self) -> &str {
        self.path()
    }

    fn part_text(&self) -> &[u8] {
        self.text()
    }

    fn part_digest(&self) -> [u8; 32] {
        self.digest()
    }

    fn part_cmp(&self, other: &Self) -> Ordering {
        match self.part_text().cmp(other.part_text()) {
            Ordering::Equal => self.part_name().cmp(other.part_name()),
            unequal => unequal,
        }
    }
}

/// Whether each name is below the next one, by bytes.
pub(crate) fn ascend<P: Part>(parts: &[P]) -> bool
    ensures { result ≡ ascends (map P.named parts.now) }
{
    let Some((first, rest)) = parts.split_first() else {
        return true;
    };
    let mut last = first;
    for part in rest {
        if last.part_name() >= part.part_name() {
            return false;
        }
        last = part;
    }
    true
}

/// Reads how long each name is: that the lengths fit 64 bits is known of what is read.
pub(crate) fn measure<P: Part>(parts: &[P])
    ensures { AreSized (map P.named parts.now) }
{
    let _ = parts.len();
    for part in parts {
        let _ = part.part_name().len();
    }
}

/// Appends how many parts there are, and of each the name and the digest of its text.
pub(crate) fn push_parts<P: Part>(text: &mut Vec<u8>, parts: &[P]) -> Result<(), AllocError>
    ensures { OnOk result (text.new.items ≡ text.old.items ++ list_text (map P.named parts.now)) }
{
    push_number(text, parts.len() as u64)?;
    for part in parts {
        push_field(text, part.part_name().as_bytes())?;
        push_field(text, &part.part_digest())?;
    }
    Ok(())
}

/// As lists of parts.
pub(crate) fn cmp_parts<P: Part>(parts: &[P], others: &[P]) -> Ordering
    ensures { result ≡ slice_cmp P.order (map P.named parts.now) (map P.named others.now) }
{
    for (i, part) in parts.iter().enumerate() {
        let Some(other) = others.get(i) else {
            return Ordering::Greater;
        };
        match part.part_cmp(other) {
            Ordering::Equal => {}
            unequal => return unequal,
        }
    }
    if parts.len() < others.len() {
        Ordering::Less
    } else {
        Ordering::Equal
    }
}

/// By the files, then the imports.
pub(crate) fn cmp_lists<P: Part>(
    files: &[P],
    other_files: &[P],
    imports: &[Arc<Summary>],
    other_imports: &[Arc<Summary>],
) -> Ordering
    ensures { result ≡ ordering_then (slice_cmp P.order (map P.named files.now) (map P.named other_files.now)) (slice_cmp import_cmp (map named_summary (map arc_value imports.now)) (map named_summary (map arc_value other_imports.now))) }
{
    match cmp_parts(files, other_files) {
        Ordering::Equal => cmp_parts(imports, other_imports),
        unequal => unequal,
    }
}
