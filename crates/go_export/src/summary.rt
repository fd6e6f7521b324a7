//! What the importers of a package know of it.
ghost use Rattle.std.specs.Prelude.{◌≡◌, ◌<◌, ◌^◌, Err, IfOk, OnOk, length};
ghost use Rattle.std.specs.List.{All};
ghost use Rattle.std.specs.Map.{values_of};
ghost use Rattle.std.specs.Option.{option_map};
ghost use Rattle.go_typed.specs.Views.{typed_of};
ghost use Rattle.go_export.specs.declared.error.SummaryError.TheVariants.{Unshown};
ghost use Rattle.go_export.specs.Exports.{exports_of, look_up_export};
ghost use Rattle.go_export.specs.Summaries.{summary_of, summary_text, summary_digest};
ghost use Rattle.go_export.specs.Views.{all_exports, export_of};
ghost use Rattle.go_export.specs.Writable.{IsShown, IsWritten};

use crate::collection::exports_of;
use crate::error::SummaryError;
use crate::export::Export;
use crate::field::digest;
use crate::text::text_of;
use crate::written::are_shown;
use go_text::edition::Edition;
use go_typed::package::Typed;
use std::alloc::Global;
use std::collections::BTreeMap;
use std::marker::Model;

/// What the importers of a package know of it: its edition, its path, its name and what it exports.
/// It holds the text that stands for it in digests, which doesn't tell the edition, and that text's
/// digest, so that none who takes the digest hashes the text again.
/// [Import declarations](https://go.dev/ref/spec#Import_declarations)
#[derive(Drop)]
pub struct Summary {
    edition: Edition,
    path: String,
    name: String,
    named: BTreeMap<String, Export>,
    text: Vec<u8>,
    digest: [u8; 32],
}

impl Model for Summary {
    ghost use Rattle.std.specs.Prelude.{◌≡◌, string_bytes};
    ghost use Rattle.go_export.specs.Codes.{summary_code};
    ghost use Rattle.go_export.specs.Summaries as summaries;

    ghost Value = { summaries.Summary };

    ghost coded = { summary_code };

    ghost use Rattle.go_export.specs.Views.{summary_from};

    ghost view = { λ s. summary_from s.edition (string_bytes s.path) (string_bytes s.name) s.named.entries };

    ghost use Rattle.sha2.specs.Sha256.{sha256};
    ghost use Rattle.go_export.specs.Writable as writable;

    ghost invariant = { λ s. (s.text.items ≡ summaries.summary_text (summary_from s.edition (string_bytes s.path) (string_bytes s.name) s.named.entries))
        × (s.digest ≡ sha256 s.text.items)
        × writable.IsWritten (summary_from s.edition (string_bytes s.path) (string_bytes s.name) s.named.entries) };
}

impl Summary {
    /// The summary of a checked package. `Unshown` exactly where its text wouldn't tell what the
    /// package exports: names in types have a space, a brace or a dot, or a constant isn't of its
    /// type, which is so of no checked package whose path is plain. `Memory` only where memory ran
    /// out.
    pub fn of(alloc: Global, typed: &Typed) -> Result<Summary, SummaryError>
        ensures ok { IfOk result (λ s. s ≡ summary_of (typed_of typed.now)) }
        ensures shown { OnOk result (All IsShown (values_of (exports_of (typed_of typed.now)))) }
        ensures unshown { result ≡ Err Unshown → ¬ (All IsShown (values_of (exports_of (typed_of typed.now)))) }
    {
        let path = typed.path.clone()?;
        let name = typed.name.clone()?;
        let named = exports_of(alloc, typed)?;
        if !are_shown(&named) {
            return Err(SummaryError::Unshown);
        }
        let text = text_of(alloc, &path, &name, &named)?;
        let _ = text.len();
        let digest = digest(&text);
        Ok(Summary {
            edition: typed.edition,
            path,
            name,
            named,
            text,
            digest,
        })
    }

    /// That its text tells it.
    pub fn written(&self)
        ensures { IsWritten self.now }
    {
        let _ = self.text.len();
    }

    /// The edition of the language that the package is written in.
    pub fn edition(&self) -> Edition
        ensures { result ≡ self.now.edition }
    {
        self.edition
    }

    /// The directory that the package stands in, which is its path.
    pub fn path(&self) -> &str
        ensures { result.now ≡ self.now.path }
    {
        self.path.as_str()
    }

    /// The name in its package clauses.
    pub fn package(&self) -> &str
        ensures { result.now ≡ self.now.package }
    {
        self.name.as_str()
    }

    /// What a name exports, if the package exports that name.
    /// [Qualified identifiers](https://go.dev/ref/spec#Qualified_identifiers)
    pub fn find(&self, name: &str) -> Option<&Export>
        ensures { option_map (λ e. export_of e.now) result ≡ look_up_export name.now self.now.exports }
    {
        self.named.get(name)
    }

    /// All that the package exports, by name.
    pub fn exports(&self) -> &BTreeMap<String, Export>
        ensures { all_exports result.now.entries ≡ self.now.exports }
    {
        &self.named
    }

    /// The text that stands for the summary in digests.
    pub fn text(&self) -> &[u8]
        ensures value { result.now ≡ summary_text self.now }
        ensures sized { length (summary_text self.now) < 2 ^ 64 }
    {
        self.text.as_slice()
    }

    /// The SHA-256 digest of the summary's text.
    pub fn digest(&self) -> [u8; 32]
        ensures { result ≡ summary_digest self.now }
    {
        self.digest
    }
}
