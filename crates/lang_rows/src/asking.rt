//! What rows ask.
use crate::objects::linked;
use crate::packages::{Checked, check_packages};
use crate::runs::ran;
use crate::scopes::found;
use crate::sources::{said, verdict};
use crate::summaries::summarized;
use crate::texts::written;
use crate::tokens::tokens;
use crate::values::last_value;
use go_text::edition::Edition;
use std::alloc::Global;
use test_rows::answers::{Answers, RowError};

/// Answers rows about the language.
#[derive(Drop)]
pub(crate) struct LanguageRows {
    /// The packages that rows are written into, at the place of a `…`.
    ground: String,
}

impl LanguageRows {
    /// Rows that stand alone.
    pub(crate) fn new(alloc: Global) -> LanguageRows {
        LanguageRows {
            ground: String::new(alloc),
        }
    }

    /// The answer in an edition to what a row of a kind asks.
    fn answer_in(
        &self,
        alloc: Global,
        edition: Edition,
        kind: &str,
        text: &str,
    ) -> Result<String, RowError> {
        match kind {
            "verdict" | "value" | "summary" => {
                let texts = self.ground.as_str().replace(alloc, "…", text)?;
                let package = check_packages(alloc, edition, &texts)?;
                answer_about(alloc, kind, text, package)
            }
            _ => answer_alone(alloc, edition, kind, text),
        }
    }
}

/// The answer about the last package of a row: its first fault, or else that it is good, what its last declaration is, or its
/// summary.
fn answer_about(
    alloc: Global,
    kind: &str,
    text: &str,
    package: Checked,
) -> Result<String, RowError> {
    let typed = match package {
        Checked::Faulty(fault) => return Ok(fault),
        Checked::Good(typed) => typed,
    };
    match kind {
        "value" => last_value(alloc, text, &typed),
        "summary" => summarized(alloc, &typed),
        _ => Ok(String::from_str(alloc, "good")?),
    }
}

/// Texts of a `file`, or of `declarations` behind the clause of a package p; what an `error` says; `tokens`; names in
/// `scopes`; images that `run`, and objects that a `link` makes to one.
fn answer_alone(
    alloc: Global,
    edition: Edition,
    kind: &str,
    text: &str,
) -> Result<String, RowError> {
    match kind {
        "file" => verdict(alloc, edition, text),
        "declarations" => verdict(alloc, edition, &format!(in alloc; "package p\n{text}")?),
        "error" => said(alloc, edition, text),
        "tokens" => tokens(alloc, text),
        "scopes" => found(alloc, text),
        "run" => ran(alloc, text),
        "link" => linked(alloc, text),
        _ => Err(RowError::NoRow),
    }
}

impl Answers for LanguageRows {
    fn begin(&mut self, _alloc: Global) {}

    fn answer(&mut self, alloc: Global, kind: &str, asked: &str) -> Result<String, RowError> {
        let text = written(alloc, asked)?;
        if kind == "ground" {
            self.ground = text;
            return Ok(String::from_str(alloc, "taken")?);
        }
        if let Some(kind) = kind.strip_prefix("newer ") {
            return self.answer_in(alloc, Edition::Two, kind, &text);
        }
        let Some(kind) = kind.strip_prefix("any ") else {
            return self.answer_in(alloc, Edition::One, kind, &text);
        };
        let older = self.answer_in(alloc, Edition::One, kind, &text)?;
        let newer = self.answer_in(alloc, Edition::Two, kind, &text)?;
        if older == newer {
            return Ok(newer);
        }
        Ok(format!(in alloc; "{older} or {newer}")?)
    }
}
