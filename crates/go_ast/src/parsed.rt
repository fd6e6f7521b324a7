//! Sources that are files.
ghost use Rattle.std.specs.Prelude.{◌≡◌, IfOk};
ghost use Rattle.go_ast.specs.Views.{file_of};
ghost use Rattle.go_ast.specs.Parse.{Derived, IsParse, IsPackage};
ghost use Rattle.std.specs.Arc.{arc_value};

use crate::file::File;
use crate::name::Name;
use go_text::edition::Edition;
use go_text::source::Source;
use go_text::text::Text;
use std::alloc::AllocError;
use std::marker::Model;
use std::sync::Arc;

/// A source with the file that its text is in an edition of the language. Copies share source and file.
#[derive(Drop)]
pub struct Parsed {
    source: Arc<Source>,
    edition: Edition,
    file: Arc<File>,
}

impl Model for Parsed {
    ghost use Rattle.std.specs.Arc.{arc_value};
    ghost use Rattle.go_ast.specs.Views.{file_of};
    ghost use Rattle.go_ast.specs.Parse as parses;

    ghost Value = { parses.Parsed };

    ghost view = { λ a. record { name = (arc_value a.source).name; text = (arc_value a.source).text; edition = a.edition } };

    ghost invariant = { λ a. parses.IsParse a.edition (arc_value a.source).text (parses.Derived (file_of (arc_value a.file))) };
}

impl Parsed {
    /// A source with a file, which the caller knows to be the one that the source's text is in that edition.
    pub fn of(source: Arc<Source>, edition: Edition, file: Arc<File>) -> Parsed
        requires { IsParse edition (arc_value source).text (Derived (file_of (arc_value file))) }
        ensures name { result.name ≡ (arc_value source).name }
        ensures text { result.text ≡ (arc_value source).text }
        ensures edition { result.edition ≡ edition }
    {
        Parsed {
            source,
            edition,
            file,
        }
    }

    /// The file's name.
    pub fn name(&self) -> &str
        ensures { result.now ≡ self.now.name }
    {
        self.source.name()
    }

    /// The file's text.
    pub fn text(&self) -> &Text
        ensures { result.now ≡ self.now.text }
    {
        self.source.text()
    }

    /// The source, which copies share.
    pub fn source(&self) -> &Arc<Source>
        ensures name { (arc_value result.now).name ≡ self.now.name }
        ensures text { (arc_value result.now).text ≡ self.now.text }
    {
        &self.source
    }

    /// The edition of the language that the file is of.
    pub fn edition(&self) -> Edition
        ensures { result ≡ self.now.edition }
    {
        self.edition
    }

    /// The file that the text is.
    pub fn file(&self) -> &File
        ensures { IsParse self.now.edition self.now.text (Derived (file_of result.now)) }
    {
        &self.file
    }

    /// The name in the file's package clause.
    pub fn package(&self) -> &Name
        ensures { IsPackage self.now.edition self.now.text result.now }
    {
        &self.file().package
    }

    /// Another of equal value, which shares the text and the file. An `Err` only where memory ran
    /// out.
    pub fn copy(&self) -> Result<Parsed, AllocError>
        ensures { IfOk result (λ copy. copy ≡ self.now) }
    {
        let source = Arc::try_clone(&self.source)?;
        let file = Arc::try_clone(&self.file)?;
        Ok(Parsed {
            source,
            edition: self.edition,
            file,
        })
    }
}
