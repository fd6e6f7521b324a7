//! Files that an earlier plan parsed. Nothing is asked of them: what isn't found is parsed.
ghost use Rattle.std.specs.Prelude.{◌≡◌, false, IfOk, IfSome};
ghost use Rattle.std.specs.Bool.{OnTrue};
ghost use Rattle.ws_graph.specs.Plan.{is_large};
ghost use Rattle.ws_graph.specs.Discovery.{IsFileOf};

use go_ast::parsed::Parsed;
use go_text::edition::Edition;
use go_text::source::Source;
use std::alloc::AllocError;

/// A directory of an earlier plan. It is found where directories stand in the order of their paths,
/// and its files where they stand in that of their names.
#[derive(Clone, Copy)]
pub struct PreviousFiles<'a> {
    /// Its path.
    pub path: &'a str,
    /// Its files.
    pub files: &'a [Parsed],
}

/// The files of a directory, if it is there.
pub fn files_at<'a>(known: &[PreviousFiles<'a>], path: &str) -> Option<&'a [Parsed]> {
    let found = known.binary_search_by(|one| one.path.cmp(path));
    let Ok(number) = found else {
        return None;
    };
    let one = known.get(number)?;
    Some(one.files)
}

fn file_named<'a>(known: &'a [Parsed], name: &str) -> Option<&'a Parsed> {
    let found = known.binary_search_by(|file| file.name().cmp(name));
    let Ok(number) = found else {
        return None;
    };
    known.get(number)
}

fn has_edition(file: &Parsed, edition: Edition) -> bool
    ensures { OnTrue result (file.now.edition ≡ edition) }
{
    file.edition() == edition
}

fn has_name(file: &Parsed, name: &str) -> bool
    ensures { OnTrue result (file.now.name ≡ name.now) }
{
    file.name() == name
}

fn has_text(file: &Parsed, text: &str) -> bool
    ensures { OnTrue result (file.now.text ≡ text.now) }
{
    file.text().as_str() == text
}

/// What a source is in an edition, if it is among some files. An `Err` only where memory ran out.
pub fn known_file(
    edition: Edition,
    source: &Source,
    known: Option<&[Parsed]>,
) -> Result<Option<Parsed>, AllocError>
    requires { is_large edition source.now.text ≡ false }
    ensures { IfOk result (λ known. IfSome known (IsFileOf edition source.now)) }
{
    let Some(files) = known else {
        return Ok(None);
    };
    let Some(file) = file_named(files, source.name()) else {
        return Ok(None);
    };
    if has_edition(file, edition)
        && has_name(file, source.name())
        && has_text(file, source.text().as_str())
    {
        // The accessor is what says that the text is a file.
        let _file = file.file();
        return Ok(Some(file.copy()?));
    }
    Ok(None)
}
