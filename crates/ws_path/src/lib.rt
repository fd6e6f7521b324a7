//! Paths of files: which texts are paths, and their two parts.
#![tactic(auto)]

ghost use Rattle.std.specs.Prelude.{◌≡◌, ℕ, List, ◌∷◌, ◌++◌, true, false, not, string_bytes, IfOk, IfSome, IfNone};
ghost use Rattle.std.specs.List.{All, list_all};
ghost use Rattle.ws_path.specs.Paths.{is_slash, is_element_byte, is_only_dots, is_element, is_go_file, is_reserved, has_two_elements, has_elements, is_path, directory, file_name};

use std::alloc::AllocError;
use std::marker::Model;

/// The path of a file.
#[derive(Drop)]
pub struct FilePath {
    text: String,
}

impl Model for FilePath {
    ghost use Rattle.std.specs.Prelude.{List, ℕ, ◌≡◌, true, string_bytes};
    ghost use Rattle.ws_path.specs.Paths.{is_path};

    ghost Value = { List ℕ };

    ghost view = { λ a. string_bytes a.text };

    ghost invariant = { λ a. is_path (string_bytes a.text) ≡ true };
}

impl FilePath {
    /// The text, if it is a path.
    pub fn new(text: String) -> Option<FilePath>
        ensures path { IfSome result (λ path. path ≡ string_bytes text) }
        ensures allowed { IfSome result (λ _. is_path (string_bytes text) ≡ true) }
        ensures refused { IfNone result (is_path (string_bytes text) ≡ false) }
    {
        if !is_path(text.as_str()) {
            return None;
        }
        Some(FilePath { text })
    }

    /// Its text.
    pub fn as_str(&self) -> &str
        ensures value { result.now ≡ self.now }
        ensures valid { is_path self.now ≡ true }
    {
        self.text.as_str()
    }

    /// Another of the same text. An `Err` only where memory ran out.
    pub fn copy(&self) -> Result<FilePath, AllocError>
        ensures { IfOk result (λ copy. copy ≡ self.now) }
    {
        let text = self.text.clone()?;
        Ok(FilePath { text })
    }
}

/// What stands before the last slash, and nothing where there is none.
pub fn directory(path: &str) -> &str
    ensures { result.now ≡ directory path.now }
{
    match path.rsplit_once('/') {
        None => "",
        Some((directory, _)) => directory,
    }
}

/// What stands behind the last slash, and all where there is none.
pub fn file_name(path: &str) -> &str
    ensures { result.now ≡ file_name path.now }
{
    match path.rsplit_once('/') {
        None => path,
        Some((_, name)) => name,
    }
}

/// A path is its directory, a slash and its file name.
pub fn law_path_parts()
    ensures { (path : List ℕ) → is_path path ≡ true → path ≡ directory path ++ 47 ∷ file_name path }
{}

/// What stands before a slash is the directory, and what stands behind it the file name, where no
/// further slash follows.
pub fn law_parts_of_path()
    ensures directory { (front back : List ℕ) → All (λ b. not (is_slash b) ≡ true) back → directory (front ++ 47 ∷ back) ≡ front }
    ensures file_name { (front back : List ℕ) → All (λ b. not (is_slash b) ≡ true) back → file_name (front ++ 47 ∷ back) ≡ back }
{}

/// Whether a text is a path: at most 200 bytes, two or more elements between slashes, the last one
/// the name of a Go file, in a directory that isn't kept for what is built in.
pub fn is_path(path: &str) -> bool
    ensures { result ≡ is_path path.now }
{
    path.len() <= 200
        && has_two_elements(path)
        && has_elements(path)
        && is_go_file(file_name(path))
        && !is_reserved(directory(path))
}

fn has_two_elements(path: &str) -> bool
    ensures { result ≡ has_two_elements path.now }
{
    path.as_bytes().split(|b| *b == b'/').count() >= 2
}

fn has_elements(path: &str) -> bool
    ensures { result ≡ has_elements path.now }
{
    path.as_bytes().split(|b| *b == b'/').all(is_element)
}

fn is_element(element: &[u8]) -> bool
    ensures { result ≡ is_element element.now }
{
    !element.is_empty() && has_element_bytes(element) && !is_only_dots(element)
}

fn has_element_bytes(element: &[u8]) -> bool
    ensures { result ≡ list_all is_element_byte element.now }
{
    element.iter().all(|b| is_element_byte(*b))
}

fn is_only_dots(element: &[u8]) -> bool
    ensures { result ≡ is_only_dots element.now }
{
    element == b".".as_slice() || element == b"..".as_slice()
}

fn is_element_byte(byte: u8) -> bool
    ensures { result ≡ is_element_byte byte }
{
    byte.is_ascii_alphanumeric() || byte == b'_' || byte == b'.' || byte == b'-'
}

fn is_go_file(name: &str) -> bool
    ensures { result ≡ is_go_file name.now }
{
    name.len() > 3 && name.as_bytes().ends_with(b".go")
}

fn is_reserved(directory: &str) -> bool
    ensures { result ≡ is_reserved directory.now }
{
    directory == "fmt" || directory == "C"
}
