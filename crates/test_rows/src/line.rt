//! Lines of a table.
ghost use Rattle.std.specs.Prelude.{◌≡◌, ◌↔◌, true};
ghost use Rattle.test_rows.specs.Lines.{is_passed};
ghost use Rattle.test_rows.specs.declared.line.Line.TheVariants.{Passed};

/// What a line is.
#[derive(Clone, Copy)]
pub(crate) enum Line<'a> {
    /// Nothing, or a remark.
    Passed,
    /// The kind and the words of a heading.
    Heading(&'a str, &'a str),
    /// A line of what is asked.
    Asked(&'a str),
    /// A line of what is wanted.
    Wanted(&'a str),
    /// A row: what is asked, and what is wanted.
    Row(&'a str, &'a str),
    /// None of these.
    Other,
}

/// Whether a line stands for nothing.
fn is_passed(line: &str) -> bool
    ensures { result ≡ is_passed line.now }
{
    line.is_empty() || line.starts_with("#")
}

/// Line = [ "#" .. ] | "= " kind ": " words | ">" [ " " text ] | "=>" [ " " text ] | text " => " text .
pub(crate) fn line_of(line: &str) -> Line<'_>
    ensures passed { (result ≡ Passed) ↔ (is_passed line.now ≡ true) }
{
    if is_passed(line) {
        return Line::Passed;
    }
    if let Some(heading) = line.strip_prefix("= ") {
        return heading_of(heading);
    }
    if line == ">" {
        return Line::Asked("");
    }
    if line == "=>" {
        return Line::Wanted("");
    }
    if let Some(text) = line.strip_prefix("> ") {
        return Line::Asked(text);
    }
    if let Some(text) = line.strip_prefix("=> ") {
        return Line::Wanted(text);
    }
    match line.rsplit_once(" => ") {
        Some((asked, wanted)) => Line::Row(asked, wanted),
        None => Line::Other,
    }
}

/// The heading of a kind and words.
fn heading_of(heading: &str) -> Line<'_>
    ensures { (result ≡ Passed) → ⊥ }
{
    match heading.split_once(": ") {
        Some((kind, words)) => Line::Heading(kind, words),
        None => Line::Other,
    }
}
