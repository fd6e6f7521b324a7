//! Comments.
ghost use Rattle.std.specs.Prelude.{◌≡◌, ◌+◌, ◌≤◌, ◌<◌, ◌^◌, length, false};
ghost use Rattle.std.specs.List.{prefix_len};
ghost use Rattle.go_scan.specs.Comments.{is_in_line, ends_word, is_constraint};
ghost use Rattle.go_scan.specs.Fronts.{before_close, block_shape};
ghost use Rattle.go_scan.specs.declared.shape.Shape.TheVariants.{LineComment};

use crate::shape::Shape;

fn is_in_line(byte: u8) -> bool
    ensures { result ≡ is_in_line byte }
{
    byte != b'\n'
}

/// How many bytes at the front stand on the first line.
fn line_len(bytes: &[u8]) -> usize
    ensures value { result ≡ prefix_len is_in_line bytes.now }
    ensures within { result ≤ length bytes.now }
{
    bytes.iter().take_while(|byte| is_in_line(**byte)).count()
}

/// The comment of two slashes and these bytes.
///
///     line comment = "//" { all characters but newline } .
pub fn line_at(bytes: &[u8]) -> (Shape, usize)
    requires { length bytes.now + 3 < 2 ^ 64 }
    ensures { result ≡ (LineComment, prefix_len is_in_line bytes.now + 2) }
{
    (Shape::LineComment, line_len(bytes) + 2)
}

/// How many bytes stand before the slash that closes a comment, or all.
fn before_close(bytes: &[u8]) -> usize
    ensures value { result ≡ before_close false bytes.now }
    ensures within { result ≤ length bytes.now }
{
    let mut star = false;
    let mut len = 0;
    for byte in bytes {
        if star && *byte == b'/' {
            return len;
        }
        star = *byte == b'*';
        len += 1;
    }
    len
}

/// The comment of a slash, a star and these bytes.
///
///     general comment = "/*" { characters up to the first "*/" } "*/" .
pub fn block_at(bytes: &[u8]) -> (Shape, usize)
    requires { length bytes.now + 3 < 2 ^ 64 }
    ensures { result ≡ block_shape (before_close false bytes.now) bytes.now }
{
    let len = before_close(bytes);
    if len == bytes.len() {
        (Shape::OpenComment, len + 2)
    } else {
        (Shape::BlockComment, len + 3)
    }
}

fn ends_word(bytes: &[u8]) -> bool
    ensures { result ≡ ends_word bytes.now }
{
    match bytes {
        [] => true,
        [first, ..] => *first == b' ' || *first == b'\t',
    }
}

/// Whether a line comment is a build constraint.
///
///     constraint = "//go:build" [ ( " " | tab ) { all characters but newline } ] .
pub fn is_constraint(comment: &[u8]) -> bool
    ensures { result ≡ is_constraint comment.now }
{
    comment.starts_with(b"//go:build") && ends_word(&comment[10..])
}
