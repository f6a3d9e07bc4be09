//! What is told of a file that begins as no source should.
ghost use Rattle.std.specs.Prelude.{◌≡◌, ◌++◌, OnOk};
ghost use Rattle.fac_explain.specs.Beginnings.{beginning, has_mark as may_have_mark, is_like_image as may_be_image, is_like_utf16 as may_be_utf16};

use crate::places::front;
use crate::pushing::say;
use fac_base::{Bytes, Memory};

// Whether a text begins as an image does.
fn is_like_image(text: &[u8]) -> bool
    ensures { result ≡ may_be_image text.now }
{
    front(text, 4) == b"FCI1".as_slice()
}

// Whether a text begins with a byte order mark of UTF-8.
fn has_mark(text: &[u8]) -> bool
    ensures { result ≡ may_have_mark text.now }
{
    front(text, 3) == [239u8, 187, 191].as_slice()
}

// Whether a text begins with one of UTF-16.
fn is_like_utf16(text: &[u8]) -> bool
    ensures { result ≡ may_be_utf16 text.now }
{
    front(text, 2) == [255u8, 254].as_slice() || front(text, 2) == [254u8, 255].as_slice()
}

/// Adds what is to be told of a file that begins as no source should.
pub fn push_beginning(out: &mut Bytes, text: &[u8]) -> Result<(), Memory>
    ensures { OnOk result (out.new ≡ out.old ++ beginning text.now) }
{
    if is_like_image(text) {
        return say(
            out,
            "\nThe file begins as an image does. An image isn't a source: factorc exec runs it.",
        );
    }
    if has_mark(text) {
        return say(
            out,
            "\nThe file begins with a byte order mark. Save it as UTF-8 without one.",
        );
    }
    if is_like_utf16(text) {
        return say(
            out,
            "\nThe file begins with the byte order mark of UTF-16. Save it as UTF-8 without one.",
        );
    }
    Ok(())
}
