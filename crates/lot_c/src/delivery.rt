//! A text for the buffer of a caller.
//!
//! A text is made whole before it goes to the buffer, so that its length is known; one that does not
//! fit is not written, since a caller could not tell its beginning from a whole text.
ghost use Rattle.std.specs.Prelude.{◌≡◌, drop};
ghost use Rattle.lot_c.specs.Replies.{Delivers};

use crate::status::NO_ROOM;

/// Puts a text at the front of a buffer, if it fits, and tells its length. Returns the status.
pub fn deliver(text: &[u8], ending: u8, output: &mut [u8], written: &mut usize) -> u32
    ensures { Delivers output.old output.new written.new text.now ending result }
{
    *written = text.len();
    if output.len() < text.len() {
        return NO_ROOM;
    }
    output[..text.len()].copy_from_slice(text);
    ending as u32
}

/// Returns a text from a byte on.
pub fn after(text: &[u8], told: usize) -> &[u8]
    ensures { result.now ≡ drop told text.now }
{
    if told < text.len() {
        &text[told..]
    } else {
        &[]
    }
}
