//! Words beside short texts that are known when the program is built: where these are inlined, they
//! are quicker than `==`.
ghost use Rattle.std.specs.Prelude.{◌≡◌, length, take};
ghost use Rattle.std.specs.Str.{bytes_eq};

/// Returns whether a word is this text.
#[inline(always)]
pub(crate) fn is_text(word: &[u8], text: &[u8]) -> bool
    ensures { result ≡ bytes_eq word.now text.now }
{
    word.len() == text.len() && begins_with(word, text)
}

/// Returns whether a text begins with this one.
#[inline(always)]
pub(crate) fn begins_with(text: &[u8], front: &[u8]) -> bool
    ensures { result ≡ bytes_eq (take (length front.now) text.now) front.now }
{
    if text.len() < front.len() {
        return false;
    }
    for at in 0..front.len() {
        if text[at] != front[at] {
            return false;
        }
    }
    true
}
