//! How text is written into a picture.
ghost use Rattle.std.specs.Prelude.{OnOk};
ghost use Rattle.std.specs.Io.KnownBytes.{Appends};
ghost use Rattle.picture_svg.specs.Escapes.{escaped, escaped_byte};

use std::io;
use std::io::Write;

/// Writes text between tags.
pub fn put_text<W: Write>(out: &mut W, text: &[u8]) -> io::Result<()>
    ensures { OnOk result (Appends (W.contents out.old) (W.contents out.new) (escaped text.now)) }
{
    for byte in text {
        put_byte(out, *byte)?;
    }
    Ok(())
}

fn put_byte<W: Write>(out: &mut W, byte: u8) -> io::Result<()>
    ensures { OnOk result (Appends (W.contents out.old) (W.contents out.new)
        (escaped_byte byte)) }
{
    match byte {
        b'<' => out.write_all(b"&lt;"),
        b'>' => out.write_all(b"&gt;"),
        b'&' => out.write_all(b"&amp;"),
        other => out.write_all(&[other]),
    }
}
