//! Texts from outside, as they are written in the page.

ghost use Rattle.std.specs.Prelude.{◌≡◌, IfOk};
ghost use Rattle.redl_io.specs.Sink.{Puts};
ghost use Rattle.redl_reading.specs.Lists.{front, after};
ghost use Rattle.redl_html.specs.Escaping.{byte_escaped, escaped, is_control, is_plain};

use redl_io::{Failed, Sink, put_piece};
use redl_reading::run;

// U+FFFD.
const REPLACEMENT: &[u8] = b"\xEF\xBF\xBD";

/// Puts a text from outside, or a part of one, with references for the five characters of markup and the carriage return, and U+FFFD
/// for each control character of one byte that HTML does not allow. It takes no memory. `Failed` comes only where the sink failed,
/// which then has only a prefix.
pub fn put_escaped<K: Sink>(text: &[u8], out: &mut K) -> Result<(), Failed>
    ensures { Puts K.told K.faults K.settled K.lenders out.old out.new (escaped text.now) result }
{
    let mut left = text;
    while let Some((first, rest)) = left.split_first() {
        put_byte(*first, out)?;
        left = put_plain(rest, out)?;
    }
    Ok(())
}

// Puts the bytes at the start that are written as they are, in one piece, and answers those after them.
fn put_plain<'a, K: Sink>(bytes: &'a [u8], out: &mut K) -> Result<&'a [u8], Failed>
    ensures puts { Puts K.told K.faults K.settled K.lenders out.old out.new (front is_plain bytes.now) result }
    ensures rest { IfOk result (λ rest. rest.now ≡ after is_plain bytes.now) }
{
    let (plain, rest) = run(bytes, is_plain);
    put_piece(plain, out)?;
    Ok(rest)
}

fn is_plain(byte: u8) -> bool
    ensures { result ≡ is_plain byte }
{
    !matches!(byte, b'&' | b'<' | b'>' | b'"' | b'\'' | b'\r') && !is_control(byte)
}

// Whether a byte is a control character that HTML does not allow.
fn is_control(byte: u8) -> bool
    ensures { result ≡ is_control byte }
{
    (byte < 32 && !matches!(byte, b'\t' | b'\n' | 12 | b'\r')) || byte == 127
}

fn put_byte<K: Sink>(byte: u8, out: &mut K) -> Result<(), Failed>
    ensures { Puts K.told K.faults K.settled K.lenders out.old out.new (byte_escaped byte) result }
{
    match byte {
        b'&' => put_piece(b"&amp;", out),
        b'<' => put_piece(b"&lt;", out),
        b'>' => put_piece(b"&gt;", out),
        b'"' => put_piece(b"&quot;", out),
        b'\'' => put_piece(b"&#39;", out),
        b'\r' => put_piece(b"&#13;", out),
        byte if is_control(byte) => put_piece(REPLACEMENT, out),
        byte => put_piece(&[byte], out),
    }
}
