//! Data in base64.

ghost use Rattle.std.specs.Prelude.{◌≡◌, [], ◌∷◌, IfOk, filter, if◌then◌else◌};
ghost use Rattle.redl_io.specs.Sink.{Puts};
ghost use Rattle.redl_reading.specs.Lists.{front, after};
ghost use Rattle.redl_html.specs.Escaping.{escaped};
ghost use Rattle.redl_page_pictures.specs.List.{is_base64};

use redl_html::put_escaped;
use redl_io::{Failed, Sink};
use redl_reading::run;

/// Puts data without all that is not of the base64 alphabet, as white space. It goes once over the data and takes no memory.
pub(crate) fn put_base64<K: Sink>(data: &[u8], out: &mut K) -> Result<(), Failed>
    ensures { Puts K.told K.faults K.settled K.lenders out.old out.new (escaped (filter is_base64 data.now)) result }
{
    let mut left = data;
    while let Some((first, rest)) = left.split_first() {
        put_first(*first, out)?;
        left = put_run(rest, out)?;
    }
    Ok(())
}

fn put_first<K: Sink>(first: u8, out: &mut K) -> Result<(), Failed>
    ensures { Puts K.told K.faults K.settled K.lenders out.old out.new (escaped (if is_base64 first then first ∷ [] else [])) result }
{
    if is_base64(first) {
        return put_escaped(&[first], out);
    }
    Ok(())
}

// Puts the bytes at the start that are of the alphabet, and answers those after them.
fn put_run<'d, K: Sink>(bytes: &'d [u8], out: &mut K) -> Result<&'d [u8], Failed>
    ensures puts { Puts K.told K.faults K.settled K.lenders out.old out.new (escaped (front is_base64 bytes.now)) result }
    ensures rest { IfOk result (λ rest. rest.now ≡ after is_base64 bytes.now) }
{
    let (own, rest) = run(bytes, is_base64);
    put_escaped(own, out)?;
    Ok(rest)
}

fn is_base64(byte: u8) -> bool
    ensures { result ≡ is_base64 byte }
{
    matches!(byte, b'A'..=b'Z' | b'a'..=b'z' | b'/'..=b'9' | b'+' | b'=')
}
