//! The characters that bytes stand for.
ghost use Rattle.std.specs.Prelude.{◌≡◌, ◌<◌, ◌≤◌, ◌↔◌, ◌⊎◌, length, slice_index, IsTrue, Err, IfOk, OnErr, IsNone};
ghost use Rattle.std.specs.Rc.{rc_str_bytes};
ghost use Rattle.std.specs.Str.{encode_utf8_all};
ghost use Rattle.bstr.specs.Utf8.{lead_len, lossy_chars};
ghost use Rattle.tcl_chan.specs.Ahead.{Decides, MayGoOn, IsLineOf};
ghost use Rattle.tcl_chan.specs.declared.fault.ChanFault.TheVariants.{Memory};

use crate::fault::ChanFault;
use bstr::ByteSlice;
use std::alloc::Global;
use std::rc::RcStr;

// Is the part of this size at the front of some bytes no character, whatever follows them? It is none where a byte behind it
// breaks it, and where no character of several bytes begins so.
fn is_broken(bytes: &[u8], size: usize) -> bool
    requires { 0 < length bytes.now }
    ensures { IsTrue result ↔ ((size < length bytes.now) ⊎ (lead_len (slice_index bytes.now 0) ≤ 1)) }
{
    size < bytes.len() || !matches!(bytes[0], 0xC2..=0xF4)
}

/// The first character of some bytes, and how many bytes it is. Of CR LF the CR is none. Nothing is told where more bytes are
/// needed to tell it, and only there: a part that no character begins with is told at once.
pub fn first_char(bytes: &[u8], whole: bool) -> Option<(Option<char>, usize)>
    requires { 0 < length bytes.now }
    ensures first { Decides bytes.now whole result }
    ensures at_once { IsNone result → MayGoOn bytes.now }
{
    if bytes[0] == b'\r' {
        if bytes.len() == 1 {
            return if whole { Some((Some('\r'), 1)) } else { None };
        }
        let joined = bytes[1] == b'\n';
        return Some((if joined { None } else { Some('\r') }, 1));
    }
    let (found, size) = bstr::decode_utf8(bytes);
    match found {
        Some(c) => Some((Some(c), size)),
        None => {
            let broken = is_broken(bytes, size);
            if whole || broken {
                Some((Some('\u{FFFD}'), size))
            } else {
                None
            }
        }
    }
}

/// The text that bytes stand for.
pub fn lossy_text(alloc: Global, bytes: &[u8]) -> Result<RcStr<Global>, ChanFault>
    ensures text { IfOk result (λ text. rc_str_bytes text ≡ encode_utf8_all (lossy_chars bytes.now)) }
    ensures memory { OnErr result (result ≡ Err Memory) }
{
    let text = bytes.to_str_lossy(alloc)?;
    Ok(RcStr::from_str(alloc, &text)?)
}

/// The text of a line, of which these are the bytes before its line feed.
pub fn line_text(alloc: Global, bytes: &[u8]) -> Result<RcStr<Global>, ChanFault>
    ensures text { IfOk result (λ text. IsLineOf bytes.now (rc_str_bytes text)) }
    ensures memory { OnErr result (result ≡ Err Memory) }
{
    let (last, size) = bstr::decode_last_utf8(bytes);
    if last == Some('\r') {
        return lossy_text(alloc, &bytes[..bytes.len() - size]);
    }
    lossy_text(alloc, bytes)
}
