//! Writes text for people, with control characters made visible.

ghost use Rattle.std.specs.Prelude.{◌≡◌, ◌<◌, ◌∷◌, [], not, true, false};
ghost use Rattle.std.specs.List.{flat_map};
ghost use Rattle.ud_io.specs.Streams.{Sends, stream_of};
ghost use Rattle.ud_tree.specs.Visible.{Shows, hex_digit, shown_byte, visible};

use std::io::Write;
use ud_io::{Watched, send};

/// Returns the hexadecimal digit of a number below 16.
#[tactic(auto, unfolding(crate::specs::Visible::hex_digit))]
pub(crate) fn hex_digit(number: u8) -> u8
    requires { number < 16 }
    ensures { result ≡ hex_digit number }
{
    if number < 10 {
        b'0' + number
    } else {
        b'W' + number
    }
}

/// Writes a byte as `\x` and two hexadecimal digits.
fn send_shown<W: Write>(out: &mut Watched<W>, byte: u8)
    ensures { Sends (stream_of W.contents out.old) (stream_of W.contents out.new)
        (shown_byte byte) }
{
    let digits = [b'\\', b'x', hex_digit(byte / 16), hex_digit(byte % 16)];
    send(out, &digits);
}

/// Writes a byte, as `\x` and two hexadecimal digits if it is a control character. Returns whether
/// it is 0xc2, which waits, since the next byte tells whether a control character begins with it.
#[tactic(auto, using(crate::proofs::VisibleLemmas::byte_steps))]
fn send_first<W: Write>(out: &mut Watched<W>, byte: u8) -> bool
    ensures { Shows false (byte ∷ []) result (stream_of W.contents out.old)
        (stream_of W.contents out.new) }
{
    if byte == 0xc2 {
        return true;
    }
    if byte < b' ' {
        send_shown(out, byte);
        return false;
    }
    if byte == 127 {
        send_shown(out, byte);
        return false;
    }
    send(out, &[byte]);
    false
}

/// Writes the byte 0xc2 that waits, if one does, and the next byte. Those of a control character
/// are written as `\x` and two hexadecimal digits. Returns whether the next byte waits.
#[tactic(auto, using(crate::proofs::VisibleLemmas::byte_steps))]
fn send_next<W: Write>(out: &mut Watched<W>, held: bool, byte: u8) -> bool
    ensures { Shows held (byte ∷ []) result (stream_of W.contents out.old)
        (stream_of W.contents out.new) }
{
    if !held {
        return send_first(out, byte);
    }
    if (0x80..0xa0).contains(&byte) {
        send_shown(out, 0xc2);
        send_shown(out, byte);
        return false;
    }
    send(out, &[0xc2]);
    send_first(out, byte)
}

/// Writes bytes with each byte of a control character as `\x` and two hexadecimal digits, and
/// before them the byte 0xc2 that waits, if one does. Returns whether the last one waits.
#[tactic(auto, using(crate::proofs::VisibleLemmas::part_steps))]
fn send_part<W: Write>(out: &mut Watched<W>, held: bool, bytes: &[u8]) -> bool
    ensures { Shows held bytes.now result (stream_of W.contents out.old)
        (stream_of W.contents out.new) }
{
    let mut waits = held;
    for byte in bytes {
        waits = send_next(out, waits, *byte);
    }
    waits
}

/// Writes parts in order, with each byte of a control character as `\x` and two hexadecimal digits.
#[tactic(auto, using(crate::proofs::VisibleLemmas::part_steps))]
pub(crate) fn send_visible_parts<W: Write>(out: &mut Watched<W>, parts: &[&[u8]])
    ensures { Sends (stream_of W.contents out.old) (stream_of W.contents out.new)
        (visible (flat_map (λ p. p.now) parts.now)) }
{
    let mut waits = false;
    for part in parts {
        waits = send_part(out, waits, part);
    }
    if waits {
        send(out, &[0xc2]);
    }
}

/// Writes bytes with each byte of a control character as `\x` and two hexadecimal digits.
pub(crate) fn send_visible<W: Write>(out: &mut Watched<W>, bytes: &[u8])
    ensures { Sends (stream_of W.contents out.old) (stream_of W.contents out.new)
        (visible bytes.now) }
{
    send_visible_parts(out, &[bytes]);
}

/// Flushes a stream, unless it has failed before. Returns false if it has failed.
pub(crate) fn flush<W: Write>(out: &mut Watched<W>) -> bool
    ensures sent { Sends (stream_of W.contents out.old) (stream_of W.contents out.new) [] }
    ensures works { result ≡ not out.new.failed }
    ensures flushed { result ≡ true → out.new.unflushed ≡ false }
{
    if out.failed() {
        return false;
    }
    out.flush()
}
