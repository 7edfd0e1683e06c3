ghost use Rattle.std.specs.Prelude.{◌≡◌, ◌≤◌, true, length, take};
ghost use Rattle.gp_plain.specs.Fit.{fits_message};
ghost use Rattle.gp_ws.specs.Heads.{head_of, opcode_of, payload_of};
ghost use Rattle.websocket.specs.OpCode.{opcode_bits};

use gp_plain::Message;

/// The first byte's bit of a message's last frame (RFC 6455, section 5.2).
const LAST: u8 = 0x80;

/// Writes the header of the one frame that carries a message (RFC 6455, section 5.2), and tells how many bytes it has. The frame
/// isn't masked. The payload follows the header: the message's bytes, or of a close its code, the higher byte first, and its reason.
/// It takes no memory.
pub fn frame_head(message: &Message, into: &mut [u8; 10]) -> usize
    requires { fits_message message.now ≡ true }
    ensures head { take result into.new ≡ head_of message.now }
    ensures within { result ≤ 10 }
{
    into[0] = LAST + opcode(message);
    let size = payload_len(message);
    if size < 126 {
        into[1] = size as u8;
        2
    } else if size < 65536 {
        into[1] = 126;
        into[2..4].copy_from_slice(&(size as u16).to_be_bytes());
        4
    } else {
        into[1] = 127;
        into[2..10].copy_from_slice(&(size as u64).to_be_bytes());
        10
    }
}

/// The opcode of a message (RFC 6455, section 11.8).
fn opcode(message: &Message) -> u8
    ensures { result ≡ opcode_bits (opcode_of message.now) }
{
    match message {
        Message::Text(_) => 1,
        Message::Binary(_) => 2,
        Message::Close { .. } => 8,
        Message::Ping(_) => 9,
        Message::Pong(_) => 10,
    }
}

fn payload_len(message: &Message) -> usize
    requires { fits_message message.now ≡ true }
    ensures { result ≡ length (payload_of message.now) }
{
    match message {
        Message::Text(bytes) | Message::Binary(bytes) => bytes.len(),
        Message::Ping(bytes) | Message::Pong(bytes) => bytes.len(),
        Message::Close { code: None, reason } => reason.len(),
        Message::Close {
            code: Some(_),
            reason,
        } => 2 + reason.len(),
    }
}
