// The record of a message: its command, and for each TLV type whether it is there, and the place and the length of its value in the
// lent bytes. Where a value is not there, its place and length are not looked at.
ghost use Rattle.std.specs.Prelude.{◌≡◌};
ghost use Rattle.message_rules.specs.Record.{field_of};

// The value of a TLV: whether it is there, and its place and length in the lent bytes. It is no Option: by `MessageBack` (crate message_layout)
// any place and length read back, beside a false flag too.
#[derive(Clone, Copy)]
pub struct Field {
    pub present: bool,
    pub at: u32,
    pub len: u32,
}

#[derive(Clone, Copy)]
pub struct Message {
    pub command: u8,
    pub friendly_name: Field,
    pub rtsp_port: Field,
    pub source_id: Field,
    pub security_token: Field,
    pub security_options: Field,
    pub pin_challenge: Field,
    pub pin_reason: Field,
}

// The field of a TLV type.
#[tactic(auto, unfolding(crate::specs::Record::field_of))]
pub fn field_of(message: Message, kind: u8) -> Field
    ensures { result ≡ field_of message kind }
{
    match kind {
        0 => message.friendly_name,
        2 => message.rtsp_port,
        3 => message.source_id,
        4 => message.security_token,
        5 => message.security_options,
        6 => message.pin_challenge,
        7 => message.pin_reason,
        _ => Field {
            present: false,
            at: 0,
            len: 0,
        },
    }
}
