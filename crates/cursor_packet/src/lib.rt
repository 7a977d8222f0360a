// Cursor packets as they stand on the wire (003 sections 2.2 to 2.2.3), read in the order of checks of 01, "Cursor packets".
//
//   place  bytes
//       0     12  RTP header: 80 hex, 0, sequence number (2), timestamp (4), SSRC (4); the last two are ignored
//      12      1  MsgType
//      13      2  PacketMsgSize, counted from MsgType
//      15         the fields of the packet's type
//
// Positions are read here, starts and continuations in crate cursor_fragment.
#![tactic(auto)]

pub mod frame;
pub mod position;
pub mod rtp;
