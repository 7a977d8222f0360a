// Runs the documents' examples and prints a line for each: the messages of section 4 of 000 and 001 with P1 to P6 of 01,
//
//     NAME accepted COMMAND port PORT options OPTIONS source ID written same
//     NAME refused NUMBER place PLACE
//
// then the limits values and the cursor packets of 003 section 4, and positions for 02 §2. Numbers are decimal. ID is 32 hexadecimal digits, or
// `-` where the message has no Source ID; the last word of a message is `same` where writing the record gives the message's bytes back, and
// `other` where not.
#![tactic(auto)]

mod limits_line;
mod messages;
mod packets;

use host_answers::Answer;

// What a reader refuses.
fn refused(rt: &HostRuntime, answer: Answer) {
    println!(rt; " refused {} place {}", answer.status, answer.place).ok();
}

// A line that can't be written is passed over, as a later write may succeed; the status is 0.
fn main(rt: HostRuntime) {
    messages::run(&rt);
    limits_line::run(&rt);
    packets::run(&rt);
}
