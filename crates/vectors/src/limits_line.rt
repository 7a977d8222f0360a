// The cursor limits values of 003 section 4: the line as printed, the same in the grammar of section 1.7 (50,001 is C351 hex), and `none`.
use crate::refused;
use cursor_limits::value::Value;

fn show(rt: &HostRuntime, name: &str, text: &str) {
    print!(rt; "{name}").ok();
    let mut record = [0; limits_layout::LENGTH];
    let answer = limits_calls::read(text.as_bytes(), &mut record);
    if answer.status != 0 {
        refused(rt, answer);
        return;
    }
    match limits_layout::read(&record) {
        Value::NotSupported => println!(rt; " not supported"),
        Value::Supported(limits) => println!(rt; " {limits}"),
    }
    .ok();
}

// Each value in its line.
pub fn run(rt: &HostRuntime) {
    for (name, text) in [
        ("003-4-limits-printed", "full 0x0200 0x0200 50001"),
        ("003-4-limits-hexadecimal", "full 0200 0200 C351"),
        ("003-4-not-supported", "none"),
    ] {
        show(rt, name, text);
    }
}
