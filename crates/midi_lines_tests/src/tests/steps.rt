// A line that is filled only where a message is complete. The rows of `worked_rows` tell of the lines.
use midi_lines::{fill_step_line, fill_text_line, protocol_line};
use midi1_bytes::Parser;
use system_stream::{Joined, TextKind};

// A byte that completes no message, and a text that goes on, make no line: the last one stays.
#[test]
fn a_line_stays_where_none_is_made(rt: HostRuntime) {
    let mut parser = Parser::new(rt.alloc(), 6).expect(&rt, "memory is ample");
    let mut line = protocol_line(2);
    assert!(rt; !fill_step_line(&mut line, &parser.byte(0x90, 0), 0));
    assert_eq!(rt; line.as_slice(), b"protocol 2\n".as_slice());
    assert!(rt; !fill_text_line(&mut line, TextKind::BlockName, &Joined::Held));
    assert_eq!(rt; line.as_slice(), b"protocol 2\n".as_slice());
}
