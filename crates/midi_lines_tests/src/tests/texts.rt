// The lines of texts.
use midi_lines::text_line;
use system_stream::{Joined, TextKind};

// Whether the line of a text of the kind is this one.
fn is_line_of_text(kind: TextKind, joined: &Joined<'_>, text: &str) -> bool {
    if let Joined::Whole(bytes) = joined
        && bytes.len() > kind.limit()
    {
        return false;
    }
    match text_line(kind, joined) {
        Some(line) => line.as_slice() == text.as_bytes(),
        None => false,
    }
}

#[test]
fn lines_of_texts(rt: HostRuntime) {
    let name = Joined::Whole(b"Demo Endpoint X");
    let line = "text endpoint-name 44656D6F20456E64706F696E742058\n";
    assert!(rt; is_line_of_text(TextKind::EndpointName, &name, line));
    let id = Joined::Whole(b"SN-0001");
    assert!(rt; is_line_of_text(TextKind::ProductId, &id, "text product-id 534E2D30303031\n"));
    let block = Joined::Whole(b"Main");
    assert!(rt; is_line_of_text(TextKind::BlockName, &block, "text block-name 4D61696E\n"));
    assert!(rt; is_line_of_text(TextKind::BlockName, &Joined::Bad, "text block-name bad\n"));
    let empty = Joined::Whole(b"");
    assert!(rt; is_line_of_text(TextKind::EndpointName, &empty, "text endpoint-name\n"));
    assert!(rt; text_line(TextKind::EndpointName, &Joined::Held).is_none());
    let longest = Joined::Whole(&[0x7A; 98]);
    match text_line(TextKind::EndpointName, &longest) {
        Some(line) => assert_eq!(rt; line.as_slice().len(), 216),
        None => assert!(rt; false, "the longest name"),
    }
}
