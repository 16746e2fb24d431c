use omf_types::{RecordType, comment_class, record_name, record_type};
use std::process::Abort;

/// The name of a type's records.
fn is_named<R: Abort>(rt: &R, kind: u8, name: &str) {
    assert_eq!(rt; record_name(kind).unwrap_or("none"), name);
}

/// The title of a class of comments.
fn is_titled<R: Abort>(rt: &R, class: u8, title: &str) {
    let told = match comment_class(class) {
        Some(class) => class.title(),
        None => "none",
    };
    assert_eq!(rt; told, title);
}

/// Types by their numbers, of 16 bits and of 32.
#[test]
fn types(rt: HostRuntime) {
    is_named(&rt, 0x6E, "RHEADR");
    is_named(&rt, 0x80, "THEADR");
    is_named(&rt, 0x8A, "MODEND");
    is_named(&rt, 0x8B, "MODEND");
    is_named(&rt, 0xB0, "COMDEF");
    is_named(&rt, 0xB1, "none");
    is_named(&rt, 0xC3, "COMDAT");
    is_named(&rt, 0xCE, "VENDEXT");
    is_named(&rt, 0xFF, "none");
    assert_eq!(rt; record_type(0xC9), Some(RecordType::Nbkpat));
    assert_eq!(rt;
        RecordType::Comdat.title(),
        "Initialized Communal Data Record"
    );
    is_titled(&rt, 0x00, "translator");
    is_titled(&rt, 0xA8, "WKEXT");
    is_titled(&rt, 0xE9, "dependency file");
    is_titled(&rt, 0x02, "none");
}
