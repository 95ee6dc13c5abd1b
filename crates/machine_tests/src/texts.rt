//! Legal names and values, and a text that threads share.

use init_base::{BadValue, PropName, PropValue, Text};
use std::alloc::Global;
use std::test::Fail;
use std::thread;

fn is_legal_name(name: &[u8]) -> bool {
    PropName::of(name).is_some()
}

/// 0 for a legal value, the length of one that is too long, and 1 for one that isn't UTF-8.
fn value_answer(value: &[u8]) -> usize {
    answer(PropValue::of(value))
}

/// The same of a value under a name, which is legal.
fn answer_under(name: &[u8], value: &[u8]) -> Option<usize> {
    Some(answer(PropValue::under(PropName::of(name)?, value)))
}

fn answer(judged: Result<PropValue<'_>, BadValue>) -> usize {
    match judged {
        Ok(_) => 0,
        Err(BadValue::TooLong { len }) => len,
        Err(BadValue::NotUtf8) => 1,
    }
}

#[test]
fn legal_names_and_values(rt: HostRuntime) {
    assert!(rt; !is_legal_name(b"") && !is_legal_name(b".a") && !is_legal_name(b"a."));
    assert!(rt; !is_legal_name(b"a..b") && !is_legal_name(b"a b") && !is_legal_name(&[b'a'; 256]));
    assert!(rt; is_legal_name(b"a") && is_legal_name(b"a@b:c") && is_legal_name(b"-A_9"));
    assert!(rt; is_legal_name(&[b'a'; 255]));
    assert_eq!(rt; value_answer(b""), 0);
    assert_eq!(rt; value_answer(&[b'a'; 91]), 0);
    assert_eq!(rt; value_answer(b"\xff"), 1);
    assert!(rt; answer_under(b"b", &[b'a'; 91]) == Some(0));
    assert!(rt; answer_under(b"b", &[0xff; 92]) == Some(92));
    assert!(rt; answer_under(b"ro", &[b'a'; 92]) == Some(92));
    assert!(rt; answer_under(b"ro.b", &[b'a'; 92]) == Some(0));
    assert!(rt; answer_under(b"ro.b", b"\xff") == Some(1));
}

/// So many bytes of this kind.
fn repeated(alloc: Global, byte: u8, count: usize) -> Result<Vec<u8>, Fail> {
    let mut bytes = Vec::new(alloc);
    for _ in 0..count {
        bytes.push(byte)?;
    }
    Ok(bytes)
}

#[test]
fn long_values(rt: HostRuntime) -> Result<(), Fail> {
    let alloc = rt.alloc();
    let longest = repeated(alloc, b'a', 8191)?;
    assert_eq!(rt; value_answer(&longest), 0);
    assert!(rt; answer_under(b"ro.b", &longest) == Some(0));
    assert!(rt; answer_under(b"b", &longest) == Some(8191));
    let longer = repeated(alloc, 0xff, 8192)?;
    assert_eq!(rt; value_answer(&longer), 8192);
    assert!(rt; answer_under(b"ro.b", &longer) == Some(8192));
    Ok(())
}

/// A text that stands in one block, and one that is a vector of its own.
#[test]
fn texts_are_shared_by_threads(rt: HostRuntime) -> Result<(), Fail> {
    let block = b"one text of more than thirty bytes, shared".as_slice();
    let vector = b"one text of more than fifty-six bytes, which are shared by threads".as_slice();
    for bytes in [block, vector] {
        let text = Text::of(rt.alloc(), bytes)?;
        let shared = text.share()?;
        let first = thread::spawn(&rt, move || shared.len())?;
        let (second, third) = thread::join(&rt, || text.len(), || text.is_utf8());
        assert_eq!(rt; first.join(&rt), second);
        assert!(rt; third);
        assert!(rt; text.slice(4, 41)?.slice(5, 7)?.is(b"of"));
        assert!(rt; text.slice(4, text.len())?.is(&bytes[4..]));
    }
    Ok(())
}
