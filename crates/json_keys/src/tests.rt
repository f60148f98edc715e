use super::*;
use std::alloc::Global;
use std::test::*;

fn is_not_built(alloc: Global, bytes: &[u8]) -> bool {
    matches!(document(alloc, bytes), Err(InputFault::NotBuilt))
}

#[test]
fn refuses_other_texts(rt: HostRuntime) {
    for text in ["", "{", "[1,]", "{} {}"] {
        assert!(rt; is_not_built(rt.alloc(), text.as_bytes()), "{text}");
    }
    assert!(rt; is_not_built(rt.alloc(), &[0xFF]));
}

#[test]
fn reads_by_keys(rt: HostRuntime) -> Result<(), Fail> {
    let value = document(rt.alloc(), br#"{"a":7,"b":-7,"c":"seven"}"#)?;
    assert!(rt; object_of(2, &value).is_none());
    let members = object_of(3, &value).ok_or("three members")?;
    assert!(rt; value_at("a", members).is_some());
    assert!(rt; value_at("d", members).is_none());
    assert_eq!(rt; natural_at("a", members), Some(7));
    assert_eq!(rt; natural_at("b", members), None);
    assert_eq!(rt; text_at("c", members), Some("seven"));
    assert_eq!(rt; text_at("a", members), None);
    Ok(())
}

#[test]
fn says_why(rt: HostRuntime) -> Result<(), Fail> {
    let not_built = format!(in rt.alloc(); "{}", InputFault::NotBuilt)?;
    assert_eq!(rt; not_built.as_str(), "not built yet");
    let memory = format!(in rt.alloc(); "{}", InputFault::Memory)?;
    assert_eq!(rt; memory.as_str(), "out of memory");
    Ok(())
}
