use crate::PutError;
use std::test::Fail;

#[test]
fn a_refusal_is_told(rt: HostRuntime) -> Result<(), Fail> {
    let full = format!(in rt.alloc(); "{}", PutError::Full)?;
    assert_eq!(rt; full.as_str(), "each slot is used");
    let same_key = format!(in rt.alloc(); "{}", PutError::SameKey)?;
    assert_eq!(rt; same_key.as_str(), "an item has the key");
    Ok(())
}
