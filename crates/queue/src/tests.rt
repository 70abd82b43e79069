//! What a refusal prints.
use crate::QueueError;
use std::test::Fail;

#[test]
fn printed(rt: HostRuntime) -> Result<(), Fail> {
    for (error, text) in [
        (QueueError::Astray, "the place is none of this ring"),
        (QueueError::Full, "the ring has no room for it"),
        (QueueError::Short, "fewer elements wait"),
    ] {
        assert_eq!(rt; format!(in rt.alloc(); "{error}")?.as_str(), text);
    }
    Ok(())
}
