//! What is printed of a byte that stands for no command.
use crate::UnknownCommand;
use std::test::Fail;

#[test]
fn printed(rt: HostRuntime) -> Result<(), Fail> {
    let unknown = UnknownCommand(9);
    assert_eq!(rt;
        format!(in rt.alloc(); "{unknown}")?.as_str(),
        "no command has the byte 9"
    );
    Ok(())
}
