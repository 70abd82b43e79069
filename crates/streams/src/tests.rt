//! The rules on examples. Marks are compared as the numbers that hosts see.
use crate::types::{Flow, Streams};
use cell::{Command, Way};
use std::test::Fail;

#[test]
fn thirty_two_records(rt: HostRuntime) -> Result<(), Fail> {
    let mut streams = Streams::new();
    for number in 1..33u16 {
        assert!(rt; streams.may_send(Way::Forward, 1, Command::Begin, number));
        streams.sent(Way::Forward, 1, Command::Begin, number);
    }
    assert!(rt; !streams.may_send(Way::Forward, 1, Command::Begin, 33));
    streams.sent(Way::Forward, 1, Command::Begin, 33);
    assert_eq!(rt; streams.count(), 32);
    assert_eq!(rt;
        u8::from(streams.received(Way::Backward, 1, Command::End, 5)),
        0
    );
    streams.sent(Way::Forward, 1, Command::Begin, 33);
    assert_eq!(rt; streams.count(), 32);
    assert_eq!(rt; streams.record(4).ok_or("no fifth record")?.number, 6);
    assert_eq!(rt; streams.record(31).ok_or("no last record")?.number, 33);
    Ok(())
}

#[test]
fn late(rt: HostRuntime) {
    let mut streams = Streams::new();
    streams.sent(Way::Forward, 2, Command::Begin, 9);
    assert!(rt; !streams.may_send(Way::Forward, 2, Command::Data, 9));
    assert_eq!(rt;
        u8::from(streams.mark(Way::Backward, 1, Command::Connected, 9)),
        1,
        "another hop"
    );
    assert_eq!(rt;
        u8::from(streams.received(Way::Backward, 2, Command::Connected, 9)),
        0
    );
    assert_eq!(rt;
        u8::from(streams.received(Way::Backward, 2, Command::Connected, 9)),
        1
    );
    assert!(rt; streams.may_send(Way::Forward, 2, Command::Data, 9));
    assert_eq!(rt;
        u8::from(streams.received(Way::Backward, 2, Command::End, 9)),
        0
    );
    assert_eq!(rt;
        u8::from(streams.received(Way::Backward, 2, Command::Data, 9)),
        1
    );
}

#[test]
fn relay_records(rt: HostRuntime) {
    let mut streams = Streams::new();
    assert_eq!(rt;
        u8::from(streams.received(Way::Forward, 3, Command::Begin, 0)),
        1
    );
    assert_eq!(rt;
        u8::from(streams.received(Way::Forward, 3, Command::Begin, 7)),
        0
    );
    assert_eq!(rt;
        u8::from(streams.mark(Way::Forward, 3, Command::Begin, 7)),
        1
    );
    assert!(rt; !streams.may_send(Way::Backward, 3, Command::Data, 7));
    streams.sent(Way::Backward, 3, Command::Connected, 7);
    assert!(rt; streams.may_send(Way::Backward, 3, Command::Data, 7));
    streams.sent(Way::Backward, 3, Command::End, 7);
    assert_eq!(rt; streams.count(), 0);
}

#[test]
fn window_opens_again(rt: HostRuntime) {
    let mut flow = Flow::fresh();
    for _ in 0..1000 {
        assert!(rt; flow.posted(Command::Data));
    }
    assert!(rt; !flow.posted(Command::Data));
    assert!(rt; flow.received(Command::Sendme));
    assert_eq!(rt; flow.window(), 100);
    assert!(rt; flow.posted(Command::Data));
}
