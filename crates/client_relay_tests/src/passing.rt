//! Cells that pass a relay and look like its own by their two check bytes.
use crate::circuit::relay;
use crate::forged::{Forged, forge_all, forge_many};
use crate::marked::end;
use crate::toys::Identity;
use hops::End;
use relay::Relay;
use sha_1::running::Sha1;
use std::test::*;

// Layers change nothing here, so what another digest sealed has zero check bytes and a wrong tag. None of 4,000 such cells leaves
// a trace in the relay's digest: it takes each of the 80 cells between them.
#[test]
fn no_trace(rt: HostRuntime) -> Result<(), Fail> {
    let mut second: Relay<Identity, Sha1> = relay(2, false, 1, 2)?;
    let mut sender: End<Identity, Sha1> = end(1);
    let mut other: End<Identity, Sha1> = end(3);
    for stream in 1..41u8 {
        forge_many(
            &rt,
            &mut second,
            &mut other,
            100,
            Forged(2, 5, 498),
            Ok((0, 0, 0, 0)),
        )?;
        forge_all(
            &rt,
            &mut second,
            &mut sender,
            &[
                (Forged(10, 0, 0), Ok((2, 10, 0, 0))),
                (Forged(2, stream, 3), Ok((2, 2, stream as u16, 1))),
            ],
        )?;
    }
    Ok(())
}
