//! Calls whose allocations are small, whatever their input states. `tools/refused.sh` lets large allocations fail.

use crate::tests::FIRST_RUN;
use hdrhistogram::serialization::{DeserializeError, Deserializer};
use std::process::Abort;

/// The end of the reader is met before the length that a header states is allocated: 4 GiB less a
/// byte, of which nothing follows.
#[test]
fn stated_length(rt: HostRuntime) {
    let mut bytes = FIRST_RUN;
    bytes[4..8].fill(0xff);
    let mut reader = &bytes[..40];
    let result = Deserializer::new(rt.alloc()).deserialize::<u64, &[u8]>(&mut reader);
    assert!(rt; matches!(result, Err(DeserializeError::IoError(_))));
}
