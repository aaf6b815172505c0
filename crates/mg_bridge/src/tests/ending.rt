//! Tests of how a gateway's process ends.

use super::equality::assert_equal;
use crate::{status_at_end, status_without_outlets};
use mg_options::Status;
use mg_outlet::OutletFault;
use std::io::{self, ErrorKind};
use std::test::Fail;

#[test]
fn reports_output_that_is_lost_at_the_end(rt: HostRuntime) -> Result<(), Fail> {
    let lost = Err(io::Error::from(ErrorKind::StorageFull));
    let mut errors = Vec::new(rt.alloc());
    assert_equal(&rt, status_at_end(0, &Ok(()), &mut errors), 0);
    assert_equal(&rt, status_at_end(5, &lost, &mut errors), 5);
    assert!(rt; errors.is_empty());
    assert_equal(&rt, status_at_end(0, &lost, &mut errors), 3);
    assert_equal(&rt, errors.as_slice(), b"write failed\n".as_slice());
    Ok(())
}

#[test]
fn tells_lack_of_memory_from_other_faults(rt: HostRuntime) {
    let watch = |kind: ErrorKind| OutletFault::Watch {
        descriptor: 1,
        error: io::Error::from(kind),
    };
    assert_equal(
        &rt,
        status_without_outlets(&OutletFault::Memory { limit: 1 }),
        Status::NoMemory,
    );
    assert_equal(
        &rt,
        status_without_outlets(&watch(ErrorKind::OutOfMemory)),
        Status::NoMemory,
    );
    assert_equal(
        &rt,
        status_without_outlets(&watch(ErrorKind::Other)),
        Status::Failed,
    );
}
