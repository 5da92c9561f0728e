//! Lanes compared with ample memory; what is expected was written by hand.

use crate::compare_lanes;
use sql_tree::Cmp;
use std::alloc::AllocError;

#[test]
fn lanes_are_compared(rt: HostRuntime) -> Result<(), AllocError> {
    let alloc = rt.alloc();
    assert_eq!(rt; compare_lanes(alloc, &[], Cmp::Eq, 6)?.len(), 0);
    for (cmp, first, second, third) in [
        (Cmp::Eq, false, true, false),
        (Cmp::Ne, true, false, true),
        (Cmp::Lt, true, false, false),
        (Cmp::Le, true, true, false),
        (Cmp::Gt, false, false, true),
        (Cmp::Ge, false, true, true),
    ] {
        let found = compare_lanes(alloc, &[5, 6, 7], cmp, 6)?;
        assert!(rt;
            matches!(found.as_slice(), [a, b, c] if *a == first && *b == second && *c == third)
        );
    }
    Ok(())
}
