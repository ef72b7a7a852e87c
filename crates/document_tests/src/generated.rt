//! Generated jobs.

use std::test::Fail;
use za_gen::job_of;

/// A number that tells texts apart.
fn checksum(text: &[u8]) -> u32 {
    let mut sum = 0u32;
    for b in text {
        sum = sum.wrapping_mul(31).wrapping_add(u32::from(*b));
    }
    sum
}

/// Numbers, and the lengths and checksums of their texts, which were computed from the rules by another program.
static TEXTS: [(u32, (usize, u32)); 3] = [
    (0, (60802, 1695137724)),
    (7, (60788, 1756893670)),
    (4294967295, (60788, 625438717)),
];

#[test]
fn the_texts_of_three_numbers(rt: HostRuntime) -> Result<(), Fail> {
    for (number, wanted) in &TEXTS {
        let text = job_of(rt.alloc(), *number)?;
        assert_eq!(rt; (text.len(), checksum(&text)), *wanted, "{number}");
    }
    Ok(())
}
