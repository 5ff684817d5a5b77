//! The hasher that passes numbers on. Slices of up to nine bytes are in the worked examples.

use std::hash::{BuildHasher, Hash, Hasher};
use xet_hash::data_hash::DataHash;
use xet_hash::passthrough_hasher::U64DirectHasher;

const WORDS: [u64; 4] = [0xFEDCBA0987654321, 0x1111111111111111, 0, 0];

fn fed<T: Hash>(state: u64, value: &T) -> u64 {
    let mut hasher = U64DirectHasher::<u64>::default();
    hasher.write_u64(state);
    value.hash(&mut hasher);
    hasher.finish()
}

#[test]
fn begins_at_zero_and_hands_numbers_on(rt: HostRuntime) {
    let mut hasher = U64DirectHasher::<DataHash>::default();
    assert!(rt; hasher.finish() == 0);
    hasher.write_u64(67890);
    assert!(rt; hasher.finish() == 67890);
    let copy = hasher;
    assert!(rt; copy.finish() == 67890);
    assert!(rt; hasher.build_hasher().finish() == 0);
    assert!(rt; fed(u64::MAX, &DataHash::from(WORDS)) == 0xFEDCBA0987654321);
    assert!(rt; fed(7, &DataHash::from([0xFEDCBA0987654321, 2, 3, 4])) == 0xFEDCBA0987654321);
    assert!(rt; fed(7, &DataHash::from([1, 2, 3, 4])) == 1);
    assert!(rt; fed(7, &12345u64) == 12345);
}
