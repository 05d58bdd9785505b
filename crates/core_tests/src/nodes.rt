//! The paths of worked keys.
use std::test::Fail;
use trie_nodes::nibble;

// a key, a seed, the key's path
const PATHS: [(u32, u32, [u32; 8]); 6] = [
    (0, 0, [0, 0, 0, 0, 0, 0, 0, 0]),
    (268_435_456, 0, [0, 0, 0, 0, 0, 0, 0, 1]),
    (0x1234_5678, 0, [8, 7, 6, 5, 4, 3, 2, 1]),
    (0x1234_5678, 0x8765_4321, [9, 5, 5, 1, 1, 5, 5, 9]),
    (0, 0xffff_ffff, [15, 15, 15, 15, 15, 15, 15, 15]),
    (0xffff_ffff, 0x0000_000f, [0, 15, 15, 15, 15, 15, 15, 15]),
];

#[test]
fn paths_are_nibbles_of_key_and_seed(rt: HostRuntime) -> Result<(), Fail> {
    for (key, seed, path) in PATHS {
        for level in 0..8 {
            assert!(rt;
                nibble(key, seed, level) == path[level as usize],
                "{key} at {level}"
            );
        }
    }
    Ok(())
}
