//! Words of numbers at both ends of their types.
use std::test::Fail;
use sync_types::{Number, of_word, to_word};

#[test]
fn numbers_stand_in_their_words(rt: HostRuntime) -> Result<(), Fail> {
    let table: [(Number, u64); 20] = [
        (Number::Int32(0), 0),
        (Number::Int32(1), 0x0000_0001_0000_0000),
        (Number::Int32(-1), 0xffff_ffff_0000_0000),
        (Number::Int32(2_147_483_647), 0x7fff_ffff_0000_0000),
        (Number::Int32(-2_147_483_648), 0x8000_0000_0000_0000),
        (Number::Int64(0), 0),
        (Number::Int64(1), 1),
        (Number::Int64(-1), 0xffff_ffff_ffff_ffff),
        (
            Number::Int64(9_223_372_036_854_775_807),
            0x7fff_ffff_ffff_ffff,
        ),
        (
            Number::Int64(-9_223_372_036_854_775_808),
            0x8000_0000_0000_0000,
        ),
        (Number::Uint32(0), 0),
        (Number::Uint32(1), 0x0000_0001_0000_0000),
        (Number::Uint32(2_147_483_648), 0x8000_0000_0000_0000),
        (Number::Uint32(4_294_967_295), 0xffff_ffff_0000_0000),
        (Number::Uint64(0), 0),
        (Number::Uint64(1), 1),
        (
            Number::Uint64(9_223_372_036_854_775_808),
            0x8000_0000_0000_0000,
        ),
        (
            Number::Uint64(18_446_744_073_709_551_615),
            0xffff_ffff_ffff_ffff,
        ),
        (Number::Bool(false), 0),
        (Number::Bool(true), 1),
    ];
    for (number, word) in table {
        assert!(rt; to_word(number) == word, "{number:?}");
        assert!(rt; of_word(number.kind(), to_word(number)) == number, "{word}");
    }
    Ok(())
}
