//! Vectors of upstream's tests of public functions. Those of single samples, channels, coded numbers and frames are lines of
//! `claxon_cases/data/subframes.txt` and `frames.txt`.
use claxon::Block;
use claxon::subframe::extend_sign_u32;

#[test]
fn an_empty_block(rt: HostRuntime) {
    let block = Block::empty(rt.alloc());
    assert!(rt;
        (
            block.time(),
            block.channels(),
            block.duration(),
            block.len()
        ) == (0, 0, 0, 0)
    );
    assert!(rt; block.into_buffer().is_empty());
}

#[test]
fn extended_signs(rt: HostRuntime) {
    let rows = [
        (5, 4, 5),
        (11, 4, -5),
        (0x3fff_fffe, 31, 0x3fff_fffe),
        (0xffff_ffff, 32, -1),
        (124_680, 17, -6392),
    ];
    for (val, bits, want) in rows {
        assert!(rt; 0 < bits && bits <= 32);
        assert!(rt; extend_sign_u32(val, bits) == want, "{val}");
    }
}
