use std::test::Fail;
use thiserror::Error;
use vh_num::{ONE, Refusal, clamp, index, mix_into, norm, quant, settle};

#[test]
fn steps_of_values(rt: HostRuntime) {
    let rows = [
        (0, 1, 0, 0),
        (8_388_607, 1, 0, 0),
        (8_388_608, 1, 1, ONE),
        (ONE, 1, 1, ONE),
        (12_582_912, 4, 3, 12_582_912),
        (5_592_405, 3, 1, 5_592_405),
        (4097, 4095, 1, 4097),
        (ONE, 4095, 4095, ONE),
    ];
    for (value, steps, step, quantised) in rows {
        assert_eq!(rt; index(value, steps), step);
        assert_eq!(rt; norm(step, steps), quantised);
        assert_eq!(rt; quant(value, steps), quantised);
    }
    assert_eq!(rt; quant(1234, 0), 1234);
}

#[test]
fn sums_are_exact_until_they_settle(rt: HostRuntime) {
    let mut acc = [0; 3];
    mix_into(&mut acc, &[2_147_483_647, 2_147_483_647, -2_147_483_648]);
    mix_into(&mut acc, &[2_147_483_647, 1, -1]);
    assert_eq!(rt; acc, [4_294_967_294, 2_147_483_648, -2_147_483_649]);
    let mut out = [0; 3];
    settle(&acc, &mut out);
    assert_eq!(rt; out, [2_147_483_647, 2_147_483_647, -2_147_483_648]);
    assert_eq!(rt; clamp(-1), -1);
}

/// A fault for the test.
#[derive(Clone, Copy, Debug, PartialEq, Eq, Error)]
#[error("a fault")]
struct Fault;

#[test]
fn refusals_say_why(rt: HostRuntime) -> Result<(), Fail> {
    let alloc = rt.alloc();
    let fault = Refusal::Fault(Fault);
    let memory: Refusal<Fault> = Refusal::Memory;
    assert_eq!(rt; format!(in alloc; "{fault}")?.as_str(), "a fault");
    assert_eq!(rt; format!(in alloc; "{memory}")?.as_str(), "out of memory");
    Ok(())
}
