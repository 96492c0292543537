//! Fixed predictors: each prediction is a difference of the newest samples.
ghost use Rattle.std.specs.Prelude.{◌≡◌, ◌≤◌, length};
ghost use Rattle.claxon_format.specs.read.Predict.{fixed, restored};

/// The samples of a fixed predictor, from its `order` warm-up samples and the residual after them.
/// (RFC 9639, section 9.2.5.)
pub fn predict_fixed(order: u32, buffer: &mut [i32])
    requires some { 1 ≤ order }
    requires most { order ≤ 4 }
    requires warm_up { order ≤ length buffer.old }
    ensures { buffer.new ≡ restored (fixed order) order buffer.old }
{
    match order {
        1 => predict_fixed_1(buffer),
        2 => predict_fixed_2(buffer),
        3 => predict_fixed_3(buffer),
        _ => predict_fixed_4(buffer),
    }
}

#[inline(never)]
fn predict_fixed_1(buffer: &mut [i32])
    requires warm_up { 1 ≤ length buffer.old }
    ensures { buffer.new ≡ restored (fixed 1) 1 buffer.old }
{
    let mut newest = buffer[0];
    for place in &mut buffer[1..] {
        newest = newest.wrapping_add(*place);
        *place = newest;
    }
}

#[inline(never)]
fn predict_fixed_2(buffer: &mut [i32])
    requires warm_up { 2 ≤ length buffer.old }
    ensures { buffer.new ≡ restored (fixed 2) 2 buffer.old }
{
    let mut second = buffer[0];
    let mut newest = buffer[1];
    for place in &mut buffer[2..] {
        let partial = (*place).wrapping_sub(second);
        let sample = partial.wrapping_add(newest.wrapping_mul(2));
        second = newest;
        newest = sample;
        *place = sample;
    }
}

#[inline(never)]
fn predict_fixed_3(buffer: &mut [i32])
    requires warm_up { 3 ≤ length buffer.old }
    ensures { buffer.new ≡ restored (fixed 3) 3 buffer.old }
{
    let mut third = buffer[0];
    let mut second = buffer[1];
    let mut newest = buffer[2];
    for place in &mut buffer[3..] {
        let partial = (*place)
            .wrapping_add(third)
            .wrapping_sub(second.wrapping_mul(3));
        let sample = partial.wrapping_add(newest.wrapping_mul(3));
        third = second;
        second = newest;
        newest = sample;
        *place = sample;
    }
}

#[inline(never)]
fn predict_fixed_4(buffer: &mut [i32])
    requires warm_up { 4 ≤ length buffer.old }
    ensures { buffer.new ≡ restored (fixed 4) 4 buffer.old }
{
    let mut fourth = buffer[0];
    let mut third = buffer[1];
    let mut second = buffer[2];
    let mut newest = buffer[3];
    for place in &mut buffer[4..] {
        let partial = (*place)
            .wrapping_sub(fourth)
            .wrapping_add(third.wrapping_mul(4))
            .wrapping_sub(second.wrapping_mul(6));
        let sample = partial.wrapping_add(newest.wrapping_mul(4));
        fourth = third;
        third = second;
        second = newest;
        newest = sample;
        *place = sample;
    }
}
