// Samples and means that were worked by hand.
ghost use Rattle.std.specs.Prelude.{◌≡◌, ◌∷◌, []};
ghost use Rattle.sampling.specs.Sample.{sample_of};
ghost use Rattle.sampling.specs.Sampled.{sampled_picture};

use super::*;
use bitmap_kind::Rule;
use std::test::Fail;

// The definitions themselves on worked sizes and pixels, computed where the tests are proved. The last
// are the grey levels 0 1 2 4 and 3 0 5 6: their sums are 4 and 17.
fn worked_samples()
    ensures at_least { sample_of (400, 300) (100, 100) Rule.AtLeast ≡ 2 }
    ensures at_most { sample_of (400, 300) (100, 100) Rule.AtMost ≡ 4 }
    ensures next_power { sample_of (5, 5) (2, 2) Rule.AtMost ≡ 4 }
    ensures small { sample_of (1, 1) (7, 5) Rule.AtLeast ≡ 1 }
    ensures means { sampled_picture 4 2 2
        (0 ∷ 0 ∷ 0 ∷ 255 ∷ 1 ∷ 1 ∷ 1 ∷ 255 ∷ 2 ∷ 2 ∷ 2 ∷ 255 ∷ 4 ∷ 4 ∷ 4 ∷ 255
        ∷ 3 ∷ 3 ∷ 3 ∷ 255 ∷ 0 ∷ 0 ∷ 0 ∷ 255 ∷ 5 ∷ 5 ∷ 5 ∷ 255 ∷ 6 ∷ 6 ∷ 6 ∷ 255 ∷ [])
        ≡ 1 ∷ 1 ∷ 1 ∷ 255 ∷ 4 ∷ 4 ∷ 4 ∷ 255 ∷ [] }
{}

#[test]
fn samples_of_sizes(rt: HostRuntime) {
    // 400 / 100 is 4 and 300 / 100 is 3: at least min (3, 4), down to 2; at most max (3, 4), which is 4.
    assert_eq!(rt; sample_for((400, 300), (100, 100), Rule::AtLeast), 2);
    assert_eq!(rt; sample_for((400, 300), (100, 100), Rule::AtMost), 4);
    assert_eq!(rt; sample_for((4, 2), (2, 1), Rule::AtLeast), 2);
    // No whole wanted size fits: 1. The greater quotient is 1 / 5, up to 1.
    assert_eq!(rt; sample_for((1, 1), (7, 5), Rule::AtLeast), 1);
    assert_eq!(rt; sample_for((1, 1), (7, 5), Rule::AtMost), 1);
    // 16384 / 1 is 16384 and 1 / 1 is 1: the lesser is 1, the greater 2 ^ 14.
    assert_eq!(rt; sample_for((16384, 1), (1, 1), Rule::AtLeast), 1);
    assert_eq!(rt; sample_for((16384, 1), (1, 1), Rule::AtMost), 16384);
    // 5 / 2 is rounded up to 3, which is no power: 4.
    assert_eq!(rt; sample_for((5, 5), (2, 2), Rule::AtMost), 4);
    assert_eq!(rt;
        sample_for((2147483648, 1), (1, 1), Rule::AtMost),
        2147483648
    );
}

#[test]
fn sides_of_samples(rt: HostRuntime) {
    // Two whole blocks in 5, none in 3: one block all the same.
    assert_eq!(rt; sampled_side(5, 2), 2);
    assert_eq!(rt; sampled_side(3, 8), 1);
}

// The grey levels 0 1 2 4 and 3 0 5 6.
const UPPER: [u8; 16] = [0, 0, 0, 255, 1, 1, 1, 255, 2, 2, 2, 255, 4, 4, 4, 255];

const LOWER: [u8; 16] = [3, 3, 3, 255, 0, 0, 0, 255, 5, 5, 5, 255, 6, 6, 6, 255];

#[test]
fn means_of_rows(rt: HostRuntime) -> Result<(), Fail> {
    // 0 + 1 + 3 + 0 is 4, and (4 + 2) / 4 is 1. 2 + 4 + 5 + 6 is 17, and (17 + 2) / 4 is 4.
    let mut rows = BoxRows::new(rt.alloc(), 4, 2, 2)?;
    let mut means = [9u8; 8];
    let early = rows.push_row(&UPPER);
    assert!(rt; !early);
    let full = rows.push_row(&LOWER);
    assert!(rt; full);
    rows.out(&mut means);
    assert_eq!(rt; means, [1, 1, 1, 255, 4, 4, 4, 255]);
    Ok(())
}

#[test]
fn a_column_that_belongs_to_no_block(rt: HostRuntime) -> Result<(), Fail> {
    // 10 + 20 + 11 + 21 is 62, and 64 / 4 is 16; blue 1, and 3 / 4 is 0. 30 + 40 + 31 + 42 is 143, and
    // 145 / 4 is 36; blue 3, and 5 / 4 is 1.
    let pixels = [
        10, 0, 0, 255, 20, 0, 1, 255, 30, 0, 0, 255, 40, 0, 1, 255, 99, 99, 99, 99, //
        11, 0, 0, 255, 21, 0, 0, 255, 31, 0, 1, 255, 42, 0, 1, 255, 99, 99, 99, 99,
    ];
    let picture = sampled_picture(rt.alloc(), &pixels, 5, 2, 2)?;
    assert_eq!(rt;
        picture.as_slice(),
        [16, 0, 0, 255, 36, 0, 1, 255].as_slice()
    );
    Ok(())
}

#[test]
fn one_block_cut_on_both_sides(rt: HostRuntime) -> Result<(), Fail> {
    // 15 pixels: 0 + .. + 14 is 105, and 112 / 15 is 7; green 1500, and 1507 / 15 is 100; blue 255, and
    // 262 / 15 is 17.
    let pixels = [
        0, 100, 0, 255, 1, 100, 0, 255, 2, 100, 0, 255, 3, 100, 0, 255, 4, 100, 0, 255, //
        5, 100, 0, 255, 6, 100, 0, 255, 7, 100, 0, 255, 8, 100, 0, 255, 9, 100, 0, 255, //
        10, 100, 0, 255, 11, 100, 0, 255, 12, 100, 0, 255, 13, 100, 0, 255, 14, 100, 255, 255,
    ];
    let picture = sampled_picture(rt.alloc(), &pixels, 5, 3, 8)?;
    assert_eq!(rt; picture.as_slice(), [7, 100, 17, 255].as_slice());
    Ok(())
}

#[test]
fn a_block_of_many_pixels(rt: HostRuntime) -> Result<(), Fail> {
    // 4,097 by 4,097 pixels are more than 2 ^ 24, so the lanes are wide.
    let pixels = vec![in rt.alloc(); 200u8; 4 * 4097 * 4097]?;
    let picture = sampled_picture(rt.alloc(), &pixels, 4097, 4097, 5000)?;
    assert_eq!(rt; picture.as_slice(), [200, 200, 200, 200].as_slice());
    Ok(())
}
