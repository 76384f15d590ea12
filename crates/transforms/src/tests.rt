// Sizes and pixels that were worked by hand.
ghost use Rattle.std.specs.Prelude.{◌≡◌, ◌∷◌, []};
ghost use Rattle.transforms.specs.Sizes.{target_size};
ghost use Rattle.transforms.specs.Moved.{moved};
ghost use Rattle.transforms.specs.Worked.{alphas};

use crate::{target_size, transform};
use bitmap_kind::{Bitmap, Config, Transform};
use std::test::Fail;

// The definitions themselves on worked pictures of one byte a pixel, computed where the tests are proved.
fn worked_pictures()
    ensures size { target_size 200 150 Transform.Fit 100 100 ≡ (100, 75) }
    ensures fit { moved (alphas 3 2 (1 ∷ 2 ∷ 3 ∷ 4 ∷ 5 ∷ 6 ∷ [])) Transform.Fit 2 2
        ≡ alphas 2 1 (4 ∷ 6 ∷ []) }
    ensures crop { moved (alphas 4 1 (1 ∷ 2 ∷ 3 ∷ 4 ∷ [])) Transform.Crop 2 1 ≡ alphas 2 1 (2 ∷ 3 ∷ []) }
    ensures inside { moved (alphas 2 1 (1 ∷ 2 ∷ [])) Transform.Inside 4 4 ≡ alphas 2 1 (1 ∷ 2 ∷ []) }
{}

// A source, a transform, the wanted size and the target's.
type Row = ((u32, u32), Transform, (u32, u32), (u32, u32));

// A line of 16384 pixels. Fit: the long side becomes 1 or stays, and the short one is never below 1:
// (2 * 1 * 1 + 16384) / (2 * 16384) is 0, and so 1 is taken.
#[test]
fn sizes_of_lines(rt: HostRuntime) {
    let rows: [Row; 24] = [
        ((1, 16384), Transform::Nothing, (1, 1), (1, 16384)),
        ((1, 16384), Transform::Nothing, (16384, 1), (1, 16384)),
        ((1, 16384), Transform::Nothing, (1, 16384), (1, 16384)),
        ((1, 16384), Transform::Fit, (1, 1), (1, 1)),
        ((1, 16384), Transform::Fit, (16384, 1), (1, 1)),
        ((1, 16384), Transform::Fit, (1, 16384), (1, 16384)),
        ((1, 16384), Transform::Crop, (1, 1), (1, 1)),
        ((1, 16384), Transform::Crop, (16384, 1), (16384, 1)),
        ((1, 16384), Transform::Crop, (1, 16384), (1, 16384)),
        ((1, 16384), Transform::Inside, (1, 1), (1, 1)),
        ((1, 16384), Transform::Inside, (16384, 1), (1, 1)),
        ((1, 16384), Transform::Inside, (1, 16384), (1, 16384)),
        ((16384, 1), Transform::Nothing, (1, 1), (16384, 1)),
        ((16384, 1), Transform::Nothing, (16384, 1), (16384, 1)),
        ((16384, 1), Transform::Nothing, (1, 16384), (16384, 1)),
        ((16384, 1), Transform::Fit, (1, 1), (1, 1)),
        ((16384, 1), Transform::Fit, (16384, 1), (16384, 1)),
        ((16384, 1), Transform::Fit, (1, 16384), (1, 1)),
        ((16384, 1), Transform::Crop, (1, 1), (1, 1)),
        ((16384, 1), Transform::Crop, (16384, 1), (16384, 1)),
        ((16384, 1), Transform::Crop, (1, 16384), (1, 16384)),
        ((16384, 1), Transform::Inside, (1, 1), (1, 1)),
        ((16384, 1), Transform::Inside, (16384, 1), (16384, 1)),
        ((16384, 1), Transform::Inside, (1, 16384), (1, 1)),
    ];
    for (source, transform, wanted, target) in rows {
        assert!(rt; source.0 > 0 && source.1 > 0 && wanted.0 > 0 && wanted.1 > 0);
        assert_eq!(rt; target_size(source, transform, wanted), target);
    }
}

// 100 * 150 is at most 100 * 200, so the width decides: (2 * 150 * 100 + 200) / 400 is 75.
// Of the largest numbers the sums pass 64 bits: (2 * m * m + m) / (2 * m) is m.
#[test]
fn sizes_of_fit(rt: HostRuntime) {
    assert_eq!(rt;
        target_size((200, 150), Transform::Fit, (100, 100)),
        (100, 75)
    );
    let most = u32::MAX;
    assert_eq!(rt;
        target_size((most, most), Transform::Fit, (most, most)),
        (most, most)
    );
}

const ROW: [u8; 16] = [1, 1, 1, 255, 2, 2, 2, 255, 3, 3, 3, 255, 4, 4, 4, 255];

// 3 by 2 into 2 by 2 is 2 by 1: 2 * 2 is at most 2 * 3, and (2 * 2 * 2 + 3) / 6 is 1. The columns are
// 1 * 3 / 4 and 3 * 3 / 4, which are 0 and 2, and the row is 1 * 2 / 2, which is 1.
#[test]
fn fits_a_grey_picture(rt: HostRuntime) -> Result<(), Fail> {
    let mut source = Bitmap::make(rt.alloc(), 0, 3, 2, Config::Argb8888)?;
    source.put_row(0, &[1, 1, 1, 255, 2, 2, 2, 255, 3, 3, 3, 255]);
    source.put_row(1, &[4, 4, 4, 255, 5, 5, 5, 255, 6, 6, 6, 255]);
    let mut target = Bitmap::make(rt.alloc(), 1, 2, 1, Config::Argb8888)?;
    transform(&source, &mut target, Transform::Fit, (2, 2));
    assert_eq!(rt; target.bytes(), [4, 4, 4, 255, 6, 6, 6, 255].as_slice());
    Ok(())
}

// 4 by 1 into 2 by 1: 2 * 1 is less than 4 * 1, so columns are cut off. They are (1 + 4 - 2) / 2 and
// (3 + 4 - 2) / 2, which are 1 and 2.
#[test]
fn crops_a_grey_line(rt: HostRuntime) -> Result<(), Fail> {
    let mut source = Bitmap::make(rt.alloc(), 0, 4, 1, Config::Argb8888)?;
    source.put_row(0, &ROW);
    let mut target = Bitmap::make(rt.alloc(), 1, 2, 1, Config::Argb8888)?;
    transform(&source, &mut target, Transform::Crop, (2, 1));
    assert_eq!(rt; target.bytes(), [2, 2, 2, 255, 3, 3, 3, 255].as_slice());
    Ok(())
}

// Nothing and Inside leave a picture that lies in the box.
#[test]
fn leaves_a_small_picture(rt: HostRuntime) -> Result<(), Fail> {
    let mut source = Bitmap::make(rt.alloc(), 0, 2, 2, Config::Alpha8)?;
    source.put_pixel(0, 1, [0, 0, 0, 9]);
    let mut target = Bitmap::make(rt.alloc(), 1, 2, 2, Config::Alpha8)?;
    transform(&source, &mut target, Transform::Inside, (3, 2));
    assert_eq!(rt; target.bytes(), [0, 0, 9, 0].as_slice());
    target.erase();
    transform(&source, &mut target, Transform::Nothing, (1, 1));
    assert_eq!(rt; target.bytes(), [0, 0, 9, 0].as_slice());
    Ok(())
}
