// The buckets in which classes alike are looked for. Source: Amestoy, Davis and Duff 1996 (supervariables, found by a
// hash function).

ghost use Rattle.std.specs.Prelude.{◌<◌, ◌≡◌, length};
ghost use Rattle.amd_words.specs.Sides.{lasts, nexts};
ghost use Rattle.amd_merging.specs.Merging.{bucket_of};

use amd_words::Unsigned;
use amd_words::sides::{Sides, last_at};

/// The bucket of a class of a front whose list has `count` words.
pub fn bucket_at<U: Unsigned>(sides: &[Sides<U>], i: usize, count: usize) -> usize
    requires { i < length (nexts sides.now) }
    ensures { result ≡ bucket_of count (lasts sides.now) i }
{
    let mask = if count < 256 { 1023 } else { usize::MAX };
    last_at(sides, i) / 16 & mask
}
