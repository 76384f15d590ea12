// Which sample a source takes to come near a wanted size.
ghost use Rattle.std.specs.Prelude.{◌≡◌, ℕ, ◌+◌, ◌*◌, ◌/◌, ◌^◌, ◌<◌, ◌≤◌, ◌⊎◌, min};
ghost use Rattle.std.specs.Int.{IsPowerOfTwo};
ghost use Rattle.sampling.specs.Sample.{sample_of, highest_power, IsSize, IsSourceSize};
ghost use Rattle.sampling.specs.SampleLaws.{EachSampleIsAPower, AtLeastCovers, AtLeastIsHighest, AtMostIsCovered};

use bitmap_kind::Rule;

/// The sample under which a source comes near the wanted size: how many of its pixels, along each
/// side, one pixel of the sampled picture stands for. Sizes are (width, height). Glide's
/// `Downsampler` calls it the sample size, and the rule the strategy (`AT_LEAST`, `AT_MOST`).
pub fn sample_for(source: (u32, u32), wanted: (u32, u32), rule: Rule) -> u32
    requires source { IsSourceSize source }
    requires wanted { IsSize wanted }
    ensures { result ≡ sample_of source wanted rule }
{
    match rule {
        Rule::AtLeast => highest_power((source.1 / wanted.1).min(source.0 / wanted.0)),
        Rule::AtMost => {
            let quotient = source.1.div_ceil(wanted.1).max(source.0.div_ceil(wanted.0));
            quotient.next_power_of_two()
        }
    }
}

/// The highest power of two that is not above the number, and 1 for 0.
fn highest_power(number: u32) -> u32
    ensures { result ≡ highest_power number }
{
    if number == 0 {
        return 1;
    }
    1 << number.ilog2()
}

/// Each sample is a power of two. (A law of `sample_for`: the call does nothing.)
pub fn each_sample_is_a_power()
    ensures { EachSampleIsAPower }
{}

/// Under `AtLeast` no sampled side is below the wanted one, where no side of the source is; and the
/// next power of two would leave too few blocks along some side. (A law: the call does nothing.)
pub fn at_least_covers()
    ensures covers { AtLeastCovers }
    ensures highest { AtLeastIsHighest }
{}

/// Under `AtMost` no sampled side is above the wanted one. (A law: the call does nothing.)
pub fn at_most_is_covered()
    ensures { AtMostIsCovered }
{}
