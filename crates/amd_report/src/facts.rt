// What a matrix is: its figures, the degrees of its rows, the shape of its pattern, and how many duplicates its file
// had.

ghost use Rattle.std.specs.Prelude.{◌≡◌, ◌-◌, ℕ, List, pos, map, max, fold, count_by, nat_lt, length, IfOk};
ghost use Rattle.amd_model.specs.Input.Columns.{IsInput, IsJumbledInput, IsSortedInput};
ghost use Rattle.amd_types.specs.Statuses.{IsStatusOf};
ghost use Rattle.amd_report.specs.Degrees.{IsFacts, mean_degree};

use crate::bandwidths::{Bandwidths, widths_of};
use crate::components::components;
use crate::profile::profile_of;
use crate::signs::sorted_degrees;
use crate::symmetry::mirrored_entries;
use amd_input::preprocess::preprocess;
use amd_input::valid::valid;
use amd_market::reader::Matrix;
use amd_market::sources::Source;
use amd_types::amd::{Control, Info, Status};
use amd_types::dense::dense_threshold;
use std::alloc::Allocator;

/// The degrees of the rows of a matrix: how many other rows each has an edge with.
#[derive(Clone, Copy)]
pub struct Degrees {
    /// Their sum.
    pub sum: usize,
    /// The greatest one; 0 where there are no rows.
    pub greatest: usize,
    /// How many are 0.
    pub none: usize,
    /// How many are above the dense threshold.
    pub above: usize,
}

/// What a matrix is.
#[derive(Drop)]
pub struct Facts {
    /// The figures of the pattern.
    pub info: Info,
    /// The dense threshold: rows of a greater degree are held last.
    pub threshold: usize,
    /// The degrees of the rows.
    pub degrees: Degrees,
    /// How many entries off the diagonal have a mirror.
    pub mirrored: usize,
    /// How wide the band is.
    pub bandwidths: Bandwidths,
    /// The sum, over the rows, of how far before the diagonal the first entry of `A + A'` is.
    pub profile: u128,
    /// How many components the graph of `A + A'` has.
    pub components: usize,
    /// What the file says.
    pub source: Source,
    /// How many duplicates were dropped from the file.
    pub duplicates: usize,
}

/// The greatest one of some numbers; 0 where there are none.
#[tactic(auto, using(std::proofs::lemmas::List::Sums::fold_more))]
fn greatest_of(numbers: &[usize]) -> usize
    ensures { result ≡ fold max 0 numbers.now }
{
    let mut greatest = 0;
    'numbers: for &number in numbers {
        greatest = greatest.max(number);
    }
    greatest
}

/// How many of some numbers are above a limit.
fn count_above(numbers: &[usize], limit: usize) -> usize
    ensures { result ≡ count_by (λ x. nat_lt limit x) numbers.now }
{
    numbers.iter().filter(|number| **number > limit).count()
}

/// What a matrix is whose columns are sorted, and whose file says this and had so many duplicates, which were dropped.
fn facts_of_sorted<A: Allocator + Copy>(
    alloc: A,
    n: usize,
    a_p: &[usize],
    a_i: &[usize],
    source: Source,
    duplicates: usize,
    control: &Control,
) -> Result<Facts, Status>
    requires form { IsInput (pos n) (pos n) (map pos a_p.now) (map pos a_i.now) }
    requires sorted { IsSortedInput (pos n) (map pos a_p.now) (map pos a_i.now) }
    ensures facts { IfOk result (IsFacts n control.now.dense (map pos a_p.now) (map pos a_i.now)) }
    ensures status { IfOk result (λ f. f.info.status ≡ Status.OK) }
    ensures told { IfOk result (λ f. f.duplicates ≡ duplicates) }
    ensures source { IfOk result (λ f. f.source ≡ source) }
{
    let mut info = Info::new(n);
    let (sum, degrees) = sorted_degrees(alloc, n, a_p, a_i, &mut info)?;
    let mirrored = mirrored_entries(&info);
    let threshold = dense_threshold(n, control);
    let some = count_above(&degrees, 0);
    let told = Degrees {
        sum,
        greatest: greatest_of(&degrees),
        none: degrees.len() - some,
        above: count_above(&degrees, threshold),
    };
    drop(degrees);
    let profile = profile_of(alloc, n, a_p, a_i, info.symmetry)?;
    Ok(Facts {
        info,
        threshold,
        degrees: told,
        mirrored,
        bandwidths: widths_of(n, a_p, a_i),
        profile,
        components: components(alloc, n, a_p, a_i)?,
        source,
        duplicates,
    })
}

/// What a matrix is whose columns are jumbled: its transpose with sorted columns has the same figures, and the
/// bandwidths exchanged.
fn facts_of_jumbled<A: Allocator + Copy>(
    alloc: A,
    matrix: &Matrix<A>,
    control: &Control,
) -> Result<Facts, Status>
    requires form { IsInput (pos matrix.now.n) (pos matrix.now.n) (map pos matrix.now.a_p.items)
        (map pos matrix.now.a_i.items) }
    requires jumbled { IsJumbledInput (pos matrix.now.n) (map pos matrix.now.a_p.items)
        (map pos matrix.now.a_i.items) }
    ensures facts { IfOk result (IsFacts matrix.now.n control.now.dense (map pos matrix.now.a_p.items)
        (map pos matrix.now.a_i.items)) }
    ensures status { IfOk result (λ f. IsStatusOf (pos matrix.now.n) (pos matrix.now.n)
        (map pos matrix.now.a_p.items) (map pos matrix.now.a_i.items) f.info.status) }
    ensures told { IfOk result (λ f. f.duplicates ≡ matrix.now.repeats) }
    ensures source { IfOk result (λ f. f.source ≡ matrix.now.source) }
{
    let (c_p, c_i) = preprocess(alloc, matrix.n, &matrix.a_p, &matrix.a_i)?;
    let (source, repeats) = (matrix.source, matrix.repeats);
    let mut facts = facts_of_sorted(alloc, matrix.n, &c_p, &c_i, source, repeats, control)?;
    facts.info.status = Status::OkButJumbled;
    let Bandwidths { lower, upper } = facts.bandwidths;
    facts.bandwidths = Bandwidths {
        lower: upper,
        upper: lower,
    };
    Ok(facts)
}

/// What a matrix is. The columns are *sorted* where the rows of each strictly rise.
///
/// # Errors
///
/// `Invalid` where the matrix is no column form; `OutOfMemory` where memory was refused.
pub fn facts_of<A: Allocator + Copy>(
    alloc: A,
    matrix: &Matrix<A>,
    control: &Control,
) -> Result<Facts, Status>
    ensures facts { IfOk result (IsFacts matrix.now.n control.now.dense (map pos matrix.now.a_p.items)
        (map pos matrix.now.a_i.items)) }
    ensures status { IfOk result (λ f. IsStatusOf (pos matrix.now.n) (pos matrix.now.n)
        (map pos matrix.now.a_p.items) (map pos matrix.now.a_i.items) f.info.status) }
    ensures told { IfOk result (λ f. f.duplicates ≡ matrix.now.repeats) }
    ensures source { IfOk result (λ f. f.source ≡ matrix.now.source) }
{
    match valid(matrix.n, matrix.n, &matrix.a_p, &matrix.a_i) {
        Status::OK => facts_of_sorted(
            alloc,
            matrix.n,
            &matrix.a_p,
            &matrix.a_i,
            matrix.source,
            matrix.repeats,
            control,
        ),
        Status::OkButJumbled => facts_of_jumbled(alloc, matrix, control),
        status => Err(status),
    }
}

/// The mean degree in hundredths, cut to a whole number; 0 where there are no rows.
pub fn mean_degree(facts: &Facts) -> u128
    ensures { result ≡ mean_degree facts.now }
{
    facts.degrees.sum as u128 * 100 / facts.info.n.max(1) as u128
}
