// What `info` tells of a drawn pattern that is not symmetric and has rows of degree 0, sorted and jumbled. The numbers
// come from an independent program that follows the definitions over sets of pairs.

use amd::{Control, Status};
use amd_market::reader::read_matrix;
use amd_report::description::write_facts;
use amd_report::facts::{Facts, facts_of};
use amd_report::json::write_facts_json;
use amd_testing::check;
use std::alloc::Global;
use std::process::Abort;
use std::test::Fail;

/// The pattern.
const DRAWN: &str = "%%MatrixMarket matrix coordinate pattern general
24 24 38
20 17
19 1
8 17
11 20
7 4
9 12
22 22
8 20
12 12
17 23
13 4
18 15
2 14
6 6
4 16
5 8
15 18
22 10
6 3
1 10
1 1
17 5
12 9
10 19
11 2
20 8
8 11
4 7
16 4
13 10
10 22
15 15
3 3
19 10
9 3
9 6
23 20
24 24
";

/// What is told of it.
const DRAWN_FACTS: &str =
    "    format of the file                                  Matrix Market coordinate
    field of the file                                   pattern
    symmetry of the file                                general
    rows                                                24
    entries                                             38
    duplicates dropped                                  0
    symmetric pattern                                   no
    entries on the diagonal                             7
    edges                                               24
    mirrored entries off the diagonal                   14
    pattern symmetry                                    45.1 %
    bandwidth below the diagonal                        18
    bandwidth above the diagonal                        12
    profile of A + A'                                   132
    components of A + A'                                6
    greatest degree                                     4
    mean degree                                         2.00
    rows of degree 0                                    2
    dense threshold                                     24
    rows above the threshold                            0
";

/// The same as JSON.
const DRAWN_MEMBERS: &str =
    "{\"rows\":24,\"entries\":38,\"duplicates_dropped\":0,\"symmetric_pattern\":false,\
\"entries_on_the_diagonal\":7,\"edges\":24,\"format\":\"Matrix Market coordinate\",\"field\":\"pattern\",\
\"symmetry\":\"general\",\"mirrored_entries\":14,\"pattern_symmetry_percent\":45.1,\
\"lower_bandwidth\":18,\"upper_bandwidth\":12,\"profile\":132,\"components\":6,\"greatest_degree\":4,\
\"mean_degree\":2.00,\"rows_of_degree_0\":2,\"dense_threshold\":24,\"rows_above_the_threshold\":0}
";

/// The facts of a file.
fn facts_in(rt: &impl Abort, alloc: Global, file: &str) -> Result<Facts, Fail> {
    let matrix = read_matrix(alloc, file.as_bytes())?;
    let Ok(facts) = facts_of(alloc, &matrix, &Control::default()) else {
        panic!(rt; "no facts");
    };
    Ok(facts)
}

/// Asserts what is told of facts.
fn check_facts(rt: &impl Abort, alloc: Global, facts: &Facts, wanted: &str) {
    let mut text = Vec::new(alloc);
    check!(rt; write_facts(facts, &mut text).is_ok());
    check!(rt; text.as_slice() == wanted.as_bytes());
}

#[test]
fn shape_of_a_drawn_pattern(rt: HostRuntime) -> Result<(), Fail> {
    let alloc = rt.alloc();
    let facts = facts_in(&rt, alloc, DRAWN)?;
    check_facts(&rt, alloc, &facts, DRAWN_FACTS);
    let mut members = Vec::new(alloc);
    check!(&rt; write_facts_json(&facts, None, &mut members).is_ok());
    check!(&rt; members.as_slice() == DRAWN_MEMBERS.as_bytes());
    Ok(())
}

/// A pattern in which most entries have no mirror.
const ONE_WAY: &str = "%%MatrixMarket matrix coordinate pattern general
30 30 53
6 3
13 18
1 24
8 1
14 6
12 10
30 30
10 13
23 7
5 5
16 16
3 10
5 9
7 7
16 23
26 27
11 6
16 8
1 12
7 18
2 9
1 15
10 11
22 20
24 12
20 9
20 22
13 10
23 6
8 21
3 11
4 19
12 1
22 21
28 28
23 11
5 20
6 6
19 1
7 6
23 24
1 1
24 7
2 6
29 28
21 17
14 9
20 15
10 20
4 12
18 13
20 10
6 13
";

/// What is told of it.
const ONE_WAY_FACTS: &str =
    "    format of the file                                  Matrix Market coordinate
    field of the file                                   pattern
    symmetry of the file                                general
    rows                                                30
    entries                                             53
    duplicates dropped                                  0
    symmetric pattern                                   no
    entries on the diagonal                             7
    edges                                               41
    mirrored entries off the diagonal                   10
    pattern symmetry                                    21.7 %
    bandwidth below the diagonal                        18
    bandwidth above the diagonal                        23
    profile of A + A'                                   183
    components of A + A'                                5
    greatest degree                                     7
    mean degree                                         2.73
    rows of degree 0                                    2
    dense threshold                                     30
    rows above the threshold                            0
";

#[test]
fn shape_of_a_pattern_with_few_mirrors(rt: HostRuntime) -> Result<(), Fail> {
    let facts = facts_in(&rt, rt.alloc(), ONE_WAY)?;
    check_facts(&rt, rt.alloc(), &facts, ONE_WAY_FACTS);
    Ok(())
}

/// With the two entries of the first column exchanged it is jumbled, and all else that is told is the same.
#[test]
fn shape_of_a_jumbled_pattern(rt: HostRuntime) -> Result<(), Fail> {
    let alloc = rt.alloc();
    let mut matrix = read_matrix(alloc, DRAWN.as_bytes())?;
    if matrix.a_i.len() > 1 {
        matrix.a_i.swap(0, 1);
    }
    let Ok(facts) = facts_of(alloc, &matrix, &Control::default()) else {
        panic!(&rt; "no facts");
    };
    check!(&rt; facts.info.status == Status::OkButJumbled);
    check_facts(&rt, alloc, &facts, DRAWN_FACTS);
    Ok(())
}

/// Files of one row, and what is told first of each.
static SOURCES: [(&str, &str); 4] = [
    (
        "%%MatrixMarket matrix coordinate unsigned-integer skew-symmetric\n1 1 0\n",
        "    format of the file                                  Matrix Market coordinate
    field of the file                                   unsigned-integer
    symmetry of the file                                skew-symmetric
",
    ),
    (
        "%%MatrixMarket matrix ARRAY complex hermitian\n1 1\n1 0\n",
        "    format of the file                                  Matrix Market array
    field of the file                                   complex
    symmetry of the file                                hermitian
",
    ),
    (
        "title\n2 1 1 0\nRUA 1 1 1\n(2I4) (I4)\n   1   2\n   1\n",
        "    format of the file                                  Harwell-Boeing or Rutherford-Boeing
    field of the file                                   real
    symmetry of the file                                general
",
    ),
    (
        "title\n2 1 1 0\nqza 1 1 1\n(2I4) (I4)\n   1   2\n   1\n",
        "    format of the file                                  Harwell-Boeing or Rutherford-Boeing
    field of the file                                   in another file
    symmetry of the file                                skew-symmetric
",
    ),
];

#[test]
fn what_files_say(rt: HostRuntime) -> Result<(), Fail> {
    let alloc = rt.alloc();
    for (file, wanted) in &SOURCES {
        let facts = facts_in(&rt, alloc, file)?;
        let mut text = Vec::new(alloc);
        check!(&rt; write_facts(&facts, &mut text).is_ok());
        check!(&rt; text.starts_with(wanted.as_bytes()), file);
    }
    Ok(())
}
