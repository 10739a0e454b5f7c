// What is written beside the permutation and the figures: what the factor needs under several orders, the permuted
// matrix, the elimination tree and its supernodes, both pictures whole, and the answers as JSON, read with the kit's
// reader. The matrix is the path of three rows, the orders and what they need were worked by hand.

use crate::tests::outputs::PATH;
use amd_command::needs::{need_under, standing_order};
use amd_command::ordering::order_matrix;
use amd_command::permuted::permuted;
use amd_command::picture::{MOST_ROWS, Source, write_picture};
use amd_market::reader::{Matrix, read_matrix};
use amd_report::compare::{Comparison, write_comparison_lines};
use amd_report::facts::facts_of;
use amd_report::json::{write_facts_json, write_order_json};
use amd_report::pattern::write_matrix;
use amd_report::tree::{write_supernodes, write_tree};
use amd_report::tree_picture::write_tree_picture;
use amd_symbolic::{Fault, Supernodes, counts, supernodes};
use amd_testing::check;
use serde_json::Value;
use std::alloc::Global;
use std::process::Abort;
use std::test::Fail;

/// The order of the rows of the path.
const ORDER: [usize; 3] = [1, 0, 2];

/// What the factor needs under three orders; the last one begins with the row in the middle of the path.
const NEEDS: &str =
    "    entries of L below the diagonal                     2 as it stands, 2 ordered, 3 by --with
    fill                                                0 as it stands, 0 ordered, 1 by --with
    multiply-subtracts for LDL'                         2 as it stands, 2 ordered, 4 by --with
    multiply-subtracts for LU                           2 as it stands, 2 ordered, 5 by --with
    flops for LDL'                                      6 as it stands, 6 ordered, 11 by --with
    largest column, with its diagonal                   2 as it stands, 2 ordered, 3 by --with
    bytes of L in doubles, with its diagonal            40 as it stands, 40 ordered, 48 by --with
";

/// The path in its order.
const PERMUTED: &str =
    "%%MatrixMarket matrix coordinate pattern general\n3 3 5\n3 1\n2 2\n3 2\n1 3\n2 3\n";

/// The path drawn.
const PICTURE: &str = "<svg xmlns=\"http://www.w3.org/2000/svg\" width=\"860\" height=\"492\"
 viewBox=\"0 0 860 492\" font-family=\"sans-serif\" font-size=\"14\">
<rect width=\"860\" height=\"492\" fill=\"#ffffff\"/>
<text x=\"20\" y=\"24\">before, fill: 0</text>
<svg x=\"20\" y=\"36\"
 width=\"400\" height=\"400\" viewBox=\"0 0 3 3\" shape-rendering=\"crispEdges\">
<rect width=\"100%\" height=\"100%\" fill=\"#f4f4f2\"/>
<path fill=\"#1f4e79\" fill-opacity=\"100%\" d=\"M0 0h1v1h-1zM2 0h1v1h-1zM2 1h1v1h-1zM0 2h2v1h-2z\"/>
</svg>
<text x=\"440\" y=\"24\">after, fill: 0</text>
<svg x=\"440\" y=\"36\"
 width=\"400\" height=\"400\" viewBox=\"0 0 3 3\" shape-rendering=\"crispEdges\">
<rect width=\"100%\" height=\"100%\" fill=\"#f4f4f2\"/>
<path fill=\"#1f4e79\" fill-opacity=\"100%\" d=\"M2 0h1v1h-1zM1 1h2v1h-2zM0 2h2v1h-2z\"/>
</svg>
<text x=\"20\" y=\"460\">a&lt;b: 3 rows, 5 entries, 2 edges</text>
<rect x=\"20\" y=\"469\" width=\"12\" height=\"12\" fill=\"#1f4e79\"/>
<text x=\"38\" y=\"480\">entries</text>
<rect x=\"110\" y=\"469\" width=\"12\" height=\"12\" fill=\"#e07b39\"/>
<text x=\"128\" y=\"480\">fill</text>
</svg>
";

/// What of it is drawn: a file with a name that an SVG has to spell.
const SOURCE: Source = Source {
    name: "a<b",
    edges: 2,
    symmetric: false,
    most: MOST_ROWS,
};

/// The path.
fn path(alloc: Global) -> Result<Matrix<Global>, Fail> {
    Ok(read_matrix(alloc, PATH.as_bytes())?)
}

/// The supernodes of the path in its order.
fn supernodes_of(rt: &impl Abort, alloc: Global) -> Result<Supernodes<Global>, Fail> {
    let matrix = path(alloc)?;
    let Ok(made) = supernodes(alloc, 3, &matrix.a_p, &matrix.a_i, &ORDER) else {
        panic!(rt; "no supernodes");
    };
    Ok(made)
}

/// The first column of the path in its order is a supernode with the row 3, and the other two are its parent.
#[test]
fn supernodes_of_the_path(rt: HostRuntime) -> Result<(), Fail> {
    let made = supernodes_of(&rt, rt.alloc())?;
    let mut lines = Vec::new(rt.alloc());
    check!(&rt; write_supernodes(&made.first, &made.ptr, &made.parent, &mut lines).is_ok());
    check!(&rt; lines.as_slice() == b"1 1 2 1\n2 3 0 0\n".as_slice());
    Ok(())
}

/// The text of the picture of their tree.
fn supernodes_drawn(rt: &impl Abort, alloc: Global) -> Result<String, Fail> {
    let made = supernodes_of(rt, alloc)?;
    let mut blocks = Vec::new(alloc);
    check!(rt; write_tree_picture(alloc, "path", &made.first, &made.ptr, &made.parent, &mut blocks).is_ok());
    Ok(String::from_utf8_lossy(alloc, &blocks)?)
}

#[test]
fn picture_of_the_supernodes(rt: HostRuntime) -> Result<(), Fail> {
    let text = supernodes_drawn(&rt, rt.alloc())?;
    check!(&rt; text.contains(">path: 3 rows, 2 supernodes on 2 levels, largest front 2 rows<"));
    Ok(())
}

/// What the factor of the path needs under three orders.
fn three_needs(alloc: Global, matrix: &Matrix<Global>) -> Result<Comparison, Fault> {
    let standing = standing_order(alloc, 3)?;
    Ok(Comparison {
        rows: 3,
        edges: 2,
        stands: need_under(alloc, matrix, &standing)?,
        ordered: need_under(alloc, matrix, &ORDER)?,
        other: Some(need_under(alloc, matrix, &[2, 0, 1])?),
        inverse: false,
    })
}

#[test]
fn needs_under_orders(rt: HostRuntime) -> Result<(), Fail> {
    let alloc = rt.alloc();
    let matrix = path(alloc)?;
    let Ok(compared) = three_needs(alloc, &matrix) else {
        panic!(&rt; "no needs");
    };
    let mut out = Vec::new(alloc);
    check!(&rt; write_comparison_lines(compared, &mut out).is_ok());
    check!(&rt; out.as_slice() == NEEDS.as_bytes());
    let repeated = need_under(alloc, &matrix, &[0, 0, 1]);
    check!(&rt; matches!(repeated, Err(Fault::NotPermutation)));
    Ok(())
}

#[test]
fn the_path_in_its_order(rt: HostRuntime) -> Result<(), Fail> {
    let alloc = rt.alloc();
    let matrix = path(alloc)?;
    let Ok(other) = permuted(alloc, &matrix, &ORDER) else {
        panic!(&rt; "no order");
    };
    let mut out = Vec::new(alloc);
    check!(&rt; write_matrix(&other, &mut out).is_ok());
    check!(&rt; out.as_slice() == PERMUTED.as_bytes());
    Ok(())
}

#[test]
fn tree_of_the_path(rt: HostRuntime) -> Result<(), Fail> {
    let alloc = rt.alloc();
    let matrix = path(alloc)?;
    let Ok(counted) = counts(alloc, 3, &matrix.a_p, &matrix.a_i, &ORDER) else {
        panic!(&rt; "no order");
    };
    let mut tree = Vec::new(alloc);
    check!(&rt; write_tree(&counted.parent, &mut tree).is_ok());
    check!(&rt; tree.as_slice() == b"3\n3\n0\n".as_slice());
    Ok(())
}

#[test]
fn picture_of_the_path(rt: HostRuntime) -> Result<(), Fail> {
    let alloc = rt.alloc();
    let matrix = path(alloc)?;
    let mut drawn = Vec::new(alloc);
    check!(&rt; write_picture(alloc, &matrix, &ORDER, &SOURCE, &mut drawn).is_ok());
    check!(&rt; drawn.as_slice() == PICTURE.as_bytes());
    Ok(())
}

/// The number that stands in a text of JSON under a path of names.
fn number_at(alloc: Global, text: &[u8], path: &str) -> Result<Option<u64>, Fail> {
    let text = String::from_utf8_lossy(alloc, text)?;
    let value = Value::from_str(alloc, &text)?;
    Ok(value.pointer(path).and_then(Value::as_u64))
}

/// Numbers in the answer of `order`, each under a path of names.
static ORDER_NUMBERS: [(&str, u64); 8] = [
    ("/rows", 3),
    ("/duplicates_dropped", 4),
    ("/at_most/largest_column", 2),
    ("/as_it_stands/entries_of_l", 2),
    ("/with/multiply_subtracts_lu", 5),
    ("/with/flops_ldl", 11),
    ("/permutation/0", 2),
    ("/permutation/2", 3),
];

/// Numbers in the answer of `info`.
static FACT_NUMBERS: [(&str, u64); 4] = [
    ("/entries_on_the_diagonal", 1),
    ("/greatest_degree", 2),
    ("/with/fill", 1),
    ("/with/bytes_of_l", 48),
];

/// Asserts that these numbers stand in a text of JSON.
fn check_numbers(
    rt: &impl Abort,
    alloc: Global,
    text: &[u8],
    numbers: &[(&str, u64)],
) -> Result<(), Fail> {
    for (path, wanted) in numbers {
        let number = number_at(alloc, text, path)?;
        check!(rt; number == Some(*wanted), path);
    }
    Ok(())
}

#[test]
fn an_order_as_json(rt: HostRuntime) -> Result<(), Fail> {
    let alloc = rt.alloc();
    let matrix = path(alloc)?;
    let (Ok((p, info)), Ok(compared)) = (
        order_matrix(alloc, &matrix, &Default::default(), None),
        three_needs(alloc, &matrix),
    ) else {
        panic!(&rt; "no answer");
    };
    let mut order = Vec::new(alloc);
    check!(&rt; write_order_json(&info, 4, Some(compared), &p, &mut order).is_ok());
    check_numbers(&rt, alloc, &order, &ORDER_NUMBERS)
}

#[test]
fn facts_as_json(rt: HostRuntime) -> Result<(), Fail> {
    let alloc = rt.alloc();
    let matrix = path(alloc)?;
    let (Ok(facts), Ok(compared)) = (
        facts_of(alloc, &matrix, &Default::default()),
        three_needs(alloc, &matrix),
    ) else {
        panic!(&rt; "no answer");
    };
    let mut matrix_facts = Vec::new(alloc);
    check!(&rt; write_facts_json(&facts, Some(compared), &mut matrix_facts).is_ok());
    check_numbers(&rt, alloc, &matrix_facts, &FACT_NUMBERS)
}
