// What the options of an ordering choose is heard, down to the order that is written: twenty rows, of which one has
// eighteen edges, one is held, and elements are absorbed aggressively, so that each of eight choices has another order.
// The orders and what the factor needs come from an independent program that follows the rules.

use crate::tests::files::{make_folder, within};
use crate::tests::runs::{Broken, run_at_desk};
use amd_testing::check;
use std::fs;
use std::process::Abort;
use std::test::Fail;

/// The rows: row 14 has an edge with all others but row 11, and is dense by a threshold of 17.
const TWENTY: &str = "%%MatrixMarket matrix coordinate pattern symmetric
20 20 46
3 1
13 1
14 1
9 2
14 2
19 2
7 3
11 3
14 3
16 3
17 3
20 3
10 4
12 4
14 4
17 4
8 5
14 5
7 6
10 6
14 6
14 7
19 7
11 8
14 8
20 8
14 9
18 9
14 10
19 10
13 11
15 11
17 11
18 11
19 11
14 12
14 13
15 14
16 14
17 14
18 14
19 14
20 14
17 16
19 16
19 17
";

/// The row that is held, row 3.
const HELD: &str = "3\n";

/// The options, and the order.
static ORDERS: [(&[&str], &str); 10] = [
    (&[], "13 5 15 8 20 1 18 9 2 12 4 6 10 7 11 3 14 16 19 17"),
    (
        &["--hold", "-"],
        "12 4 6 7 5 15 20 8 18 9 2 1 13 11 10 14 16 19 17 3",
    ),
    (
        &["--no-aggressive"],
        "12 4 6 10 7 13 1 18 9 2 15 5 8 20 11 3 14 16 19 17",
    ),
    (
        &["--no-aggressive", "--hold", "-"],
        "12 4 6 7 10 18 9 2 5 20 8 15 1 13 11 14 16 19 17 3",
    ),
    (
        &["--dense", "4"],
        "13 5 15 8 20 1 18 9 2 12 4 10 6 7 11 3 16 19 17 14",
    ),
    (
        &["--dense", "4", "--hold", "-"],
        "5 15 20 8 12 4 10 7 6 16 17 19 2 18 9 11 1 13 3 14",
    ),
    (
        &["--dense", "4", "--no-aggressive"],
        "12 4 10 6 7 13 1 18 9 2 15 5 8 20 11 3 16 19 17 14",
    ),
    (
        &["--dense", "4", "--no-aggressive", "--hold", "-"],
        "5 20 8 15 12 4 10 7 6 16 17 19 2 18 9 11 1 13 3 14",
    ),
    (
        &["--dense", "-0.5"],
        "13 5 15 8 20 1 18 9 2 12 4 6 10 7 11 3 14 16 19 17",
    ),
    (
        &["--dense", "0.5"],
        "13 5 15 8 20 1 18 9 2 12 4 10 6 7 11 3 16 19 17 14",
    ),
];

/// The rows from the last to the first.
const BACKWARD: &str = "20\n19\n18\n17\n16\n15\n14\n13\n12\n11\n10\n9\n8\n7\n6\n5\n4\n3\n2\n1\n";

/// What the factor needs as the rows stand, as they are ordered, and from the last row to the first.
const COMPARED: &str = "
    entries of L below the diagonal                     89 as it stands, 55 ordered, 121 by --with
    fill                                                43 as it stands, 9 ordered, 75 by --with
    multiply-subtracts for LDL'                         308 as it stands, 113 ordered, 562 by --with
    multiply-subtracts for LU                           527 as it stands, 171 ordered, 1003 by --with
    flops for LDL'                                      705 as it stands, 281 ordered, 1245 by --with
    largest column, with its diagonal                   10 as it stands, 5 ordered, 14 by --with
    bytes of L in doubles, with its diagonal            872 as it stands, 600 ordered, 1128 by --with
";

/// The place of each row in the first of the orders.
const PLACES: &str = "6 9 16 11 2 12 14 4 8 13 15 10 1 17 3 18 20 7 19 5";

/// The rows in the first of the orders, from 0 on.
const ROWS: &str = "12 4 14 7 19 0 17 8 1 11 3 5 9 6 10 2 13 15 18 16";

/// The columns of the factor under the first of the orders in a postorder of its elimination tree.
const POSTORDER: &str = "10 11 12 13 14 3 2 4 5 1 6 7 8 9 15 16 17 18 19 20";

/// The same, from 0 on.
const POSTORDER_FROM_0: &str = "9 10 11 12 13 2 1 3 4 0 5 6 7 8 14 15 16 17 18 19";

/// Whether each line begins with the row that an order has there, and there are as many.
fn lists_order(shown: &str, order: &str) -> bool {
    let mut rows = order.split(' ');
    for line in shown.lines() {
        let (row, _) = line.split_once(' ').unwrap_or((line, ""));
        if rows.next() != Some(row) {
            return false;
        }
    }
    rows.next().is_none()
}

/// Whether a run on an input ends well and lists the rows in an order.
fn lists(rt: &HostRuntime, words: &[&str], input: &str, order: &str) -> Result<bool, Fail> {
    let end = run_at_desk(rt, words, input, 0, Broken::Neither)?;
    Ok(end.status == 0 && lists_order(end.shown.as_str(), order))
}

/// Whether a command with these options lists the rows of a file in an order.
fn hears_choice<'a>(
    rt: &HostRuntime,
    name: &'a str,
    file: &'a str,
    options: &[&'a str],
    order: &str,
) -> Result<bool, Fail> {
    let mut words = Vec::new(rt.alloc());
    words.push(name)?;
    words.push(file)?;
    words.extend_from_slice(options)?;
    lists(rt, words.as_slice(), HELD, order)
}

/// Whether each choice has its order in a command.
fn hears_choices(rt: &HostRuntime, name: &str, file: &str) -> Result<bool, Fail> {
    for (options, order) in &ORDERS {
        if !hears_choice(rt, name, file, options, order)? {
            return Ok(false);
        }
    }
    Ok(true)
}

/// Each choice has its order, in `order` and in `analyze`.
#[test]
fn choices_of_an_ordering(rt: HostRuntime) -> Result<(), Fail> {
    let folder = make_folder(&rt)?;
    let folder = folder.as_str();
    let file = within(&rt, folder, "twenty.mtx")?;
    let file = file.as_str();
    fs::write(&rt, file, TWENTY)?;
    check!(&rt; hears_choices(&rt, "order", file)?);
    check!(&rt; hears_choices(&rt, "analyze", file)?);
    fs::remove_dir_all(&rt, folder)?;
    Ok(())
}

/// The place of each row in the first order, and the rows of it from 0 on.
#[test]
fn forms_of_an_order(rt: HostRuntime) -> Result<(), Fail> {
    check!(&rt; lists(&rt, &["order", "-", "--inverse"], TWENTY, PLACES)?);
    check!(&rt; lists(&rt, &["order", "-", "--zero-based"], TWENTY, ROWS)?);
    let words = ["order", "-", "--zero-based", "--inverse"];
    let end = run_at_desk(&rt, &words, TWENTY, 0, Broken::Neither)?;
    check!(&rt; end.status == 0 && end.shown.starts_with("5\n8\n15\n"));
    Ok(())
}

/// A postorder of the elimination tree, whose columns count as the rows do.
#[test]
fn postorders_of_a_tree(rt: HostRuntime) -> Result<(), Fail> {
    let words = ["order", "-", "--out", "/dev/null", "--postorder", "-"];
    check!(&rt; lists(&rt, &words, TWENTY, POSTORDER)?);
    let words = [
        "order",
        "-",
        "--out",
        "/dev/null",
        "--postorder",
        "-",
        "--zero-based",
        "--inverse",
    ];
    check!(&rt; lists(&rt, &words, TWENTY, POSTORDER_FROM_0)?);
    Ok(())
}

/// The lines of numbers, with those of vertices from 1 on before them and a line with their count first, or without.
fn lines_of(rt: &HostRuntime, numbers: &str, paired: bool) -> Result<String, Fail> {
    let mut lines = if paired {
        String::from_str(rt.alloc(), "20\n")?
    } else {
        String::new(rt.alloc())
    };
    for (k, number) in numbers.split(' ').enumerate() {
        let vertex = k as u128 + 1;
        let line = if paired {
            format!(in rt.alloc(); "{vertex}\t{number}\n")?
        } else {
            format!(in rt.alloc(); "{number}\n")?
        };
        lines.push_str(&line)?;
    }
    Ok(lines)
}

/// Writes an order to a file in a form.
fn write_form(rt: &HostRuntime, with: &str, numbers: &str, paired: bool) -> Result<(), Fail> {
    let lines = lines_of(rt, numbers, paired)?;
    fs::write(rt, with, lines.as_str())?;
    Ok(())
}

/// Whether the order of a file, read by an option, has the needs of the first of the orders.
fn hears_form(rt: &HostRuntime, with: &str, option: &str) -> Result<bool, Fail> {
    let wanted = format!(in rt.alloc(); "89 as it stands, 55 ordered, 55 by {option}\n")?;
    let words = ["order", "-", "--compare", option, with];
    let end = run_at_desk(rt, &words, TWENTY, 0, Broken::Neither)?;
    Ok(end.status == 0 && end.told.contains(wanted.as_str()))
}

/// The options that read an order, an order for each, and whether its lines are pairs.
static FORMS: [(&str, &str, bool); 4] = [
    ("--with", ROWS, false),
    ("--with-inverse", PLACES, false),
    ("--with", PLACES, true),
    ("--with-inverse", PLACES, true),
];

/// Asserts that each form of the order is heard from a file.
fn check_forms(rt: &impl Abort, host: &HostRuntime, with: &str) -> Result<(), Fail> {
    for &(option, numbers, paired) in &FORMS {
        write_form(host, with, numbers, paired)?;
        check!(rt; hears_form(host, with, option)?, option);
    }
    Ok(())
}

/// The first of the orders, read from 0 on, by its places, and as the vertices and their places: it has its own needs.
#[test]
fn orders_in_each_form(rt: HostRuntime) -> Result<(), Fail> {
    let folder = make_folder(&rt)?;
    let with = within(&rt, folder.as_str(), "form")?;
    check_forms(&rt, &rt, with.as_str())?;
    fs::remove_dir_all(&rt, folder.as_str())?;
    Ok(())
}

/// Whether a command with an option tells or shows the needs of the rows from the last to the first, which stand in a
/// file.
fn compares(rt: &HostRuntime, name: &str, option: &str, with: &str) -> Result<bool, Fail> {
    let words = [name, "-", option, "--with", with];
    let end = run_at_desk(rt, &words, TWENTY, 0, Broken::Neither)?;
    let is_told = end.told.contains(COMPARED) || end.shown.contains(COMPARED);
    Ok(end.status == 0 && is_told)
}

/// Asserts that both commands that count what a factor needs hear an order that stands in a file.
fn check_needs(rt: &impl Abort, host: &HostRuntime, with: &str) -> Result<(), Fail> {
    fs::write(host, with, BACKWARD)?;
    check!(rt; compares(host, "order", "--compare", with)?);
    check!(rt; compares(host, "info", "--exact", with)?);
    Ok(())
}

/// Each need stands in its place, and the fill is over the edges.
#[test]
fn needs_of_three_orders(rt: HostRuntime) -> Result<(), Fail> {
    let folder = make_folder(&rt)?;
    let with = within(&rt, folder.as_str(), "backward")?;
    check_needs(&rt, &rt, with.as_str())?;
    fs::remove_dir_all(&rt, folder.as_str())?;
    Ok(())
}
