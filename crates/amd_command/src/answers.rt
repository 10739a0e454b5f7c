// The texts of the answers, made in memory before an output is written. What each text says, and when there is one, is
// told by a contract here.

ghost use Rattle.std.specs.Prelude.{◌≡◌, None, false, map, pos, string_bytes, IfOk, MatchOption, OnOk};
ghost use Rattle.std.specs.Option.{option_copied};
ghost use Rattle.std.specs.Str.Lossy.{utf8_lossy};
ghost use Rattle.std.specs.Io.KnownBytes.{Appends};
ghost use Rattle.amd_factor.specs.Supernodes.{IsSupernodesOf};
ghost use Rattle.amd_command.specs.Answers.{AreCountsIn, AreNumbers, AreTwoNeeds, IsOrderingOf, lines_of};
ghost use Rattle.amd_command.specs.Answers.{TellsAnalysis, TellsBounds, TellsColumns, TellsFacts};
ghost use Rattle.amd_command.specs.Answers.{TellsOrder, order_figures, told_figures};
ghost use Rattle.amd_command.specs.Needs.{IsNeedUnder};
ghost use Rattle.amd_command.specs.Parts.{AreParentsUnder, TellsFactor, TellsTree, forest_text};
ghost use Rattle.amd_command.specs.Permuted.{TellsPermuted};
ghost use Rattle.amd_command.specs.Postorders.{TellsPostorder};
ghost use Rattle.amd_command.specs.Written.{AreTextsOf};

use crate::analysis::{Analysis, analyze_matrix};
use crate::faults::cause_of;
use crate::lists::{places_in, write_numbers};
use crate::needs::{need_under, standing_order};
use crate::ordering::order_matrix;
use crate::permuted::{pattern_text, valued_text};
use crate::postorder::postorder_under;
use amd::{Control, Info};
use amd_cli::causes::Cause;
use amd_cli::inputs::Task;
use amd_cli::request::Options;
use amd_factor::needs::Need;
use amd_market::reader::Matrix;
use amd_report::compare::{Comparison, write_comparison_lines};
use amd_report::description::write_facts;
use amd_report::factor_json::write_analysis_json;
use amd_report::factor_text::{write_columns, write_comparison};
use amd_report::facts::facts_of;
use amd_report::figures::write_figures;
use amd_report::json::{write_facts_json, write_order_json};
use amd_report::pattern::write_matrix;
use amd_report::rows::write_rows;
use amd_report::tree::{write_supernodes, write_tree};
use amd_symbolic::{Supernodes, columns, counts, supernodes};
use std::alloc::Global;
use std::io;
use std::io::Write;

/// What an ordering, or an analysis, writes beside the pictures.
pub struct Texts {
    /// The permutation, or the columns of the factor.
    pub lines: Vec<u8>,
    /// The figures.
    pub figures: String,
    /// The pattern of the factor below the diagonal, where it is asked for.
    pub factor: Option<Vec<u8>>,
    /// The permuted matrix, where it is asked for.
    pub permuted: Option<Vec<u8>>,
    /// The elimination tree and its supernodes, where they are asked for.
    pub tree: Option<Vec<u8>>,
    /// A postorder of the elimination tree, where it is asked for.
    pub postorder: Option<Vec<u8>>,
}

/// The texts are given back in one function, not anew wherever they end.
impl Drop for Texts {
    fn drop(self) {
        let Texts {
            lines: _,
            figures: _,
            factor: _,
            permuted: _,
            tree: _,
            postorder: _,
        } = self;
    }
}

/// An ordering, and what the factor needs under each order, where that is asked for.
#[derive(Drop)]
pub struct Ordered {
    /// The permutation.
    pub p: Vec<usize>,
    /// What the ordering tells.
    pub info: Info,
    /// The needs.
    pub compared: Option<Comparison>,
}

/// What the factor needs under an order of the rows.
fn need_in(alloc: Global, matrix: &Matrix<Global>, p: &[usize]) -> Result<Need, Cause>
    ensures { IfOk result (IsNeedUnder matrix.now.n matrix.now.a_p.items matrix.now.a_i.items p.now) }
{
    match need_under(alloc, matrix, p) {
        Ok(need) => Ok(need),
        Err(fault) => Err(cause_of(fault)),
    }
}

/// What the factor needs as the rows stand, and in an order of them.
pub fn two_needs(alloc: Global, matrix: &Matrix<Global>, p: &[usize]) -> Result<(Need, Need), Cause>
    ensures { IfOk result (λ r. AreTwoNeeds matrix.now.n matrix.now.a_p.items matrix.now.a_i.items p.now r.0 r.1) }
{
    let standing = standing_order(alloc, matrix.n)?;
    let stands = need_in(alloc, matrix, &standing)?;
    let ordered = need_in(alloc, matrix, p)?;
    Ok((stands, ordered))
}

/// Orders what a task has.
pub fn order_task(alloc: Global, task: &Task) -> Result<(Vec<usize>, Info), Cause>
    ensures { IfOk result (λ a. IsOrderingOf task.now a.0.items a.1) }
{
    let held = task.hold.as_deref();
    let (p, info) = order_matrix(alloc, &task.matrix, &task.control, held)?;
    Ok((p, info))
}

/// The text of the pattern of the factor below the diagonal, where it is asked for: a file of the Matrix Market whose
/// rows and columns are numbered as they are eliminated.
fn factor_text(
    alloc: Global,
    options: &Options<'_>,
    matrix: &Matrix<Global>,
    p: &[usize],
) -> Result<Option<Vec<u8>>, Cause>
    ensures { IfOk result (λ made. MatchOption options.now.factor (made ≡ None) (λ path. MatchOption made ⊥ (λ text.
        TellsFactor matrix.now.n matrix.now.a_p.items matrix.now.a_i.items p.now text.items))) }
{
    let Some(_) = options.factor else {
        return Ok(None);
    };
    let need = need_in(alloc, matrix, p)?;
    let Ok(room) = usize::try_from(need.lnz) else {
        return Err(Cause::Memory);
    };
    let found = columns(alloc, matrix.n, &matrix.a_p, &matrix.a_i, p, room);
    let factor = found.map_err(cause_of)?;
    let pattern = Matrix {
        n: matrix.n,
        a_p: factor.ptr,
        a_i: factor.rows,
        source: matrix.source,
        repeats: 0,
    };
    let mut text = Vec::new(alloc);
    write_matrix(&pattern, &mut text)?;
    Ok(Some(text))
}

/// The text of the permuted matrix, made from its text, where there is one: with its values, or, where the text does
/// not list entries, as a pattern.
fn permuted_text(
    alloc: Global,
    matrix: &Matrix<Global>,
    text: Option<&[u8]>,
    p: &[usize],
) -> Result<Option<Vec<u8>>, Cause>
    ensures { IfOk result (λ made. MatchOption text.entry (made ≡ None) (λ given. MatchOption made ⊥ (λ text.
        TellsPermuted matrix.now.n matrix.now.a_p.items matrix.now.a_i.items p.now given.now text.items))) }
{
    let Some(given) = text else {
        return Ok(None);
    };
    if let Some(made) = valued_text(alloc, given, matrix.n, p)? {
        return Ok(Some(made));
    }
    Ok(Some(pattern_text(alloc, matrix, p)?))
}

/// The parents of the columns of the factor under an order.
fn parents_in(
    alloc: Global,
    matrix: &Matrix<Global>,
    p: &[usize],
) -> Result<Vec<Option<usize>>, Cause>
    ensures { IfOk result (λ parents. AreParentsUnder matrix.now.n matrix.now.a_p.items matrix.now.a_i.items p.now
        parents.items) }
{
    match counts(alloc, matrix.n, &matrix.a_p, &matrix.a_i, p) {
        Ok(counted) => Ok(counted.parent),
        Err(fault) => Err(cause_of(fault)),
    }
}

/// The supernodes of the factor under an order.
fn supernodes_in(
    alloc: Global,
    matrix: &Matrix<Global>,
    p: &[usize],
) -> Result<Supernodes<Global>, Cause>
    ensures { IfOk result (λ s. IsSupernodesOf (pos matrix.now.n) (map pos matrix.now.a_p.items)
        (map pos matrix.now.a_i.items) (map pos p.now) s.first.items s.ptr.items s.rows.items s.parent.items) }
{
    match supernodes(alloc, matrix.n, &matrix.a_p, &matrix.a_i, p) {
        Ok(made) => Ok(made),
        Err(fault) => Err(cause_of(fault)),
    }
}

/// Writes the elimination tree and its supernodes, a heading before each.
fn write_forest<W: Write>(
    parents: &[Option<usize>],
    made: &Supernodes<Global>,
    out: &mut W,
) -> io::Result<()>
    ensures { OnOk result (Appends (W.contents out.old) (W.contents out.new)
        (forest_text parents.now made.now.first.items made.now.ptr.items made.now.parent.items)) }
{
    out.write_all(b"% the parent of each column, 0 for a root\n")?;
    write_tree(parents, out)?;
    out.write_all(b"% of each supernode its first and its last column, its parent or 0, ")?;
    out.write_all(b"and its rows below the block\n")?;
    write_supernodes(&made.first, &made.ptr, &made.parent, out)?;
    Ok(())
}

/// The text of the elimination tree and of its supernodes, where it is asked for.
fn tree_text(
    alloc: Global,
    options: &Options<'_>,
    matrix: &Matrix<Global>,
    p: &[usize],
) -> Result<Option<Vec<u8>>, Cause>
    ensures { IfOk result (λ made. MatchOption options.now.tree (made ≡ None) (λ path. MatchOption made ⊥ (λ text.
        TellsTree matrix.now.n matrix.now.a_p.items matrix.now.a_i.items p.now text.items))) }
{
    let Some(_) = options.tree else {
        return Ok(None);
    };
    let parents = parents_in(alloc, matrix, p)?;
    let made = supernodes_in(alloc, matrix, p)?;
    let mut text = Vec::new(alloc);
    write_forest(&parents, &made, &mut text)?;
    Ok(Some(text))
}

/// The text of a postorder of the elimination tree, where it is asked for: a line for each column, counted as the rows.
fn postorder_text(
    alloc: Global,
    options: &Options<'_>,
    matrix: &Matrix<Global>,
    p: &[usize],
) -> Result<Option<Vec<u8>>, Cause>
    ensures { IfOk result (λ made. MatchOption options.now.postorder (made ≡ None) (λ path. MatchOption made ⊥
        (λ text. TellsPostorder matrix.now.n matrix.now.a_p.items matrix.now.a_i.items p.now options.now.zero_based
        text.items))) }
{
    let Some(_) = options.postorder else {
        return Ok(None);
    };
    let columns = postorder_under(alloc, matrix, p)?;
    let text = lines_of(alloc, options.zero_based, &columns)?;
    Ok(Some(text))
}

/// The figures of an ordering, and how many duplicates were dropped from the file.
fn figures_text(alloc: Global, ordered: &Ordered, duplicates: usize) -> Result<String, Cause>
    ensures { IfOk result (λ s. string_bytes s ≡
        utf8_lossy (order_figures ordered.now.info duplicates ordered.now.compared)) }
{
    let mut figures = Vec::new(alloc);
    write_figures(&ordered.info, duplicates, &mut figures)?;
    if let Some(compared) = ordered.compared {
        write_comparison_lines(compared, &mut figures)?;
    }
    Ok(String::from_utf8_lossy(alloc, &figures)?)
}

/// The figures that are told of an ordering; none where it is told as one object, or nothing is to be told.
fn figures_told(
    alloc: Global,
    options: &Options<'_>,
    repeats: usize,
    ordered: &Ordered,
) -> Result<String, Cause>
    ensures { IfOk result (λ s. string_bytes s ≡
        told_figures options.now ordered.now.info repeats ordered.now.compared) }
{
    if options.json || options.quiet {
        return Ok(String::new(alloc));
    }
    figures_text(alloc, ordered, repeats)
}

/// The numbers that are written of an order: the row at each place, or the place of each row.
fn numbers_of(alloc: Global, options: &Options<'_>, p: &[usize]) -> Result<Vec<usize>, Cause>
    ensures { IfOk result (λ numbers. AreNumbers options.now.inverse p.now numbers.items) }
{
    if options.inverse {
        return places_in(alloc, p);
    }
    let mut numbers = Vec::with_capacity(alloc, p.len())?;
    numbers.extend_from_slice(p)?;
    Ok(numbers)
}

/// The lines of numbers, from 0 or from 1 on.
fn lines_of(alloc: Global, zero_based: bool, numbers: &[usize]) -> Result<Vec<u8>, Cause>
    ensures { IfOk result (λ text. text.items ≡ lines_of zero_based numbers.now) }
{
    let mut text = Vec::new(alloc);
    if zero_based {
        write_numbers(numbers, &mut text)?;
    } else {
        write_rows(numbers, &mut text)?;
    }
    Ok(text)
}

/// What is written first of an ordering: one object, or a line for each row.
fn first_lines(
    alloc: Global,
    options: &Options<'_>,
    repeats: usize,
    ordered: &Ordered,
) -> Result<Vec<u8>, Cause>
    ensures { IfOk result (λ text. TellsOrder options.now ordered.now.info repeats ordered.now.compared
        ordered.now.p.items text.items) }
{
    if options.json {
        let (info, p) = (&ordered.info, &ordered.p);
        let mut text = Vec::new(alloc);
        write_order_json(info, repeats, ordered.compared, p, &mut text)?;
        return Ok(text);
    }
    let numbers = numbers_of(alloc, options, &ordered.p)?;
    lines_of(alloc, options.zero_based, &numbers)
}

/// The texts of an ordering.
pub fn order_texts(
    alloc: Global,
    options: &Options<'_>,
    matrix: &Matrix<Global>,
    text: Option<&[u8]>,
    ordered: &Ordered,
) -> Result<Texts, Cause>
    ensures { IfOk result (AreTextsOf options.now matrix.now.n matrix.now.a_p.items matrix.now.a_i.items
        matrix.now.repeats (option_copied text.entry) ordered.now) }
{
    let lines = first_lines(alloc, options, matrix.repeats, ordered)?;
    let figures = figures_told(alloc, options, matrix.repeats, ordered)?;
    Ok(Texts {
        lines,
        figures,
        factor: factor_text(alloc, options, matrix, &ordered.p)?,
        permuted: permuted_text(alloc, matrix, text, &ordered.p)?,
        tree: tree_text(alloc, options, matrix, &ordered.p)?,
        postorder: postorder_text(alloc, options, matrix, &ordered.p)?,
    })
}

/// Orders what a task has, and counts the columns of the factor under the ordering.
fn analyze_task(alloc: Global, task: &Task) -> Result<Analysis<Global>, Cause>
    ensures ordering { IfOk result (λ a. IsOrderingOf task.now a.p.items a.info) }
    ensures counts { IfOk result (λ a. AreCountsIn task.now a.p.items a.counts.sizes.items a.counts.parent.items
        a.counts.need) }
{
    let marks = task.hold.as_deref();
    match analyze_matrix(alloc, &task.matrix, &task.control, marks) {
        Ok(analysis) => Ok(analysis),
        Err(fault) => Err(cause_of(fault)),
    }
}

/// What is written first of an analysis: one object, or a line for each column of the factor.
fn column_texts(
    alloc: Global,
    json: bool,
    repeats: usize,
    analysis: &Analysis<Global>,
) -> Result<Vec<u8>, Cause>
    ensures { IfOk result (λ text. TellsColumns json repeats analysis.now.info analysis.now.p.items
        analysis.now.counts.sizes.items analysis.now.counts.parent.items analysis.now.counts.need text.items) }
{
    let Analysis { p, info, counts } = analysis;
    let mut text = Vec::new(alloc);
    if json {
        write_analysis_json(
            info,
            repeats,
            &counts.need,
            p,
            &counts.parent,
            &counts.sizes,
            &mut text,
        )?;
    } else {
        write_columns(p, &counts.parent, &counts.sizes, &mut text)?;
    }
    Ok(text)
}

/// The exact figures beside their bounds.
fn comparison_figures(
    alloc: Global,
    repeats: usize,
    analysis: &Analysis<Global>,
) -> Result<String, Cause>
    ensures { IfOk result (λ s. TellsBounds false repeats analysis.now.info analysis.now.counts.need
        (string_bytes s)) }
{
    let mut figures = Vec::new(alloc);
    write_comparison(&analysis.counts.need, &analysis.info, repeats, &mut figures)?;
    Ok(String::from_utf8_lossy(alloc, &figures)?)
}

/// Orders what a task has, counts the columns of the factor under the ordering, and makes the texts of that.
pub fn analysis_texts(alloc: Global, task: &Task, json: bool) -> Result<Texts, Cause>
    ensures { IfOk result (TellsAnalysis task.now json) }
{
    let analysis = analyze_task(alloc, task)?;
    let lines = column_texts(alloc, json, task.matrix.repeats, &analysis)?;
    let figures = if json {
        String::new(alloc)
    } else {
        comparison_figures(alloc, task.matrix.repeats, &analysis)?
    };
    Ok(Texts {
        lines,
        figures,
        factor: None,
        permuted: None,
        tree: None,
        postorder: None,
    })
}

/// The text of what a matrix is, and of what its factor needs where that is known.
pub fn facts_text(
    alloc: Global,
    json: bool,
    matrix: &Matrix<Global>,
    control: &Control,
    compared: Option<Comparison>,
) -> Result<Vec<u8>, Cause>
    ensures { IfOk result (λ text. TellsFacts json matrix.now.n control.now.dense matrix.now.a_p.items
        matrix.now.a_i.items matrix.now.source matrix.now.repeats compared text.items) }
{
    let facts = facts_of(alloc, matrix, control)?;
    let mut text = Vec::new(alloc);
    if json {
        write_facts_json(&facts, compared, &mut text)?;
        return Ok(text);
    }
    write_facts(&facts, &mut text)?;
    if let Some(compared) = compared {
        write_comparison_lines(compared, &mut text)?;
    }
    Ok(text)
}
