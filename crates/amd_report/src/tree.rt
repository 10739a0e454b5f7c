// The text of an elimination tree: the number of the parent of each column in a line, from 1 on, 0 for a root. Columns
// are numbered as they are eliminated. And the lines of the supernodes that the tree is cut into.

ghost use Rattle.std.specs.Prelude.{◌≡◌, OnOk, length, slice_index};
ghost use Rattle.std.specs.Io.KnownBytes.{Appends};
ghost use Rattle.amd_report.specs.Texts.{supernode_lines, tree_lines, tree_number};

use crate::factor_text::parent_at;
use std::io;
use std::io::Write;

/// The number of a parent, from 1 on; 0 where there is none.
fn tree_number(parent: Option<usize>) -> u128
    ensures { result ≡ tree_number parent }
{
    match parent {
        Some(column) => column as u128 + 1,
        None => 0,
    }
}

/// Writes the number of the parent of each column, a line for each.
///
/// # Errors
///
/// The writer's, of the first write that fails. What was written before stays written.
pub fn write_tree<W: Write>(parents: &[Option<usize>], out: &mut W) -> io::Result<()>
    ensures { OnOk result (Appends (W.contents out.old) (W.contents out.new) (tree_lines parents.now)) }
{
    'columns: for &parent in parents {
        let number = tree_number(parent);
        writeln!(out, "{number}")?;
    }
    Ok(())
}

/// What a list has at place `k`; 0 where it has nothing there.
fn number_at(list: &[usize], k: usize) -> usize
    ensures { result ≡ slice_index list.now k }
{
    list.get(k).copied().unwrap_or(0)
}

/// Writes a line for each supernode: its first and its last column, the number of its parent, or 0 where it has none,
/// and how many rows its columns have below its block. Columns and supernodes count from 1. `first` and `ptr` say where
/// the columns and the rows of each begin, and have one place more, where they end.
///
/// # Errors
///
/// The writer's, of the first write that fails. What was written before stays written.
pub fn write_supernodes<W: Write>(
    first: &[usize],
    ptr: &[usize],
    parents: &[Option<usize>],
    out: &mut W,
) -> io::Result<()>
    ensures { OnOk result (Appends (W.contents out.old) (W.contents out.new)
        (supernode_lines first.now ptr.now parents.now (length parents.now))) }
{
    'supernodes: for s in 0..parents.len() {
        let begin = number_at(first, s) as u128 + 1;
        let last = number_at(first, s + 1);
        let parent = tree_number(parent_at(parents, s));
        let rows = number_at(ptr, s + 1).saturating_sub(number_at(ptr, s));
        writeln!(out, "{begin} {last} {parent} {rows}")?;
    }
    Ok(())
}
