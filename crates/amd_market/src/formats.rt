// How the numbers of a Harwell-Boeing file stand on its lines.

ghost use Rattle.std.specs.Prelude.{◌<◌};

/// How numbers stand on lines.
#[derive(Clone, Copy)]
pub(crate) struct Fields {
    /// How many bytes stand before the first of them.
    pub(crate) skipped: usize,
    /// How many stand on a line.
    pub(crate) per_line: usize,
    /// How many bytes each of them has.
    pub(crate) width: usize,
    ghost some: { 0 < per_line },
    ghost wide: { 0 < width },
}

/// How pointers and rows stand on lines.
#[derive(Clone, Copy)]
pub(crate) struct Layout {
    /// The fields of the pointers.
    pub(crate) pointers: Fields,
    /// The fields of the rows.
    pub(crate) rows: Fields,
}
