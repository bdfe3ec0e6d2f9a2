//! Which lines of a table can have keys in a range: where the keys rise they stand together, and are looked for by halves.
ghost use Rattle.std.specs.Prelude.{◌≡◌, ◌≤◌, drop, int_lt, length, map, take, true};
ghost use Rattle.std.specs.List.{flat_map, list_all};
ghost use Rattle.acn_grammar.specs.Images as images;
ghost use Rattle.acn_grammar.specs.Leaves as leaves;
ghost use Rattle.acn_leaf.specs.Neighbours.{neighbours_differ};
ghost use Rattle.acn_leaf.specs.Sides as spec;
ghost use Rattle.acn_leaf.specs.declared.line_blocks.Side.TheVariants.{Keys};

// Whether the keys of the line end before the number.
fn ends_before(line: &(i128, i128, i128), x: &i128) -> bool
    ensures { result ≡ int_lt line.now.1 x.now }
{
    line.1 < *x
}

// Whether the keys of the line begin behind the number.
fn begins_behind(line: &(i128, i128, i128), x: &i128) -> bool
    ensures { result ≡ int_lt x.now line.now.0 }
{
    *x < line.0
}

// How many lines at the front end before the number.
fn lines_before(lines: &[(i128, i128, i128)], x: &i128) -> usize
    requires fine { list_all leaves.line_fine lines.now ≡ true }
    requires rising { neighbours_differ spec.reaches (map (spec.range_of Keys) lines.now) ≡ true }
    ensures within { result ≤ length lines.now }
    ensures before { list_all (λ line. int_lt line.1 x.now) (take result lines.now) ≡ true }
{
    let mut low = 0;
    let mut high = lines.len();
    while low < high {
        let middle = low + (high - low) / 2;
        if ends_before(&lines[middle], x) {
            low = middle + 1;
        } else {
            high = middle;
        }
    }
    low
}

// At which place the lines begin that begin behind the number.
fn first_behind(lines: &[(i128, i128, i128)], x: &i128) -> usize
    requires fine { list_all leaves.line_fine lines.now ≡ true }
    requires rising { neighbours_differ spec.reaches (map (spec.range_of Keys) lines.now) ≡ true }
    ensures within { result ≤ length lines.now }
    ensures behind { list_all (λ line. int_lt x.now line.0) (drop result lines.now) ≡ true }
{
    let mut low = 0;
    let mut high = lines.len();
    while low < high {
        let middle = low + (high - low) / 2;
        if begins_behind(&lines[middle], x) {
            high = middle;
        } else {
            low = middle + 1;
        }
    }
    high
}

/// The lines that can have keys in the range. `rise` says that the keys of each line end before those of the next begin.
pub fn near<'a>(
    rise: bool,
    range: &(i128, i128),
    lines: &'a [(i128, i128, i128)],
) -> &'a [(i128, i128, i128)]
    requires fine { list_all leaves.line_fine lines.now ≡ true }
    requires rising { rise ≡ neighbours_differ spec.reaches (map (spec.range_of Keys) lines.now) }
    ensures fine { list_all leaves.line_fine result.now ≡ true }
    ensures images { flat_map (images.clipped range.now) result.now ≡ flat_map (images.clipped range.now) lines.now }
{
    if !rise {
        return lines;
    }
    let end = first_behind(lines, &range.1);
    let start = lines_before(lines, &range.0).min(end);
    &lines[start..end]
}
