//! Caches as a chart: misses by size.
ghost use Rattle.std.specs.Prelude.{◌≡◌, ◌≤◌, ◌*◌, ◌==◌, ◌&&◌};

use super::study::{CacheRow, Study};
use lab_terms::{Geometry, SHIPPED_CACHE};
use lab_writer::Writer;
use std::alloc::{AllocError, Global};

/// The sizes on the chart, in words.
static SIZES: [u64; 5] = [128, 256, 512, 1024, 2048];

/// The numbers of ways, each a curve.
static WAYS: [u32; 4] = [1, 2, 4, 8];

/// How far the lines across may be from each other, in hundredths of a per cent.
static STEPS: [u64; 10] = [1, 2, 5, 10, 20, 50, 100, 200, 500, 1_000];

/// The greatest such distance, which fits all shares.
const LAST_STEP: u64 = 2_000;

/// So many lines go across the plane at most, beside the lowest.
const LINES: u64 = 5;

/// Where the plane of the chart begins, from the left.
const LEFT: u64 = 70;

/// The same from above.
const TOP: u64 = 40;

/// How wide the plane is.
const WIDTH: u64 = 480;

/// How high it is.
const HEIGHT: u64 = 280;

/// The least distance of two labels of curves.
const LABEL: u64 = 15;

const HEAD: &str =
    r#"<svg xmlns="http://www.w3.org/2000/svg" viewBox="0 0 640 390" font-family="sans-serif" font-size="12">
<title>Misses by the size of the cache</title>
<style>text{fill:#222}.b{fill:#fff}.g{stroke:#ccc}.o{stroke:#222}.w1{color:#b4442f}.w2{color:#8f6400}.w4{color:#3d7f4f}.w8{color:#2f62a8}
.w1,.w2,.w4,.w8{fill:none;stroke:currentColor}text.w1,text.w2,text.w4,text.w8{fill:currentColor;stroke:none}
@media(prefers-color-scheme:dark){text{fill:#ececec}.b{fill:#16181b}.g{stroke:#474b50}.o{stroke:#ececec}.w1{color:#f08d79}.w2{color:#e5b04c}.w4{color:#7fce92}.w8{color:#86b4f2}}</style>
<rect class="b" width="640" height="390"/>
<text x="70" y="22" font-size="14">Misses in per cent of the fetches, by words of the cache</text>
"#;

/// The lines across the plane: their distance in hundredths of a per cent, and how many there are beside the lowest.
#[derive(Clone, Copy)]
struct Scale {
    step: u64,
    lines: u64,
}

// The distance of the lines across where this is the greatest share: the least of the round ones with which a few reach it.
fn step_for(most: u64) -> u64
    ensures { most ≤ 10000 → most ≤ 5 * result }
{
    for step in &STEPS {
        if most <= step.saturating_mul(LINES) {
            return *step;
        }
    }
    LAST_STEP
}

impl Scale {
    // The lines across up to the first that is not below the greatest share.
    fn to(most: u64) -> Scale {
        let step = step_for(most);
        let below = most.saturating_sub(1).checked_div(step).unwrap_or(0);
        Scale {
            step,
            lines: below.saturating_add(1),
        }
    }

    // How far down a share stands.
    fn down(self, part: u64) -> u64 {
        let top = self.step.saturating_mul(self.lines);
        let up = part.saturating_mul(HEIGHT).checked_div(top).unwrap_or(0);
        TOP.saturating_add(HEIGHT.saturating_sub(up))
    }
}

// How far to the right a size stands.
fn across(index: u64) -> u64 {
    LEFT.saturating_add(index.saturating_mul(WIDTH) / 4)
}

// Misses in hundredths of a per cent of the fetches.
fn share(misses: u64, fetches: u64) -> u64 {
    misses
        .saturating_mul(10_000)
        .checked_div(fetches)
        .unwrap_or(0)
}

// Whether two caches have lines alike, of which a miss brings as many words.
fn are_alike(one: Geometry, other: Geometry) -> bool
    ensures { result ≡ (one.line == other.line && one.brings == other.brings) }
{
    one.line == other.line && one.brings == other.brings
}

// The rows of the caches that were asked for, whose lines are alike. The machine's own cache stands before them where its are
// others, and is no point of a curve then.
fn asked(rows: &[CacheRow]) -> &[CacheRow] {
    match rows {
        [own, .., last] if are_alike(own.geometry, last.geometry) => rows,
        [_, rest @ ..] => rest,
        [] => rows,
    }
}

// The share of the cache of a size and a number of ways, if it was looked at.
fn share_of(rows: &[CacheRow], fetches: u64, size: u64, ways: u32) -> Option<u64> {
    for row in rows {
        if row.geometry.words() == size && row.geometry.ways == ways {
            return Some(share(row.misses, fetches));
        }
    }
    None
}

// Appends a share, with no more places behind the point than the distance of the lines has.
fn push_share(svg: &mut Writer, share: u64, step: u64) {
    let (ones, rest) = (share / 100, share % 100);
    svg.push_number(ones);
    if step % 100 == 0 {
        svg.push('%');
    } else if step % 10 == 0 {
        let tenths = rest / 10;
        write!(svg, ".{tenths}%");
    } else {
        write!(svg, ".{rest:02}%");
    }
}

// Appends the line across for a share, and what it stands for.
fn push_line(svg: &mut Writer, scale: Scale, part: u64) {
    let y = scale.down(part);
    svg.push_numbers(
        &["<path class=\"g\" d=\"M", " ", "H", "\"/>\n"],
        &[LEFT, y, LEFT.saturating_add(WIDTH)],
    );
    svg.push_numbers(
        &["<text x=\"62\" y=\"", "\" text-anchor=\"end\">"],
        &[y.saturating_add(4)],
    );
    push_share(svg, part, scale.step);
    svg.push_str("</text>\n");
}

// Appends the lines across.
fn push_lines(svg: &mut Writer, scale: Scale) {
    for line in 0..=scale.lines {
        push_line(svg, scale, scale.step.saturating_mul(line));
    }
}

// Appends the sizes.
fn push_sizes(svg: &mut Writer) {
    for (index, size) in SIZES.iter().enumerate() {
        svg.push_numbers(
            &[
                "<text x=\"",
                "\" y=\"342\" text-anchor=\"middle\">",
                "</text>\n",
            ],
            &[across(index as u64), *size],
        );
    }
}

// Appends the points of the curve of a number of ways; answers the place of the last.
fn push_points(svg: &mut Writer, study: &Study, scale: Scale, ways: u32) -> Option<(u64, u64)> {
    let rows = asked(study.rows.as_slice());
    let mut last = None;
    for (index, size) in SIZES.iter().enumerate() {
        if let Some(part) = share_of(rows, study.counts.fetches, *size, ways) {
            let (x, y) = (across(index as u64), scale.down(part));
            svg.push_numbers(&["", ",", " "], &[x, y]);
            last = Some((x, y));
        }
    }
    last
}

// Appends the curve of a number of ways; answers where it ends.
fn push_curve(svg: &mut Writer, study: &Study, scale: Scale, ways: u32) -> Option<(u64, u64)> {
    svg.push_numbers(
        &["<polyline class=\"w", "\" stroke-width=\"2\" points=\""],
        &[u64::from(ways)],
    );
    let end = push_points(svg, study, scale, ways);
    svg.push_str("\"/>\n");
    end
}

/// Where a curve ends, and its label.
#[derive(Clone, Copy)]
struct End {
    ways: u32,
    x: u64,
    y: u64,
    label: u64,
}

// Moves labels down that would touch the one above.
fn move_down(ends: &mut [End]) {
    let mut least = TOP;
    for end in ends.iter_mut() {
        end.label = end.y.max(least);
        least = end.label.saturating_add(LABEL);
    }
}

// Moves labels up that would touch the one below or leave the plane, the lowest first.
fn move_up(ends: &mut [End]) {
    let mut most = TOP + HEIGHT;
    for end in ends.iter_mut().rev() {
        end.label = end.label.min(most);
        most = end.label.saturating_sub(LABEL);
    }
}

// Appends the label of a curve, and a line from the curve's end to it.
fn push_label(svg: &mut Writer, end: &End) {
    let ways = u64::from(end.ways);
    svg.push_numbers(
        &["<path class=\"w", "\" d=\"M", " ", "L566 ", "\"/>\n"],
        &[ways, end.x, end.y, end.label],
    );
    svg.push_numbers(
        &["<text class=\"w", "\" x=\"570\" y=\"", "\">", ""],
        &[ways, end.label.saturating_add(4), ways],
    );
    svg.push_str(if ways == 1 {
        " way</text>\n"
    } else {
        " ways</text>\n"
    });
}

// Appends the curves; answers where they end, from above.
fn push_curves(svg: &mut Writer, study: &Study, scale: Scale) -> Result<Vec<End>, AllocError> {
    let mut ends = Vec::new(svg.alloc());
    for ways in &WAYS {
        if let Some((x, y)) = push_curve(svg, study, scale, *ways) {
            ends.push(End {
                ways: *ways,
                x,
                y,
                label: y,
            })?;
        }
    }
    ends.sort_by_key(|end| end.y)?;
    Ok(ends)
}

// Appends the labels of curves that end there.
fn push_labels(svg: &mut Writer, ends: Result<Vec<End>, AllocError>) {
    let Some(mut ends) = svg.take(ends) else {
        return;
    };
    move_down(ends.as_mut_slice());
    move_up(ends.as_mut_slice());
    for end in ends.iter() {
        push_label(svg, end);
    }
}

// Appends a ring at the machine's own cache, and what it is.
fn push_own(svg: &mut Writer, study: &Study, scale: Scale) {
    let Some(part) = own_share(study) else {
        return;
    };
    let place = SIZES
        .iter()
        .position(|size| *size == SHIPPED_CACHE.words())
        .unwrap_or(0);
    svg.push_numbers(
        &[
            "<g class=\"o\" fill=\"none\" stroke-width=\"2\"><circle cx=\"",
            "\" cy=\"",
            "\" r=\"6\"/><circle cx=\"76\" cy=\"370\" r=\"6\"/></g>\n",
        ],
        &[across(place as u64), scale.down(part)],
    );
    svg.push_numbers(
        &[
            "<text x=\"90\" y=\"374\">the machine's own cache: ",
            " words, ",
            " ways, ",
        ],
        &[SHIPPED_CACHE.words(), u64::from(SHIPPED_CACHE.ways)],
    );
    push_share(svg, part, 1);
    svg.push_str("</text>\n");
}

// The share of the machine's own cache.
fn own_share(study: &Study) -> Option<u64> {
    for row in study.rows.iter() {
        if row.geometry == SHIPPED_CACHE {
            return Some(share(row.misses, study.counts.fetches));
        }
    }
    None
}

// The greatest share on the chart, at least a hundredth of a per cent.
fn greatest(study: &Study) -> u64 {
    let mut most = own_share(study).unwrap_or(0).max(1);
    for row in asked(study.rows.as_slice()) {
        most = most.max(share(row.misses, study.counts.fetches));
    }
    most
}

/// Caches as a chart in SVG: of each number of ways the misses in per cent of the fetches, by the size of the cache.
pub fn caches_svg(alloc: Global, study: &Study) -> Result<Vec<u8>, AllocError> {
    let mut svg = Writer::new(alloc);
    let scale = Scale::to(greatest(study));
    svg.push_str(HEAD);
    push_lines(&mut svg, scale);
    push_sizes(&mut svg);
    let ends = push_curves(&mut svg, study, scale);
    push_labels(&mut svg, ends);
    push_own(&mut svg, study, scale);
    svg.push_str("</svg>\n");
    svg.into_bytes()
}
