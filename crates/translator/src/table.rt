// The whole sequential table: bodies, records, sizes, trailer.
ghost use Rattle.std.specs.Prelude.{◌≡◌, ◌∷◌, ◌^◌, ◌≤◌, ◌<◌, length, replicate};
ghost use Rattle.value.specs.Values.{bytes};
ghost use Rattle.format.specs.Encode.{each};
ghost use Rattle.format.specs.Rules.{max_labels};
ghost use Rattle.writer.specs.Laws.Pages.{Puts};
ghost use Rattle.translator.specs.Laws.Tables.{HeadOf, HeadsOf, SizesOf, MiddleOf, CodeOf, Trails, WholeOf, TableOf};

use basics::numbers::{
    BOUNDS, FAR, FORM_MARK, LABELS, MAP, NODE, RECORD, SEQUENTIAL_MARK, SIZE, TRAILER,
};
use emit::exprs::moved;
use emit::layout::{Shape, locals_of, rows_of};
use labels::label_map::PROCEDURE;
use simulation::simulate::put_bodies;
use writer::page::Page;
use zeroth::procedure::put_zeroth;

// "parameters, locals, body offset (4)"
fn put_head(out: &mut Page, params: u8, locals: u8, offset: usize)
    ensures { Puts out.old (params ∷ locals ∷ bytes 4 offset) out.new }
{
    out.put_all(&[params, locals]);
    out.put_four(offset);
}

// The record of the procedure of label k + 1: "it has parameter tid = 0, then tmp = 1, aux = 2, and local i as 3+i".
fn put_label_head(
    t: &[u8],
    shape: Shape,
    map: &[usize; MAP],
    offsets: &[u32; LABELS],
    k: usize,
    out: &mut Page,
)
    requires { k < max_labels }
    ensures { HeadOf t.now shape map.now offsets.now k out.old out.new }
{
    let label = k + 1;
    let locals = locals_of(t, shape, map[NODE * label + PROCEDURE]);
    put_head(out, 1, moved(locals), offsets[k] as usize);
}

// The records of all labels' procedures.
fn put_heads(t: &[u8], shape: Shape, map: &[usize; MAP], offsets: &[u32; LABELS], out: &mut Page)
    requires { shape.labels ≤ max_labels }
    ensures { HeadsOf t.now shape map.now offsets.now out.old out.new }
{
    for k in 0..usize::from(shape.labels) {
        put_label_head(t, shape, map, offsets, k, out);
    }
}

// One size, n times.
fn put_rows(n: usize, size: usize, out: &mut Page)
    ensures { Puts out.old (each (bytes 2) (replicate n size)) out.new }
{
    for _ in 0..n {
        out.put_two(size);
    }
}

// The source's sizes, "ptid (size 1)", and the others, "size T each".
fn put_sizes(t: &[u8], shape: Shape, out: &mut Page)
    ensures { SizesOf t.now shape out.old out.new }
{
    let from = usize::from(shape.records) + RECORD * usize::from(shape.procedures);
    let until = from + SIZE * usize::from(shape.locations);
    if t.len() < until {
        return;
    }
    out.put_all(&t[from..until]);
    out.put_two(1);
    put_rows(rows_of(shape), usize::from(shape.threads), out);
}

// Records and sizes.
fn put_middle(t: &[u8], shape: Shape, map: &[usize; MAP], offsets: &[u32; LABELS], out: &mut Page)
    requires { shape.labels ≤ max_labels }
    ensures { MiddleOf t.now shape map.now offsets.now out.old out.new }
{
    put_head(out, 0, 4, 0);
    put_heads(t, shape, map, offsets, out);
    put_sizes(t, shape, out);
}

// The bodies of all procedures, and where each of them but the first begins.
fn put_code(
    t: &[u8],
    shape: Shape,
    map: &[usize; MAP],
    bounds: &[usize; BOUNDS],
    offsets: &mut [u32; LABELS],
    out: &mut Page,
)
    requires { (shape.labels ≤ max_labels) × (length offsets.old ≡ max_labels) }
    ensures { CodeOf t.now shape map.now bounds.now offsets.new
        out.old out.new }
{
    put_zeroth(t, shape, bounds, out);
    put_bodies(t, shape, map, bounds, offsets, out);
}

// "Last a 16-byte trailer": "procedures P, locations M, threads T (2 each)", "the distance from the trailer back to the procedure records (4);
// the whole length (4)"; "Sequential tables have T = 0"
fn put_trailer(procedures: usize, locations: usize, whole: usize, out: &mut Page)
    requires { (procedures ≤ 2 ^ 16) × (locations ≤ 2 ^ 25) }
    ensures { Trails procedures locations whole out.old out.new }
{
    out.put_all(&[SEQUENTIAL_MARK, FORM_MARK]);
    out.put_two(procedures);
    out.put_two(locations);
    out.put_two(0);
    out.put_four(RECORD * procedures + SIZE * locations);
    out.put_four(whole);
}

// All of it. Where it is too long, the rest is not even counted.
fn put_whole(t: &[u8], shape: Shape, map: &[usize; MAP], bounds: &[usize; BOUNDS], out: &mut Page)
    requires { shape.labels ≤ max_labels }
    ensures { WholeOf t.now shape map.now bounds.now out.old out.new }
{
    let mut offsets = [0u32; LABELS];
    put_code(t, shape, map, bounds, &mut offsets, out);
    if FAR <= out.at() {
        return;
    }
    put_middle(t, shape, map, &offsets, out);
    let length = out.at();
    if FAR <= length {
        return;
    }
    let locations = usize::from(shape.locations) + 1 + rows_of(shape);
    put_trailer(
        usize::from(shape.labels) + 1,
        locations,
        length + TRAILER,
        out,
    );
}

// The table of the copy, from byte 0 on: its length.
pub fn put_table(
    t: &[u8],
    shape: Shape,
    map: &[usize; MAP],
    bounds: &[usize; BOUNDS],
    out: &mut [u8],
) -> usize
    requires { shape.labels ≤ max_labels }
    ensures { TableOf t.now shape map.now bounds.now out.old out.new result }
{
    let mut page = Page::new(out);
    put_whole(t, shape, map, bounds, &mut page);
    page.at()
}
