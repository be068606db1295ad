// The answer to one image, as text in a lent buffer.
#![tactic(auto)]

ghost use Rattle.std.specs.Prelude.{◌≡◌, ◌++◌, ◌+◌, ◌*◌, ◌/◌, ◌≤◌, length, take, drop, OnOk};
ghost use Rattle.std.specs.Io.KnownBytes.{Appends};
ghost use Rattle.meaning.specs.Image.{image_of, collection_of, lines_of, printed};
ghost use Rattle.image.specs.Judging.{table_of, Fitting};
ghost use Rattle.meaning.specs.Text.{refused_line};
ghost use Rattle.text.specs.Placed.{Placed};
ghost use Rattle.refusals.specs.Paper.{number_of, place_of};
ghost use Rattle.report.specs.Reports.{most_blocks, most_text, marks_after, Reports};

use image::{Contents, MOST_BLOCKS, MOST_ROOTS, MOST_STEPS, MOST_WORDS};
use refusals::Refusal;
use std::io;
use std::io::Write;

// The longest text: three lines, with ten digits and a space for each heap word and each root.
pub const MOST_TEXT: usize = 66 + 11 * MOST_WORDS + 11 * MOST_ROOTS;

// The line of a refusal.
fn put_refusal(out: &mut [u8], refusal: Refusal) -> usize
    requires { 33 ≤ length out.old }
    ensures { Placed out.old out.new 0 (refused_line (number_of refusal) (place_of refusal)) 33 result }
{
    text::put_refused(out, refusal.number(), refusal.place())
}

// The report on an accepted image; its marks go to the start of the bitmap lent.
fn put_image(bytes: &[u8], contents: Contents, marks: &mut [u64], out: &mut [u8]) -> usize
    requires { Fitting bytes.now (table_of contents) × (most_blocks ≤ length marks.old) × (most_text ≤ length out.old) }
    ensures { let c = collection_of (image_of bytes.now (table_of contents)) in
        Reports (lines_of c) (c.marks ++ drop (contents.marks.length / 2) marks.old) marks.new out.old out.new result }
{
    let blocks = contents.marks.length as usize / 2;
    let mut heap = [0u32; MOST_WORDS];
    let mut roots = [0u32; MOST_ROOTS];
    let mut order = [0u32; MOST_STEPS];
    let mut live = [0u64; MOST_BLOCKS];
    let mut offsets = [0u32; MOST_BLOCKS];
    let heap = &mut heap[..contents.heap.length as usize];
    let roots = &mut roots[..contents.roots.length as usize];
    let marks = &mut marks[..blocks];
    let order = &mut order[..contents.order.length as usize];
    image::copy(bytes, contents.heap.start as usize, heap);
    image::copy(bytes, contents.roots.start as usize, roots);
    image::copy(bytes, contents.marks.start as usize, marks);
    image::copy(bytes, contents.order.start as usize, order);
    let live = &mut live[..blocks];
    let offsets = &mut offsets[..blocks];
    match compactor::collect(heap, contents.top, roots, marks, order, live, offsets) {
        Err(refused) => put_refusal(out, refused),
        Ok(totals) => text::put_collected(
            out,
            totals.top,
            totals.objects,
            totals.blocks,
            heap,
            roots,
        ),
    }
}

// Judges an image, collects with its marks in the bitmap, and puts what is to be printed at the start of `out`; answers its
// length, since nothing allocates.
pub fn answer(bytes: &[u8], marks: &mut [u64; MOST_BLOCKS], out: &mut [u8; MOST_TEXT]) -> usize
    ensures within { (result ≤ length out.new) × (result ≡ length (take result out.new)) }
    ensures reports { Reports (printed bytes.now) (marks_after bytes.now marks.old)
        marks.new out.old out.new result }
{
    match image::judge(bytes) {
        Err(refusal) => put_refusal(out, refusal),
        Ok(contents) => put_image(bytes, contents, marks, out),
    }
}

// The same, written to a writer.
pub fn write_answer<W: Write>(
    bytes: &[u8],
    marks: &mut [u64; MOST_BLOCKS],
    writer: &mut W,
) -> io::Result<()>
    ensures text { OnOk result (Appends (W.contents writer.old) (W.contents writer.new) (printed bytes.now)) }
    ensures marks { marks.new ≡ marks_after bytes.now marks.old }
{
    let mut out = [0u8; MOST_TEXT];
    let n = answer(bytes, marks, &mut out);
    writer.write_all(&out[..n])
}
