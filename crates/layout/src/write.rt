// The lines, written into a buffer that has room for them.
ghost use Rattle.std.specs.Prelude.{◌≡◌, ◌+◌, ◌*◌, ◌^◌, ◌≤◌, ◌<◌, length};
ghost use Rattle.placement.specs.Entries.{ranks_of};
ghost use Rattle.placement.specs.Layout.{layout_in, stripes};
ghost use Rattle.layout.specs.Text.{first_line, stripe_line, lines_from, refused_line};
ghost use Rattle.layout.specs.Calls.{line_room};
ghost use Rattle.layout.specs.inner.Steps.{Fits, Wrote, Begins};

use crate::pen::Pen;
use design::Shelf;
use placement::unchecked::PerEntry;
use placement::{Checked, unchecked};

pub fn refused(out: &mut [u8], number: usize) -> usize
    requires { line_room ≤ length out.old }
    ensures { Begins out.old (refused_line number) result out.new }
{
    let mut pen = Pen::new(out);
    pen.bytes(b"refused");
    pen.spaced(number);
    pen.line_end();
    pen.at
}

pub fn first(out: &mut [u8], checked: Checked) -> usize
    requires { line_room ≤ length out.old }
    ensures { Begins out.old (first_line checked.entry.shelf.now) result out.new }
{
    let Shelf {
        v,
        k,
        b,
        r,
        lambda,
        T,
        u,
        ..
    } = *checked.shelf;
    let mut pen = Pen::new(out);
    pen.number(v);
    for n in [k, b, r, lambda, T, 1 << u] {
        pen.spaced(n);
    }
    pen.line_end();
    pen.at
}

// A shelf and the ranks of its entries, which are counted once: a line costs its own places only.
#[derive(Drop)]
pub struct Rows<'a> {
    checked: Checked<'a>,
    ranks: PerEntry,
    ghost ranked: { ranks ≡ ranks_of checked.shelf.now.table (checked.shelf.now.b * checked.shelf.now.k) },
}

impl<'a> Rows<'a> {
    ghost use Rattle.layout.specs.inner.Entry.{entry_word};

    pub fn of(checked: Checked<'a>) -> Rows<'a>
        ensures { result.checked.shelf.now ≡ checked.entry.shelf.now }
    {
        let ranks = checked.ranks();
        Rows { checked, ranks }
    }

    // The place of an entry of the table, `base` units being before those of its copy.
    fn place(&self, pen: &mut Pen, base: usize, entry: usize)
        requires fits { Fits pen.old (entry_word self.now base entry) }
        requires bounds { (base < 2 ^ 40) × (entry < 2048) }
        ensures { Wrote pen.old (entry_word self.now base entry) pen.new }
    {
        pen.spaced(usize::from(self.checked.shelf.table[entry]));
        pen.byte(b':');
        pen.number(base + usize::from(self.ranks[entry]));
    }

    // The line of stripe s.
    fn line(&self, pen: &mut Pen, s: usize)
        requires fits { Fits pen.old (stripe_line (layout_in self.now.checked.shelf.now) s) }
        requires below { s < stripes (layout_in self.now.checked.shelf.now) }
        ensures { Wrote pen.old (stripe_line (layout_in self.now.checked.shelf.now) s) pen.new }
    {
        let Shelf { k, b, r, .. } = *self.checked.shelf;
        let split = unchecked::split_of(k, b, s);
        let row = split.tuple * k;
        let base = split.full_table * r * k + split.copy * r;
        pen.number(s);
        self.place(pen, base, row + split.parity);
        for j in 0..k - 1 {
            self.place(pen, base, row + unchecked::position_of(split.parity, j));
        }
        pen.line_end();
    }

    // The lines of n stripes.
    pub fn lines(&self, out: &mut [u8], first: usize, n: usize) -> usize
        requires { (first + n ≤ stripes (layout_in self.now.checked.shelf.now)) × (n * line_room ≤ length out.old) }
        ensures { Begins out.old (lines_from (layout_in self.now.checked.shelf.now) first n) result out.new }
    {
        let mut pen = Pen::new(out);
        for s in first..first + n {
            self.line(&mut pen, s);
        }
        pen.at
    }
}
