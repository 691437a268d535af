// A page program: what goes beyond the page's end goes on at its start.
#![tactic(auto)]

ghost use Rattle.std.specs.Prelude.{◌≡◌, ◌≤◌, length};
ghost use Rattle.fold.specs.Fold.{page_after, folds};
ghost use Rattle.fold.specs.Strict.{over_old};

// Programs the bytes sent into a page from an offset on, and says whether a byte went past the page's end. Of more than 256 only the last 256 are
// looked at: they reach every offset.
pub fn program_page(page: &mut [u8], offset: u8, sent: &[u8]) -> bool
    requires { length page.old ≡ 256 }
    ensures { (page.new ≡ page_after offset sent.now page.old) × (result ≡ folds offset (length sent.now)) }
{
    if sent.len() <= 256 {
        return fold_in(page, offset, sent);
    }
    let first = sent.len() - 256;
    let end = first + 256;
    let turned = ((offset as usize + first) % 256) as u8;
    fold_in(page, turned, &sent[first..end]);
    true
}

// The same, of at most 256 bytes: a run to the page's end, and what goes beyond it from the page's start.
fn fold_in(page: &mut [u8], offset: u8, sent: &[u8]) -> bool
    requires { (length page.old ≡ 256) × (length sent.now ≤ 256) }
    ensures { (page.new ≡ page_after offset sent.now page.old) × (result ≡ folds offset (length sent.now)) }
{
    let start = offset as usize;
    let n = sent.len();
    let room = 256 - start;
    if n <= room {
        let end = start + n;
        cells::and_into(&mut page[start..end], sent);
        false
    } else {
        let end = start + room;
        let rest = n - room;
        let last = room + rest;
        cells::and_into(&mut page[start..end], &sent[0..room]);
        cells::and_into(&mut page[0..rest], &sent[room..last]);
        true
    }
}

// Whether a program of the bytes sent, from an offset on, would go over old data: some cell that they reach would not hold the byte that counts for it.
// Nothing is changed. Of more than 256 bytes only the last 256 are looked at, and of the page only the cells that these reach.
pub fn over_old(page: &[u8], offset: u8, sent: &[u8]) -> bool
    requires { length page.now ≡ 256 }
    ensures { result ≡ over_old offset sent.now page.now }
{
    let n = sent.len();
    if n <= 256 {
        return over_in(page, offset, sent);
    }
    let skipped = n - 256;
    let turned = ((offset as usize + skipped) % 256) as u8;
    over_in(page, turned, &sent[skipped..n])
}

// The same, of at most 256 bytes: those to the page's end, and what goes beyond it from the page's start.
fn over_in(page: &[u8], offset: u8, sent: &[u8]) -> bool
    requires { (length page.now ≡ 256) × (length sent.now ≤ 256) }
    ensures { result ≡ over_old offset sent.now page.now }
{
    let at = offset as usize;
    let n = sent.len();
    let room = 256 - at;
    if n <= room {
        let past = at + n;
        return !cells::holds(&page[at..past], sent);
    }
    let rest = n - room;
    let tail = cells::holds(&page[at..256], &sent[0..room]);
    let head = cells::holds(&page[0..rest], &sent[room..n]);
    !(tail & head)
}
