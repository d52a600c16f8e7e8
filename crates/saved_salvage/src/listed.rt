// The list of the kinds that were replaced.
ghost use Rattle.std.specs.Prelude.{◌≡◌, ◌+◌, ◌<◌, ◌≤◌, []};
ghost use Rattle.saved_salvage.specs.Listed.{listed_kinds_of, replaced_of};
ghost use Rattle.saved_salvage.specs.inner.Added.{added_of};

use crate::{Kept, ListedKinds};

// No kind.
pub fn none() -> ListedKinds
    ensures { result ≡ listed_kinds_of [] }
{
    ListedKinds {
        count: 0,
        kinds: [0u32; 6],
    }
}

// A list with a kind at its end, unless its body is kept.
fn added(list: ListedKinds, kind: u32, kept: bool) -> ListedKinds
    requires { list.count < 6 }
    ensures { (result ≡ added_of list kind kept) × (result.count ≤ list.count + 1) }
{
    if kept {
        return list;
    }
    let at = list.count as usize;
    let mut kinds = list.kinds;
    kinds[at] = kind;
    ListedKinds {
        count: list.count + 1,
        kinds,
    }
}

pub fn replaced(kept: Kept) -> ListedKinds
    ensures { result ≡ listed_kinds_of (replaced_of kept) }
{
    let one = added(none(), 1, kept.processor);
    let two = added(one, 2, kept.drawing);
    let three = added(two, 3, kept.wram);
    let four = added(three, 4, kept.vram);
    let five = added(four, 5, kept.pak);
    added(five, 6, kept.hardware)
}
