// The sixteen iterations on the two halves of a block, each expanded, without the permutations before and after them.
ghost use Rattle.std.specs.Prelude.{◌≡◌};
ghost use Rattle.fast_des.specs.Inside.{Rounds, Iterates, Passes, Each};

use crate::Halves;
use crate::selection::substitute;
use des::iteration::turn;

// One iteration.
fn round(h: Halves, k: u64) -> Halves
    ensures { Rounds h k result }
{
    Halves {
        left: h.right,
        right: h.left ^ substitute(h.right ^ k),
    }
}

// The sixteen iterations on blocks side by side, which a processor works on at once: some with some keys, the last with others.
// Four parameters in four functions: `iterations` takes them apart at once, and each contract names each.
fn iterations<const N: usize>(
    blocks: [Halves; N],
    keys: &[u64; 16],
    last: Halves,
    others: &[u64; 16],
    back: bool,
) -> ([Halves; N], Halves)
    ensures { Each (λ h r. Iterates h keys.now back 16 r) blocks.entry result.0 × Iterates last others.now back 16 result.1 }
{
    let mut s = blocks;
    let mut t = last;
    for n in 0..16 {
        let at = turn(back, n);
        for i in 0..N {
            s[i] = round(s[i], keys[at]);
        }
        t = round(t, others[at]);
    }
    (s, t)
}

// The halves exchanged.
fn exchange(h: Halves) -> Halves
    ensures { (result.left ≡ h.right) × (result.right ≡ h.left) }
{
    Halves {
        left: h.right,
        right: h.left,
    }
}

// The sixteen iterations, and the halves exchanged.
pub fn pass<const N: usize>(
    blocks: [Halves; N],
    keys: &[u64; 16],
    last: Halves,
    others: &[u64; 16],
    back: bool,
) -> ([Halves; N], Halves)
    ensures { Each (λ h r. Passes h keys.now back r) blocks.entry result.0 × Passes last others.now back result.1 }
{
    let (mut s, t) = iterations(blocks, keys, last, others, back);
    for i in 0..N {
        s[i] = exchange(s[i]);
    }
    (s, exchange(t))
}
