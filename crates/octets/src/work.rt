//! Work in steps, and the streams that mask bytes. A hash whose steps a stream does in its own loop is interleaved with it.

ghost use Rattle.std.specs.Prelude.{◌≡◌, ⊤, ℕ, ◌*◌, ◌/◌, ◌%◌, ◌<◌, ◌≤◌, List, [], ◌++◌, length};
ghost use Rattle.octets.specs.Ends.{IsEnd};

/// Work in small steps. Other code does a step wherever the processor has room for one. It is `Copy` so that a loop can step
/// a local copy, which stays in registers.
pub trait Work: Copy {
    // The first becomes the second by some of its steps.
    ghost reaches: { Self → Self → Type 0 };

    /// Does one step unless at most `reserve` are left: a loop with a reserve at every second place spreads the steps
    /// evenly. No contract counts steps: the owner of the work does the steps that are left.
    fn step(&mut self, reserve: usize)
        ensures { (start : Self) → reaches start self.old → reaches start self.new };
}

/// Work without steps. Its step still compiles to a branch, as that of other work does, and LLVM can't tell that the branch is
/// never taken: so the code before a step stays apart from the code after it.
#[derive(Clone, Copy)]
pub struct Idle<'a> {
    // The work after the next step: there never is one.
    next: Option<&'a Idle<'a>>,
}

impl<'a> Idle<'a> {
    /// Makes work without steps.
    pub fn new() -> Idle<'a> {
        Idle { next: None }
    }
}

impl<'a> Work for Idle<'a> {
    ghost reaches = { λ a b. ⊤ };

    #[inline(always)]
    fn step(&mut self, _reserve: usize) {
        if let Some(next) = self.next {
            *self = *next;
        }
    }
}

/// A hash that takes in the blocks of a text in steps, 16 bytes in each. Its caller hands the bytes on, and may change those
/// that were taken in.
pub trait BlockWork: Copy {
    // Once it has taken in a list of bytes too, it has taken in this text under this key.
    ghost comes_to: { Self → (left key text : List ℕ) → Type 0 };

    /// Takes in the first block of `left`, unless it has at most `reserve` blocks, and returns the bytes after the block.
    fn step<'t>(&mut self, left: &'t [u8], reserve: usize) -> &'t [u8]
        ensures end { IsEnd result.now left.now }
        ensures progress { reserve ≡ 0 → 16 ≤ length left.now → length result.now < length left.now }
        ensures comes_to { (k m : List ℕ) → comes_to self.old left.now k m
            → comes_to self.new result.now k m };

    /// Takes in all blocks of `left`, of which there may be none.
    fn take_all(&mut self, left: &[u8])
        requires { length left.now % 16 ≡ 0 }
        ensures { (k m : List ℕ) → comes_to self.old left.now k m → comes_to self.new [] k m }
    {
        let mut rest = left;
        'steps: while !rest.is_empty() {
            rest = self.step(rest, 0);
        }
    }

    // A text may grow while some of it is left.
    ghost grows: { (w : Self) (left more k m : List ℕ) → comes_to w left k m
        → comes_to w (left ++ more) k (m ++ more) };
}

/// A hash with the bytes that it takes in next: work for other code.
#[derive(Clone, Copy)]
pub struct Interleaved<'t, W> {
    pub hash: W,
    pub left: &'t [u8],
}

impl<'t, W: BlockWork> Work for Interleaved<'t, W> {
    ghost reaches = { λ a b. IsEnd b.left.now a.left.now
        × ((k m : List ℕ) → W.comes_to a.hash a.left.now k m → W.comes_to b.hash b.left.now k m) };

    #[inline(always)]
    fn step(&mut self, reserve: usize) {
        self.left = self.hash.step(self.left, reserve);
    }
}

/// A stream of bytes that is XORed into pieces of any length.
pub trait Stream {
    // The effect of a call, as a relation of the stream before and after it and the bytes before and after it.
    ghost did: { Self → Self → List ℕ → List ℕ → Type 0 };

    /// XORs the next bytes of the stream into `bytes`.
    fn apply_next(&mut self, bytes: &mut [u8])
        ensures { did self.old self.new bytes.old bytes.new };
}
