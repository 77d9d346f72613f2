//! Contexts of communicators (MPI 4.0, 3.2.3 and 7.2.2).
ghost use Rattle.std.specs.Prelude.{◌≡◌, ◌<◌, ◌≤◌, ◌+◌, ◌^◌, MatchOption};
ghost use Rattle.ulfm_base.specs.Context.{block_of, path_code};
ghost use Rattle.ulfm_base.specs.declared.context.TheConstants.{CONTEXTS, PAST_CONTEXTS};

/// How many contexts jobs name: those of the world and of the first duplicates and shrinks of 0 to 30.
pub const CONTEXTS: usize = 63;

/// Each context's number is below it: a word has room for one beside a source and a tag.
pub const PAST_CONTEXTS: u64 = 1 << 45;

/// `PAST_CONTEXTS` in a type that no product of codes goes past.
const PAST: u128 = PAST_CONTEXTS as u128;

/// The context of a communicator. The world's is 0.
#[derive(Clone, Copy, Debug, PartialEq, Eq)]
pub struct Context {
    /// By the path from the world. The world's is 0.
    pub number: u64,
    pub ghost in_range: { number < PAST_CONTEXTS },
}

impl Context {
    ghost use Rattle.ulfm_base.specs.Context.{dup_of, shrink_of, child_of, nth_dup, nth_shrink};

    /// The context of the communicator of the world.
    pub const WORLD: Context = Context { number: 0 };

    /// The context of this number, where it is one of 0 to 62.
    pub fn new(number: u64) -> Option<Context>
        ensures { MatchOption result (CONTEXTS ≤ number) (λ context. context.number ≡ number) }
    {
        if number < CONTEXTS as u64 {
            Some(Context { number })
        } else {
            None
        }
    }

    /// The context of this number, where it is below 2^45.
    pub fn of_number(number: u64) -> Option<Context>
        ensures { MatchOption result (PAST_CONTEXTS ≤ number) (λ context. context.number ≡ number) }
    {
        if number < PAST_CONTEXTS {
            Some(Context { number })
        } else {
            None
        }
    }

    /// The number of the first duplicate's context, `2c+1`, where that is one of 0 to 62.
    pub fn dup_number(self) -> u64
        ensures { result ≡ dup_of self.number }
    {
        2 * self.number + 1
    }

    /// The context of the first duplicate of a communicator with this one, where it is one of 0 to 62.
    pub fn dup_of(self) -> Option<Context>
        ensures { MatchOption result (CONTEXTS ≤ dup_of self.number) (λ context. context.number ≡ dup_of self.number) }
    {
        Context::new(self.dup_number())
    }

    /// The number of the context of the communicator that a first shrink makes, `2c+2`, where that is one of 0 to 62.
    pub fn shrink_number(self) -> u64
        ensures { result ≡ shrink_of self.number }
    {
        2 * self.number + 2
    }

    /// The context of the communicator that the first shrink of this one makes, `2c+2`, where it is one of 0 to 62.
    pub fn shrink_of(self) -> Option<Context>
        ensures { MatchOption result (CONTEXTS ≤ shrink_of self.number) (λ context. context.number ≡ shrink_of self.number) }
    {
        Context::new(self.shrink_number())
    }

    /// The context of a duplicate of a communicator with this one, counted from 0, where its number is below 2^45.
    pub fn nth_dup(self, count: u64) -> Option<Context>
        ensures { MatchOption result (PAST_CONTEXTS ≤ nth_dup count self.number) (λ context. context.number ≡ nth_dup count self.number) }
    {
        self.child(3 * u128::from(count))
    }

    /// The context of the communicator that a shrink of this one makes, counted from 0, where its number is below 2^45.
    pub fn nth_shrink(self, count: u64) -> Option<Context>
        ensures { MatchOption result (PAST_CONTEXTS ≤ nth_shrink count self.number) (λ context. context.number ≡ nth_shrink count self.number) }
    {
        self.child(3 * u128::from(count) + 1)
    }

    /// The context of a child, counted from 0, where its number is below 2^45.
    fn child(self, n: u128) -> Option<Context>
        requires { n < 2 ^ 66 }
        ensures { MatchOption result (PAST_CONTEXTS ≤ child_of self.number n) (λ context. context.number ≡ child_of self.number n) }
    {
        if n < 2 && self.number < 31 {
            return Some(Context {
                number: 2 * self.number + 1 + n as u64,
            });
        }
        match path_code(self.number, n) {
            Some(code) => Context::of_number(63 + code),
            None => None,
        }
    }
}

/// The code of the path to a child, where it is below 2^45.
fn path_code(number: u64, n: u128) -> Option<u64>
    requires number { number < PAST_CONTEXTS }
    requires n { n < 2 ^ 66 }
    ensures { MatchOption result (PAST_CONTEXTS ≤ path_code number n) (λ code. (code ≡ path_code number n) × (code < PAST_CONTEXTS)) }
{
    let size = block_size(n);
    let within = number as u128 * size + (n + 1 - size);
    if within >= PAST {
        return None;
    }
    let code = size * (2 * within + 1);
    if code >= PAST {
        return None;
    }
    Some(code as u64)
}

/// How many places the block of a child has.
fn block_size(n: u128) -> u128
    requires { n < 2 ^ 66 }
    ensures size { result ≡ 2 ^ block_of n }
    ensures from { result ≤ n + 1 }
    ensures inside { n + 1 < result + result }
{
    let mut size: u128 = 1;
    for _ in 0..66u32 {
        if n + 1 < 2 * size {
            break;
        }
        size *= 2;
    }
    size
}
