//! A rank's turn, by whatever hands it has.
//!
//! It names no handle: a rank thread's hands hold one, and the bound `Wait` stands at their `impl` alone. A poll is each engine's own: in finer parts
//! it takes more lines than it saves.
ghost use Rattle.std.specs.Prelude.{◌≡◌, ◌<◌, ℕ, Bool, true, false, IfOk, Option};
ghost use Rattle.std.specs.declared.option.Option.TheVariants.{None, Some};

/// What moves items and polls steps for the rank whose turn it is.
pub trait Hands {
    /// Why a turn breaks off.
    type Fault;

    /// What a poll says.
    type Polled;

    /// How many ranks there are.
    ghost size: { Self → ℕ };

    /// What has to hold before each part of a turn.
    ghost fits: { Self → Type 0 };

    /// What a push or a take may do, where something moved or nothing did.
    ghost moves: { Self → Self → Bool → Type 0 };

    /// How much waits to go to a rank.
    ghost waits: { Self → ℕ → ℕ };

    /// Nothing can go to the rank of this number. `None`: nothing can be taken.
    ghost stuck: { Self → Option ℕ → Type 0 };

    /// What a poll may do.
    ghost polls: { Self → Self → Self.Polled → Type 0 };

    /// How many ranks there are.
    fn ranks(&self) -> u8
        ensures { result ≡ size self.now };

    /// The first item that waits for a rank goes there, if there is one and room for it. Whether one went.
    fn push_one(&mut self, dest: u8) -> Result<bool, Self::Fault>
        requires fits { fits self.old }
        requires inside { dest < size self.old }
        ensures moves { IfOk result (λ moved. moves self.old self.new moved) }
        ensures fewer { IfOk result (λ moved. moved ≡ true → waits self.new dest < waits self.old dest) }
        ensures stuck { IfOk result (λ moved. moved ≡ false → stuck self.new (Some dest)) };

    /// Takes one item, if there is one. Whether one was taken.
    fn take_one(&mut self) -> Result<bool, Self::Fault>
        requires fits { fits self.old }
        ensures moves { IfOk result (λ moved. moves self.old self.new moved) }
        ensures stuck { IfOk result (λ moved. moved ≡ false → stuck self.new None) };

    /// Polls the next step once, if there is one.
    fn poll(&mut self) -> Result<Self::Polled, Self::Fault>
        requires fits { fits self.old }
        ensures polls { IfOk result (λ polled. polls self.old self.new polled) };

    ghost none: { (h : Self) → fits h → moves h h false };

    /// Something moved in the second part.
    ghost more: { (a b c : Self) (moved : Bool) → moves a b moved → moves b c true → moves a c true };

    /// Nothing moved in the second part.
    ghost same: { (a b c : Self) (moved : Bool) → moves a b moved → moves b c false → moves a c moved };

    ghost keeps: { (a b : Self) (moved : Bool) → fits a → moves a b moved → fits b };

    ghost sized: { (a b : Self) (moved : Bool) → moves a b moved → size b ≡ size a };

    /// What was stuck still is, where nothing moved.
    ghost still: { (a b : Self) (at : Option ℕ) → moves a b false → stuck a at → stuck b at };
}

/// Pushes to one rank, while there is something to push and room for it. Whether anything went.
fn push_to<H: Hands>(hands: &mut H, dest: u8) -> Result<bool, H::Fault>
    requires fits { H.fits hands.old }
    requires inside { dest < H.size hands.old }
    ensures moves { IfOk result (λ moved. H.moves hands.old hands.new moved) }
    ensures stuck { IfOk result (λ moved. H.stuck hands.new (Some dest)) }
{
    let mut moved = false;
    while hands.push_one(dest)? {
        moved = true;
    }
    Ok(moved)
}

/// Pushes to each rank upwards, while there is something to push and room for it. Whether anything went.
fn push_all<H: Hands>(hands: &mut H) -> Result<bool, H::Fault>
    requires fits { H.fits hands.old }
    ensures moves { IfOk result (λ moved. H.moves hands.old hands.new moved) }
    ensures stuck { IfOk result (λ moved. moved ≡ false → (d : ℕ) → d < H.size hands.new → H.stuck hands.new (Some d)) }
{
    let mut moved = false;
    for dest in 0..hands.ranks() {
        if push_to(hands, dest)? {
            moved = true;
        }
    }
    Ok(moved)
}

/// A rank's turn: it pushes to each rank, takes one item, and polls its next step once. Whether anything moved, and what the
/// poll says.
///
/// # Errors
///
/// The hands' own.
pub fn turn<H: Hands>(hands: &mut H) -> Result<(bool, H::Polled), H::Fault>
    requires fits { H.fits hands.old }
    ensures { IfOk result (λ turned. ((mid : _) × H.moves hands.old mid turned.0 × H.polls mid hands.new turned.1
        × (turned.0 ≡ false → ((d : ℕ) → d < H.size mid → H.stuck mid (Some d)) × H.stuck mid None))) }
{
    let pushed = push_all(hands)?;
    let took = hands.take_one()?;
    let polled = hands.poll()?;
    Ok((pushed || took, polled))
}
