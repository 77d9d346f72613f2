//! Notes are compared with those of others.
ghost use Rattle.std.specs.Prelude.{◌≡◌, ℕ, IfSome};
ghost use Rattle.ulfm_base.specs.Lists.{at};
ghost use Rattle.once_cell.specs.declared.race.note.Note.{Note as Noted};

use once_cell::race::Note;

/// Two notes of one cell know no two values.
fn agree<T>(one: &mut Note<T>, other: &mut Note<T>)
    requires { other.old.cell ≡ one.old.cell }
    ensures one { one.new ≡ one.old }
    ensures other { other.new ≡ other.old }
    ensures agree { IfSome one.old.known (λ x. IfSome other.old.known (λ y. y ≡ x)) }
{
    let theirs = other.again();
    one.compare(theirs);
}

/// As far as both go, the notes at each place know no two values.
pub(crate) fn agree_all<T>(one: &mut Vec<Note<T>>, other: &mut Vec<Note<T>>)
    requires { (k : ℕ) (x y : Noted T) → at one.old.items k x → at other.old.items k y → y.cell ≡ x.cell }
    ensures one { one.new.items ≡ one.old.items }
    ensures other { other.new.items ≡ other.old.items }
    ensures agree { (k : ℕ) (x y : Noted T) → at one.old.items k x → at other.old.items k y → IfSome x.known (λ v. IfSome y.known (λ w. w ≡ v)) }
{
    let both = one.len().min(other.len());
    for place in 0..both {
        agree(&mut one[place], &mut other[place]);
    }
}
